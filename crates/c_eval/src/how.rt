//! The ways in which a run of a C program ends.
use lcc_base::Cause;

/// How a run ends.
#[derive(Clone, Copy, Debug, PartialEq, Eq)]
pub enum How {
    /// Its behaviour is undefined, for a cause at a line.
    Undefined(Cause, u32),
    /// Its turns are spent.
    OutOfTurns,
    /// It exits with a status, a word.
    Exit(u32),
}
