//! The outcomes of a step that leaves its printing to the caller.
use asm_text::Step;

/// What a step does whose printing is left to the caller.
#[derive(Clone, Copy, Debug, PartialEq, Eq)]
pub enum Turn {
    /// It prints nothing, and is done with this answer.
    Quiet(Step),
    /// It went, and prints this byte.
    Prints(u8),
}
