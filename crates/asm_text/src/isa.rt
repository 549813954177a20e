//! The instruction sets whose assembly can be read.
/// An instruction set.
#[derive(Clone, Copy, Debug, PartialEq, Eq)]
pub enum Isa {
    /// MIPS R3000, in either byte order.
    Mips,
}
