//! The terminals of a tree grammar: names, numbers and arities.
use lcc_base::Bytes;

/// A declared operator.
#[derive(Debug, Drop)]
pub struct Terminal {
    pub name: Bytes,
    /// The number that its declaration gives it.
    pub number: u32,
    /// How many operands it has, 0 to 2; none where no rule uses it.
    pub arity: Option<u8>,
}
