//! A description's lines once they are free of faults, before their names are resolved.
use indexmap::IndexSet;
use lburg_lines::RuleLine;

/// A description's text without a fault, with names as they are written.
#[derive(Drop)]
pub struct CheckedText<'a> {
    /// The names of the terminals, in the order of their declarations.
    pub terminals: IndexSet<&'a [u8]>,
    /// Their numbers.
    pub numbers: IndexSet<u32>,
    /// How many operands each has, 0 to 2: as at its first use, none where no rule uses it.
    pub arities: Vec<Option<u8>>,
    /// The name of the start symbol, where it is declared.
    pub start: Option<&'a [u8]>,
    /// The rules, in order.
    pub rules: Vec<RuleLine<'a>>,
}
