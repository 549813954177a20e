//! The patterns of rules, with operators and nonterminals as numbers.
/// A tree of operators with nonterminals among its leaves. An operator is the place of its
/// terminal in the declarations, from 1; a nonterminal is its place in the order of the first
/// rules with it as left side, from 0.
#[derive(Debug, Drop)]
pub enum Pattern {
    /// A nonterminal. Alone it makes a chain rule.
    Nonterminal(u16),
    /// An operator without operands.
    Leaf(u16),
    /// An operator with one operand.
    Unary(u16, Box<Pattern>),
    /// An operator with two operands.
    Binary(u16, Box<Pattern>, Box<Pattern>),
}
