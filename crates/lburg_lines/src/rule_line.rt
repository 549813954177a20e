//! The syntax of rules and of their costs.
use crate::named_tree::NamedTree;
use crate::number::SignedNumber;

/// A rule as it is written: `left: tree "template" cost`.
#[derive(Debug, Drop)]
pub struct RuleLine<'a> {
    pub left: &'a [u8],
    pub tree: NamedTree<'a>,
    /// What stands between the quotes.
    pub template: &'a [u8],
    pub cost: CostWritten<'a>,
}

/// The cost of a rule as it is written.
#[derive(Clone, Copy, Debug)]
pub enum CostWritten<'a> {
    /// None is written.
    Omitted,
    /// Decimal digits.
    Fixed(&'a [u8]),
    /// `range(a,LOW,HIGH)`
    Range {
        /// The least constant for which the rule applies.
        low: SignedNumber<'a>,
        /// The greatest.
        high: SignedNumber<'a>,
    },
}
