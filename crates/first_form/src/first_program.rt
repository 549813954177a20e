//! Programs of the first form: the expressions that they print, and the one that they return.
use crate::expression::Expression;
use lcc_base::Items;

/// A program of the first form.
#[derive(Debug, Drop)]
pub struct FirstProgram {
    /// What it prints, in order.
    pub prints: Items<Expression>,
    /// What it returns.
    pub result: Expression,
}
