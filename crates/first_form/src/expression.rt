//! The expressions of the first form, with their operators.
/// An expression of the first form.
#[derive(Debug, Drop)]
pub enum Expression {
    /// A number.
    Number(u32),
    /// `-` and its operand.
    Negate(Box<Expression>),
    /// An operator between its operands.
    Binary(Operator, Box<Expression>, Box<Expression>),
    /// An expression between parentheses.
    Parentheses(Box<Expression>),
}

/// An operator with two operands.
#[derive(Clone, Copy, Debug, PartialEq, Eq)]
pub enum Operator {
    /// `+`
    Add,
    /// `-`
    Subtract,
    /// `*`
    Multiply,
}
