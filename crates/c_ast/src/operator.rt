//! The operators of C's expressions, by the number and the place of their operands.
/// An operator with two operands that gives a value. Source: C89 3.3.5 to 3.3.14.
#[derive(Clone, Copy, Debug, PartialEq, Eq)]
pub enum BinaryOperator {
    /// `||`
    Or,
    /// `&&`
    And,
    /// `|`
    BitOr,
    /// `^`
    BitXor,
    /// `&`
    BitAnd,
    /// `==`
    Equal,
    /// `!=`
    NotEqual,
    /// `<`
    Less,
    /// `>`
    Greater,
    /// `<=`
    LessEqual,
    /// `>=`
    GreaterEqual,
    /// `<<`
    ShiftLeft,
    /// `>>`
    ShiftRight,
    /// `+`
    Add,
    /// `-`
    Subtract,
    /// `*`
    Multiply,
    /// `/`
    Divide,
    /// `%`
    Remainder,
}

/// An assignment's operator. Source: C89 3.3.16.
#[derive(Clone, Copy, Debug, PartialEq, Eq)]
pub enum AssignOperator {
    /// `=`
    Plain,
    /// `*=`
    Multiply,
    /// `/=`
    Divide,
    /// `%=`
    Remainder,
    /// `+=`
    Add,
    /// `-=`
    Subtract,
    /// `<<=`
    ShiftLeft,
    /// `>>=`
    ShiftRight,
    /// `&=`
    BitAnd,
    /// `^=`
    BitXor,
    /// `|=`
    BitOr,
}

/// An operator before its operand; `sizeof` and casts have forms of their own. Source: C89 3.3.3.
#[derive(Clone, Copy, Debug, PartialEq, Eq)]
pub enum PrefixOperator {
    /// `++`
    Increment,
    /// `--`
    Decrement,
    /// `&`
    Address,
    /// `*`
    Indirect,
    /// `+`
    Plus,
    /// `-`
    Minus,
    /// `~`
    Complement,
    /// `!`
    Not,
}

/// An operator behind its operand that changes it. Source: C89 3.3.2.4.
#[derive(Clone, Copy, Debug, PartialEq, Eq)]
pub enum PostfixOperator {
    /// `++`
    Increment,
    /// `--`
    Decrement,
}

/// How a member is selected. Source: C89 3.3.2.3.
#[derive(Clone, Copy, Debug, PartialEq, Eq)]
pub enum MemberOperator {
    /// `.`
    Dot,
    /// `->`
    Arrow,
}
