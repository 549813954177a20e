//! The tokens of assembly: their kinds, and the bytes that they have in a line.
/// A token of a line of assembly.
#[derive(Clone, Copy, Debug)]
pub struct Token<'a> {
    /// A word's or name's bytes, the digits of a number, or what stands behind a register's `$`. Of a sign and of `Bad` it
    /// says nothing.
    pub text: &'a [u8],
    pub kind: Kind,
    /// Whether blanks stand before it.
    pub is_spaced: bool,
}

/// What a token is.
#[derive(Clone, Copy, Debug, PartialEq, Eq)]
pub enum Kind {
    /// A word or name: letters, digits, `_` and `.`, first no digit.
    Word,
    /// Decimal digits.
    Decimal,
    /// The hexadecimal digits behind a `0x`.
    Hexadecimal,
    /// The letters, digits, `_` and `.` behind a `$`.
    Dollar,
    /// `:`
    Colon,
    /// `,`
    Comma,
    /// `(`
    Open,
    /// `)`
    Close,
    /// `+`
    Plus,
    /// `-`
    Minus,
    /// No token begins here.
    Bad,
}
