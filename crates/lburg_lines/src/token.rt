//! The tokens of a description's lines, with the signs and borders among them.
/// A token of a line.
#[derive(Clone, Copy, Debug)]
pub enum Token<'a> {
    /// A letter, then letters, digits and `_`.
    Name(&'a [u8]),
    /// Decimal digits.
    Digits(&'a [u8]),
    /// The decimal digits behind a minus sign, which touches them.
    Negative(&'a [u8]),
    /// What stands between the quotes of a template, as it is written.
    Text(&'a [u8]),
    /// The name behind a percent sign, as in `%term`.
    Directive(&'a [u8]),
    /// A sign.
    Sign(Sign),
    /// The first two bytes of a line that ends a section or opens or closes the prologue.
    Border(Border),
    /// No token begins here.
    Bad,
}

/// A token of one byte.
#[derive(Clone, Copy, Debug, PartialEq, Eq)]
pub enum Sign {
    /// `(`
    Open,
    /// `)`
    Close,
    /// `,`
    Comma,
    /// `:`
    Colon,
    /// `=`
    Equals,
    /// `[`
    OpenBracket,
    /// `]`
    CloseBracket,
}

/// A token of two bytes with which a line begins.
#[derive(Clone, Copy, Debug, PartialEq, Eq)]
pub enum Border {
    /// `%%`
    Divider,
    /// `%{`
    PrologueStart,
    /// `%}`
    PrologueEnd,
}
