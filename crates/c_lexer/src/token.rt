//! Tokens as the lexer gives them, and the bytes of the source that they stand for.
ghost use Rattle.std.specs.Prelude.{◌≡◌, drop};
ghost use Rattle.c_lexer.specs.SourceUnits.{bytes_of};

use crate::sign::front;
use c_ast::Class;

/// A token: its class, from where to where in the source it stands, and its line.
#[derive(Clone, Copy, Debug, PartialEq, Eq)]
pub struct Token {
    pub class: Class,
    /// How many bytes stand before it.
    pub start: u32,
    /// How many bytes stand before what is behind it.
    pub end: u32,
    /// The line of its first byte, from 1, or as control lines say.
    pub line: u32,
}

/// What stands from a place on, or nothing where there are fewer bytes.
pub(crate) fn behind(bytes: &[u8], place: usize) -> &[u8]
    ensures { result.now ≡ drop place bytes.now }
{
    &bytes[place.min(bytes.len())..]
}

/// The bytes of a token of the source.
pub fn bytes_of(source: &[u8], token: Token) -> &[u8]
    ensures { result.now ≡ bytes_of source.now token }
{
    let many = token.end.saturating_sub(token.start) as usize;
    front(behind(source, token.start as usize), many)
}
