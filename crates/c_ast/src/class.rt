//! The classes of C's tokens: names, keywords, constants, string literals and signs.
/// The class of a token, with the value of a constant. Source: C89 3.1.
#[derive(Clone, Copy, Debug, PartialEq, Eq)]
pub enum Class {
    /// A word that is no keyword.
    Name,
    /// A keyword, by its place in alphabetical order, from 0.
    Keyword(u8),
    /// An integer constant, by its value and type.
    Integer { value: u32, kind: IntKind },
    /// A character constant, by its value, which is that of a signed char.
    Character(i32),
    /// A string literal. What it denotes stands in its bytes.
    Text,
    /// An operator or a punctuator, by its place in the list of signs, from 0.
    Sign(u8),
}

/// The type of an integer constant. Source: C89 3.1.3.2.
#[derive(Clone, Copy, Debug, PartialEq, Eq)]
pub enum IntKind {
    Int,
    Unsigned,
    Long,
    UnsignedLong,
}
