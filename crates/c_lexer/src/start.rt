//! The kind of a token, told by its first bytes.
ghost use Rattle.std.specs.Prelude.{◌≡◌, ◌||◌, ◌==◌, if◌then◌else◌};
ghost use Rattle.std.specs.Char.{is_ascii_digit};
ghost use Rattle.c_lexer.specs.declared.start.Start.TheVariants.{Character, Text, Comment, Sign};
ghost use Rattle.c_lexer.specs.Starts.{starts_with, starts_constant, starts_wide, starts_comment, start_of};

use lcc_text::{ByteClass, Class};

/// What the first bytes of a token say that it is.
#[derive(Clone, Copy)]
pub(crate) enum Start {
    /// No byte is left.
    End,
    /// A number.
    Constant,
    /// A literal of wide characters.
    Wide,
    /// A name or a keyword.
    Word,
    /// A character constant.
    Character,
    /// A string literal.
    Text,
    /// A comment.
    Comment,
    /// A sign, or nothing.
    Sign,
}

fn starts_with_digit(bytes: &[u8]) -> bool
    ensures { result ≡ starts_with is_ascii_digit bytes.now }
{
    match bytes.split_first() {
        Some((first, _)) => first.is_ascii_digit(),
        None => false,
    }
}

fn starts_with_quote(bytes: &[u8]) -> bool
    ensures { result ≡ starts_with (λ a. a == 39 || a == 34) bytes.now }
{
    match bytes.split_first() {
        Some((first, _)) => *first == b'\'' || *first == b'"',
        None => false,
    }
}

pub(crate) fn starts_with_star(bytes: &[u8]) -> bool
    ensures { result ≡ starts_with (λ a. a == 42) bytes.now }
{
    match bytes.split_first() {
        Some((first, _)) => *first == b'*',
        None => false,
    }
}

fn start_of_sign(first: u8, rest: &[u8]) -> Start
    ensures { result ≡ (if first == 39 then Character else (if first == 34 then Text else (if starts_comment first rest.now then Comment else Sign))) }
{
    if first == b'\'' {
        Start::Character
    } else if first == b'"' {
        Start::Text
    } else if first == b'/' && starts_with_star(rest) {
        Start::Comment
    } else {
        Start::Sign
    }
}

/// What the first bytes say that stands here.
pub(crate) fn start_of(bytes: &[u8]) -> Start
    ensures { result ≡ start_of bytes.now }
{
    let Some((first, rest)) = bytes.split_first() else {
        return Start::End;
    };
    if first.is_ascii_digit() || (*first == b'.' && starts_with_digit(rest)) {
        return Start::Constant;
    }
    if *first == b'L' && starts_with_quote(rest) {
        return Start::Wide;
    }
    if Class::Name.has(*first) {
        return Start::Word;
    }
    start_of_sign(*first, rest)
}
