//! The tokens of a source.
ghost use Rattle.std.specs.Prelude.{◌≤◌, length};

use c_ast::{Class, IntKind};
use c_lexer::{Lexer, Token, bytes_of, text_values};
use std::alloc::{AllocError, Global};
use std::str;

/// The suffix of a constant of this type.
fn suffix(kind: IntKind) -> &'static str {
    match kind {
        IntKind::Int => "",
        IntKind::Unsigned => "u",
        IntKind::Long => "l",
        IntKind::UnsignedLong => "ul",
    }
}

/// What the token is, with its value or bytes.
fn tell_class(
    alloc: Global,
    into: &mut String,
    source: &[u8],
    token: Token,
) -> Result<(), AllocError>
    requires { length source.now ≤ 16777216 }
{
    let spelled = bytes_of(source, token);
    let spelling = str::from_utf8(spelled).unwrap_or("..");
    match token.class {
        Class::Name => write!(into, "name {spelling}"),
        Class::Keyword(number) => write!(into, "keyword {number} {spelling}"),
        Class::Sign(number) => write!(into, "sign {number} {spelling}"),
        Class::Integer { value, kind } => {
            let suffix = suffix(kind);
            write!(into, "integer {value}{suffix}")
        }
        Class::Character(value) => write!(into, "character {value}"),
        Class::Text => {
            let Ok(values) = text_values(alloc, source, token) else {
                return write!(into, "no memory");
            };
            let length = values.len();
            let text = str::from_utf8(values.as_slice()).unwrap_or("..");
            write!(into, "text {length} {text:?}")
        }
    }
}

/// A line for each token with its first byte, the byte behind it and its line, and one for the fault
/// behind them.
pub fn tell_tokens(alloc: Global, source: &[u8]) -> Result<String, AllocError>
    requires { length source.now ≤ 16777216 }
{
    let mut told = String::new(alloc);
    let mut lexer = Lexer::new(source);
    for _ in 0..=source.len() {
        match lexer.next() {
            Ok(Some(token)) => {
                tell_class(alloc, &mut told, source, token)?;
                let Token {
                    start,
                    end,
                    line,
                    ..
                } = token;
                write!(&mut told, " {start} {end} line {line}\n")?;
            }
            Ok(None) => return Ok(told),
            Err(fault) => {
                write!(&mut told, "{fault}\n")?;
                return Ok(told);
            }
        }
    }
    Ok(told)
}
