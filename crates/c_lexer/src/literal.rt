//! The values of a string literal's characters, with escapes resolved.
ghost use Rattle.std.specs.Prelude.{◌≡◌, ◌≤◌, length, IfOk};
ghost use Rattle.c_lexer.specs.Texts.{text_of};

use crate::quoted::{Quoted, read_quoted};
use crate::token::{Token, behind};
use lcc_base::{Bytes, Memory};
use std::alloc::Global;

/// What a string literal of the source denotes: the values of its characters. Of any other token,
/// those of the characters behind its first byte, up to what is none. Source: C89 3.1.4.
pub fn text_values(alloc: Global, source: &[u8], token: Token) -> Result<Bytes, Memory>
    requires { length source.now ≤ 16777216 }
    ensures { IfOk result (λ b. b ≡ text_of source.now token) }
{
    let mut values = Bytes::new(alloc);
    let mut rest = behind(source, token.start as usize + 1);
    while let Quoted::Character { value, len } = read_quoted(b'"', rest) {
        values.push(value)?;
        rest = behind(rest, len);
    }
    Ok(values)
}
