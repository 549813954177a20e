//! The texts of tokens, each with a blank before it.
ghost use Rattle.std.specs.Prelude.{◌≡◌, ◌<◌, ◌++◌, ◌∷◌, flat_map, OnOk};
ghost use Rattle.c_ast.specs.Lexemes.{Integer, Character};
ghost use Rattle.c_ast.specs.Printed.{stands_alone, character_text, kind_text, token_text};
ghost use Rattle.c_ast.specs.TreeTexts.{name_text, word_text, sign_text, literal_text};

use crate::class::IntKind;
use crate::keyword::keyword_text;
use crate::sign::sign_text;
use itoa::Buffer;
use lcc_base::{Bytes, Memory};

/// Whether a character stands for itself between quotes.
fn stands_alone(byte: u8) -> bool
    ensures { result ≡ stands_alone byte }
{
    (32..=126).contains(&byte) && byte != b'"' && byte != b'\'' && byte != b'\\'
}

/// Adds a character as it may stand between quotes.
fn push_character(out: &mut Bytes, byte: u8) -> Result<(), Memory>
    ensures { OnOk result (out.new ≡ out.old ++ character_text byte) }
{
    if stands_alone(byte) {
        return out.push(byte);
    }
    out.push(b'\\')?;
    out.push(b'0' + byte / 64)?;
    out.push(b'0' + byte / 8 % 8)?;
    out.push(b'0' + byte % 8)
}

/// Adds characters as they may stand between quotes.
fn push_characters(out: &mut Bytes, bytes: &[u8]) -> Result<(), Memory>
    ensures { OnOk result (out.new ≡ out.old ++ flat_map character_text bytes.now) }
{
    for byte in bytes {
        push_character(out, *byte)?;
    }
    Ok(())
}

/// Adds a blank and a text.
fn push_spaced(out: &mut Bytes, text: &[u8]) -> Result<(), Memory>
    ensures { OnOk result (out.new ≡ out.old ++ 32 ∷ text.now) }
{
    out.push(b' ')?;
    out.extend(text)
}

/// Adds a name.
#[tactic(auto, unfolding(crate::specs::Printed::token_text))]
pub(crate) fn push_name(out: &mut Bytes, name: &Bytes) -> Result<(), Memory>
    ensures { OnOk result (out.new ≡ out.old ++ name_text name.now) }
{
    push_spaced(out, name.as_slice())
}

/// Adds the keyword of this number.
#[tactic(auto, unfolding(crate::specs::Printed::token_text))]
pub(crate) fn push_keyword(out: &mut Bytes, number: u8) -> Result<(), Memory>
    requires { number < 32 }
    ensures { OnOk result (out.new ≡ out.old ++ word_text number) }
{
    push_spaced(out, keyword_text(number))
}

/// Adds the sign of this number.
#[tactic(auto, unfolding(crate::specs::Printed::token_text))]
pub(crate) fn push_sign(out: &mut Bytes, number: u8) -> Result<(), Memory>
    requires { number < 46 }
    ensures { OnOk result (out.new ≡ out.old ++ sign_text number) }
{
    push_spaced(out, sign_text(number))
}

/// The suffix of an integer constant.
fn kind_text(kind: IntKind) -> &'static [u8]
    ensures { result.now ≡ kind_text kind }
{
    match kind {
        IntKind::Int => b"",
        IntKind::Unsigned => b"u",
        IntKind::Long => b"l",
        IntKind::UnsignedLong => b"ul",
    }
}

/// Adds an integer constant.
#[tactic(auto, unfolding(crate::specs::Printed::token_text))]
pub(crate) fn push_integer(out: &mut Bytes, value: u32, kind: IntKind) -> Result<(), Memory>
    ensures { OnOk result (out.new ≡ out.old ++ token_text (Integer value kind)) }
{
    let mut buffer = Buffer::new();
    push_spaced(out, buffer.format(value).as_bytes())?;
    out.extend(kind_text(kind))
}

/// Adds a character constant.
#[tactic(auto, unfolding(crate::specs::Printed::token_text))]
pub(crate) fn push_character_constant(out: &mut Bytes, value: i32) -> Result<(), Memory>
    ensures { OnOk result (out.new ≡ out.old ++ token_text (Character value)) }
{
    push_spaced(out, b"'")?;
    push_character(out, (value.cast_unsigned() % 256) as u8)?;
    out.push(b'\'')
}

/// Adds a string literal.
#[tactic(auto, unfolding(crate::specs::Printed::token_text))]
pub(crate) fn push_text(out: &mut Bytes, bytes: &Bytes) -> Result<(), Memory>
    ensures { OnOk result (out.new ≡ out.old ++ literal_text bytes.now) }
{
    push_spaced(out, b"\"")?;
    push_characters(out, bytes.as_slice())?;
    out.push(b'"')
}
