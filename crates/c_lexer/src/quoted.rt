//! Characters between quotes, with simple, octal and hexadecimal escapes.
ghost use Rattle.std.specs.Prelude.{◌≡◌, ◌≤◌, ◌<◌, ◌+◌, ℕ, length, take, IfOk};
ghost use Rattle.c_lexer.specs.declared.class.LexClass.TheVariants.{Octal as OctalClass, Hex as HexClass};
ghost use Rattle.c_lexer.specs.Quoted.{simple_escape, numeric, hexadecimal, octal, escape, quoted, next_character};
ghost use Rattle.c_lexer.specs.Runs.{run};
ghost use Rattle.c_lexer.specs.Chains.{Chain};
ghost use Rattle.c_lexer.specs.Characters.{IsWithin, Characters};
ghost use Rattle.c_lexer.specs.Numbers.{value_behind};
ghost use Rattle.c_lexer.specs.Classes.{in_lex};

use crate::class::LexClass;
use crate::lex_fault::LexFaultKind;
use crate::number::number_in;
use crate::run::split_run;
use crate::sign::front;
use lcc_text::ByteClass;

/// What stands first between quotes.
#[derive(Clone, Copy)]
pub(crate) enum Quoted {
    /// The quote that closes.
    Close,
    /// A character, and how many bytes write it.
    Character { value: u8, len: usize },
    /// No character.
    Fault(LexFaultKind),
}

/// What a backslash and this byte write.
fn simple_escape(byte: u8) -> Option<u8>
    ensures { result ≡ simple_escape byte }
{
    match byte {
        b'\'' | b'"' | b'?' | b'\\' => Some(byte),
        b'a' => Some(7),
        b'b' => Some(8),
        b'f' => Some(12),
        b'n' => Some(10),
        b'r' => Some(13),
        b't' => Some(9),
        b'v' => Some(11),
        _ => None,
    }
}

/// The character of the number that the digits write in the base, and how many bytes write it.
fn numeric(base: u8, digits: &[u8], len: usize) -> Quoted
    requires low { 1 ≤ base }
    requires high { base ≤ 16 }
    ensures is { result ≡ numeric (value_behind base 0 digits.now) len }
    ensures within { (n : ℕ) → 1 ≤ len → len ≤ n → IsWithin result n }
{
    match number_in(base, digits) {
        Some(value) if value <= 255 => Quoted::Character {
            value: value as u8,
            len,
        },
        _ => Quoted::Fault(LexFaultKind::BadConstant),
    }
}

/// What a backslash and up to three octal digits write.
fn octal(bytes: &[u8]) -> Quoted
    ensures is { result ≡ octal (run (in_lex OctalClass) (take 3 bytes.now)) }
    ensures within { IsWithin result (length bytes.now + 1) }
{
    let (digits, _) = split_run(LexClass::Octal, front(bytes, 3));
    numeric(8, digits, 1 + digits.len())
}

/// What `\x` and the hexadecimal digits behind it write.
fn hexadecimal(bytes: &[u8]) -> Quoted
    requires { length bytes.now ≤ 16777216 }
    ensures is { result ≡ hexadecimal (run (in_lex HexClass) bytes.now) }
    ensures within { IsWithin result (length bytes.now + 2) }
{
    let (digits, _) = split_run(LexClass::Hex, bytes);
    if digits.is_empty() {
        return Quoted::Fault(LexFaultKind::BadConstant);
    }
    numeric(16, digits, 2 + digits.len())
}

/// What a backslash writes with the bytes behind it.
fn escape(bytes: &[u8]) -> Quoted
    requires { length bytes.now ≤ 16777216 }
    ensures is { result ≡ escape bytes.now }
    ensures within { IsWithin result (length bytes.now + 1) }
{
    let Some((first, rest)) = bytes.split_first() else {
        return Quoted::Fault(LexFaultKind::OpenText);
    };
    if *first == b'\n' {
        return Quoted::Fault(LexFaultKind::OpenText);
    }
    if LexClass::Octal.has(*first) {
        return octal(bytes);
    }
    if *first == b'x' {
        return hexadecimal(rest);
    }
    match simple_escape(*first) {
        Some(value) => Quoted::Character { value, len: 2 },
        None => Quoted::Fault(LexFaultKind::BadConstant),
    }
}

/// What stands first between the quotes.
pub(crate) fn read_quoted(quote: u8, bytes: &[u8]) -> Quoted
    requires { length bytes.now ≤ 16777216 }
    ensures is { result ≡ quoted quote bytes.now }
    ensures within { IsWithin result (length bytes.now) }
{
    let Some((first, rest)) = bytes.split_first() else {
        return Quoted::Fault(LexFaultKind::OpenText);
    };
    if *first == quote {
        return Quoted::Close;
    }
    if *first == b'\n' {
        return Quoted::Fault(LexFaultKind::OpenText);
    }
    if *first == b'\\' {
        return escape(rest);
    }
    Quoted::Character {
        value: *first,
        len: 1,
    }
}

/// The characters up to the closing quote: how many they are, and how many bytes write them; or
/// the first fault.
pub(crate) fn characters(quote: u8, bytes: &[u8]) -> Result<(usize, usize), LexFaultKind>
    requires { length bytes.now ≤ 16777216 }
    ensures are { Characters quote bytes.now result }
    ensures bound { IfOk result (λ x. x.1 < length bytes.now) }
{
    let mut count = 0;
    let mut offset = 0;
    loop {
        match read_quoted(quote, &bytes[offset..]) {
            Quoted::Close => return Ok((count, offset)),
            Quoted::Character { len, .. } => {
                count += 1;
                offset += len;
            }
            Quoted::Fault(kind) => return Err(kind),
        }
    }
}
