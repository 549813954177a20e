//! Numeric constants: the class of one, or the fault of one that is floating or malformed.
ghost use Rattle.std.specs.Prelude.{◌≡◌, ◌||◌, ◌==◌};
ghost use Rattle.std.specs.List.{list_any};
ghost use Rattle.c_lexer.specs.Constants.{has_0x, is_floating, constant_of};

use crate::integer::{integer_of, starts_x};
use crate::lex_fault::LexFaultKind;
use c_ast::Class;

/// Whether `0x` or `0X` stands somewhere.
fn has_0x(bytes: &[u8]) -> bool
    ensures { result ≡ has_0x bytes.now }
{
    let mut rest = bytes;
    while let Some((first, behind)) = rest.split_first() {
        if *first == b'0' && starts_x(behind) {
            return true;
        }
        rest = behind;
    }
    false
}

/// Whether a `.` stands somewhere.
fn has_point(bytes: &[u8]) -> bool
    ensures { result ≡ list_any (λ b. b == 46) bytes.now }
{
    bytes.iter().any(|byte| *byte == b'.')
}

/// Whether an `e` or `E` stands somewhere.
fn has_exponent(bytes: &[u8]) -> bool
    ensures { result ≡ list_any (λ b. b == 101 || b == 69) bytes.now }
{
    bytes.iter().any(|byte| *byte == b'e' || *byte == b'E')
}

/// Whether the constant is a floating one.
fn is_floating(bytes: &[u8]) -> bool
    ensures { result ≡ is_floating bytes.now }
{
    has_point(bytes) || (has_exponent(bytes) && !has_0x(bytes))
}

/// The constant that the bytes are. They are a whole run of letters, digits, `_` and `.`.
pub(crate) fn constant_of(bytes: &[u8]) -> Result<Class, LexFaultKind>
    ensures { result ≡ constant_of bytes.now }
{
    match integer_of(bytes) {
        Some(class) => Ok(class),
        None => {
            if is_floating(bytes) {
                Err(LexFaultKind::FloatConstant)
            } else {
                Err(LexFaultKind::BadConstant)
            }
        }
    }
}
