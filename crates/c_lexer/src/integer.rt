//! Integer constants: their base, digits and suffix, and the type and value that follow.
ghost use Rattle.std.specs.Prelude.{◌≡◌, ◌≤◌, ◌∷◌, [], Some};
ghost use Rattle.c_ast.specs.declared.class.Class.TheVariants.{Integer};
ghost use Rattle.c_lexer.specs.Integers.{is_u, is_l, suffix_of, kinds, first_holding, integer_in, starts_x, integer_of};

use crate::class::LexClass;
use crate::number::number_in;
use crate::run::split_run;
use c_ast::{Class, IntKind};
use lcc_text::Class as TextClass;

/// The greatest int.
const MAX_INT: u32 = 2_147_483_647;

/// The letters behind the digits of a constant.
#[derive(Clone, Copy)]
pub(crate) struct Suffix {
    pub(crate) unsigned: bool,
    pub(crate) long: bool,
}

fn is_u(byte: u8) -> bool
    ensures { result ≡ is_u byte }
{
    byte == b'u' || byte == b'U'
}

fn is_l(byte: u8) -> bool
    ensures { result ≡ is_l byte }
{
    byte == b'l' || byte == b'L'
}

fn suffix_of_one(a: u8) -> Option<Suffix>
    ensures { result ≡ suffix_of (a ∷ []) }
{
    if is_u(a) {
        Some(Suffix {
            unsigned: true,
            long: false,
        })
    } else if is_l(a) {
        Some(Suffix {
            unsigned: false,
            long: true,
        })
    } else {
        None
    }
}

fn suffix_of_two(a: u8, b: u8) -> Option<Suffix>
    ensures { result ≡ suffix_of (a ∷ b ∷ []) }
{
    if (is_u(a) && is_l(b)) || (is_l(a) && is_u(b)) {
        Some(Suffix {
            unsigned: true,
            long: true,
        })
    } else {
        None
    }
}

/// The suffix that the bytes are.
fn suffix_of(bytes: &[u8]) -> Option<Suffix>
    ensures { result ≡ suffix_of bytes.now }
{
    match bytes {
        [] => Some(Suffix {
            unsigned: false,
            long: false,
        }),
        [a] => suffix_of_one(*a),
        [a, b] => suffix_of_two(*a, *b),
        _ => None,
    }
}

/// The first type that holds the value.
fn kind_of(value: u32, is_decimal: bool, suffix: Suffix) -> IntKind
    ensures { first_holding value (kinds is_decimal suffix) ≡ Some (Integer value result) }
{
    let is_small = value <= MAX_INT;
    match (suffix.unsigned, suffix.long) {
        (false, false) => {
            if is_small {
                IntKind::Int
            } else if is_decimal {
                IntKind::UnsignedLong
            } else {
                IntKind::Unsigned
            }
        }
        (true, false) => IntKind::Unsigned,
        (false, true) => {
            if is_small {
                IntKind::Long
            } else {
                IntKind::UnsignedLong
            }
        }
        (true, true) => IntKind::UnsignedLong,
    }
}

/// The constant of these digits in the base, and what stands behind them.
fn integer_in(base: u8, digits: &[u8], after: &[u8]) -> Option<Class>
    requires low { 1 ≤ base }
    requires high { base ≤ 16 }
    ensures { result ≡ integer_in base digits.now after.now }
{
    if digits.is_empty() {
        return None;
    }
    let Some(value) = number_in(base, digits) else {
        return None;
    };
    let Some(suffix) = suffix_of(after) else {
        return None;
    };
    Some(Class::Integer {
        value,
        kind: kind_of(value, base == 10, suffix),
    })
}

/// Whether `x` or `X` stands first.
pub(crate) fn starts_x(bytes: &[u8]) -> bool
    ensures { result ≡ starts_x bytes.now }
{
    match bytes.split_first() {
        Some((first, _)) => *first == b'x' || *first == b'X',
        None => false,
    }
}

/// The integer constant that the bytes are.
pub(crate) fn integer_of(bytes: &[u8]) -> Option<Class>
    ensures { result ≡ integer_of bytes.now }
{
    let Some((first, rest)) = bytes.split_first() else {
        return None;
    };
    if *first == b'0' {
        if starts_x(rest) {
            let (digits, after) = split_run(LexClass::Hex, &rest[1..]);
            return integer_in(16, digits, after);
        }
        let (digits, after) = split_run(LexClass::Octal, bytes);
        return integer_in(8, digits, after);
    }
    let (digits, after) = split_run(TextClass::Digit, bytes);
    integer_in(10, digits, after)
}
