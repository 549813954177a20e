//! The kinds of bytes that lines of assembly are cut by, beside decimal digits.
ghost use Rattle.std.specs.Prelude.{◌≡◌};

use lcc_text::ByteClass;

/// The kinds of bytes that assembly has beside decimal digits.
#[derive(Clone, Copy, Debug, PartialEq, Eq)]
pub(crate) enum AsmClass {
    /// Space and tab: what may stand between tokens.
    Space,
    /// What a name is made of: an ASCII letter, a digit, `_` or `.`.
    Symbol,
    /// A hexadecimal digit, of either case.
    HexDigit,
}

impl ByteClass for AsmClass {
    ghost use Rattle.asm_lines.specs.Classes.{in_asm};

    ghost members = { in_asm };

    fn has(self, byte: u8) -> bool {
        match self {
            AsmClass::Space => byte == b' ' || byte == b'\t',
            AsmClass::Symbol => {
                byte.is_ascii_alphabetic() || byte.is_ascii_digit() || byte == b'_' || byte == b'.'
            }
            AsmClass::HexDigit => byte.is_ascii_hexdigit(),
        }
    }
}
