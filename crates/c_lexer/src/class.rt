//! The kinds of bytes as the lexer tells them apart.
ghost use Rattle.std.specs.Prelude.{◌≡◌};

use lcc_text::{ByteClass, Class};

/// The kinds of bytes that C's tokens have beside digits and those of names.
#[derive(Clone, Copy)]
pub(crate) enum LexClass {
    /// What constants are made of: letters, digits, `_` and `.`.
    Constant,
    /// What may stand between the parts of a control line: space and tab.
    Space,
    /// An octal digit.
    Octal,
    /// A hexadecimal digit.
    Hex,
    /// All but a line feed.
    Line,
}

impl ByteClass for LexClass {
    ghost use Rattle.c_lexer.specs.Classes.{in_lex};

    ghost members = { in_lex };

    fn has(self, byte: u8) -> bool {
        match self {
            LexClass::Constant => Class::Name.has(byte) || byte == b'.',
            LexClass::Space => byte == b' ' || byte == b'\t',
            LexClass::Octal => b'0' <= byte && byte <= b'7',
            LexClass::Hex => {
                byte.is_ascii_digit()
                    || ((b'a' <= byte && byte <= b'f') || (b'A' <= byte && byte <= b'F'))
            }
            LexClass::Line => byte != b'\n',
        }
    }
}
