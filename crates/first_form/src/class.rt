//! The kinds of bytes of the first form beside those of names.
ghost use Rattle.std.specs.Prelude.{◌≡◌};

use lcc_text::ByteClass;

/// The kinds of bytes that the first form has beside those of names.
#[derive(Clone, Copy)]
pub(crate) enum FirstClass {
    /// White space: space, tab, line feed, vertical tab, form feed and carriage return.
    Blank,
    /// What constants are made of: letters, digits, `_` and `.`.
    Constant,
}

impl ByteClass for FirstClass {
    ghost use Rattle.first_form.specs.Classes.{in_first};

    ghost members = { in_first };

    fn has(self, byte: u8) -> bool {
        match self {
            FirstClass::Blank => byte == b' ' || (9 <= byte && byte <= 13),
            FirstClass::Constant => {
                (byte.is_ascii_alphabetic() || byte.is_ascii_digit() || byte == b'_')
                    || byte == b'.'
            }
        }
    }
}
