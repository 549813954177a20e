//! Classes of bytes, and those from which the tokens of a description are made.
ghost use Rattle.std.specs.Prelude.{◌≡◌, ℕ, Bool};

/// A kind of byte.
pub trait ByteClass: Copy {
    /// Which bytes are of this kind.
    ghost members: { Self → ℕ → Bool };

    /// Whether the byte is of this kind.
    fn has(self, byte: u8) -> bool
        ensures { result ≡ members self byte };
}

/// The kinds of bytes of descriptions.
#[derive(Clone, Copy, Debug, PartialEq, Eq)]
pub enum Class {
    /// Space, tab, vertical tab, form feed and carriage return: what may stand between the
    /// tokens of a line.
    Blank,
    /// An ASCII letter, with which a name begins.
    Letter,
    /// An ASCII digit.
    Digit,
    /// What a name goes on with: a letter, a digit or `_`.
    Name,
    /// What stands between the quotes of a template: anything but a quote, a line feed and a
    /// backslash.
    Text,
}

impl ByteClass for Class {
    ghost use Rattle.lcc_text.specs.Classes.{in_class};

    ghost members = { in_class };

    fn has(self, byte: u8) -> bool {
        match self {
            Class::Blank => byte == b' ' || (9 <= byte && byte <= 13 && byte != 10),
            Class::Letter => byte.is_ascii_alphabetic(),
            Class::Digit => byte.is_ascii_digit(),
            Class::Name => byte.is_ascii_alphabetic() || byte.is_ascii_digit() || byte == b'_',
            Class::Text => byte != b'"' && byte != b'\n' && byte != b'\\',
        }
    }
}
