//! The class of bytes of which a quoted template consists.
use lcc_text::ByteClass;

/// What may stand between the quotes of a template: anything but a quote and a line feed.
#[derive(Clone, Copy, Debug, PartialEq, Eq)]
pub(crate) struct Quoted;

impl ByteClass for Quoted {
    ghost use Rattle.lburg_lines.specs.Tokens.{is_quoted};

    ghost members = { λ _. is_quoted };

    fn has(self, byte: u8) -> bool {
        byte != b'"' && byte != b'\n'
    }
}
