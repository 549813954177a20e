//! A line's setting when it is checked: its text, section and number.
use lburg_lines::Section;

/// A line of a text, with the whole text and its number.
#[derive(Clone, Copy)]
pub(crate) struct Here<'a> {
    pub(crate) text: &'a [u8],
    pub(crate) section: Section,
    pub(crate) number: u32,
}
