//! Where the lexer stands in a source: offset, line, and whether a control line may begin.
/// A place of a source between two of its pieces.
#[derive(Clone, Copy)]
pub struct Place {
    /// How many bytes stand before it.
    pub offset: usize,
    /// Its line, from 1, or as control lines say.
    pub line: u32,
    /// Whether nothing but spaces and tabs stands before it on its line.
    pub opens: bool,
}
