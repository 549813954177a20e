//! The syntax of declarations: the start symbol, and terminals with their numbers.
/// A line of declarations as it is written.
#[derive(Debug, Drop)]
pub enum Declaration<'a> {
    /// `%start name`
    Start(&'a [u8]),
    /// `%term name=digits name=digits ..`
    Terminals(Vec<NamedNumber<'a>>),
}

/// A terminal's declaration: `name=digits`.
#[derive(Clone, Copy, Debug)]
pub struct NamedNumber<'a> {
    pub name: &'a [u8],
    pub digits: &'a [u8],
}
