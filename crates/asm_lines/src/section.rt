//! The sections of an assembly program: code and data.
/// The part of a program in which a line stands.
#[derive(Clone, Copy, Debug, PartialEq, Eq)]
pub enum Section {
    /// Behind `.text`: instructions.
    Text,
    /// Behind `.data`: what memory has when the program starts.
    Data,
}
