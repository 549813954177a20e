//! The places of labels, counted from the start of their section.
/// Where a label stands: at the next place of its section.
#[derive(Clone, Copy, Debug, PartialEq, Eq)]
pub enum Place {
    /// So many instructions stand before it.
    Code(u32),
    /// So many bytes of data stand before it.
    Data(u32),
}

/// A label: its name, of some kind, and where it stands.
#[derive(Clone, Copy, Debug, PartialEq, Eq)]
pub struct Label<N> {
    pub name: N,
    pub place: Place,
}
