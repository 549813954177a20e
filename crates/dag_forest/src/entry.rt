//! The entries of a block, which are nodes and roots in the order of their addition.
use crate::parts::Parts;

/// What was added to a block.
#[derive(Clone, Copy, Debug, PartialEq, Eq)]
pub enum Entry {
    /// A node, whose number is its place among the nodes.
    Value(Parts),
    /// A root.
    Root(Parts),
}
