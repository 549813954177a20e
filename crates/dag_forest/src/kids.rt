//! The operands of nodes and roots, as numbers of nodes in the same block.
/// The operands of a node or a root, from left to right: nodes of the same block, by their numbers.
#[derive(Clone, Copy, Debug, PartialEq, Eq, Hash)]
pub enum Kids {
    Zero,
    One(u32),
    Two(u32, u32),
}
