//! The symbols of nodes: globals with an offset, labels, and the layouts of blocks.
/// The symbol of a node.
/// Source: Fraser and Hanson, A Retargetable C Compiler, chapter 5.
#[derive(Clone, Copy, Debug, PartialEq, Eq)]
pub enum Sym {
    /// None.
    Nothing,
    /// The name of a global, by its place among the names, and a number of bytes from its start.
    Global { name: u32, offset: i32 },
    /// A label of the forest.
    Label(u32),
    /// The size and alignment of a block, in bytes.
    Block { size: u32, align: u32 },
}
