//! Blocks of dags of operators, in which equal nodes are shared, below trees.
//! Source: Fraser and Hanson, A Retargetable C Compiler, chapter 12 (common subexpressions).
#![tactic(auto)]

mod act;
mod block;
mod choice;
mod emission;
mod entry;
mod frames;
mod key;
mod kids;
mod kind;
mod laws;
mod parts;
mod roots;
mod slot_trees;
mod standing;
mod turns;
mod uses;
mod waiting;

pub use act::Act;
pub use block::Block;
pub use entry::Entry;
pub use key::Key;
pub use kids::Kids;
pub use kind::Kind;
pub use laws::{
    blocks_are_split, narrow_operators_give_narrow_words, slots_are_temporaries,
    trees_do_what_blocks_do,
};
pub use parts::Parts;
pub use standing::Standing;
pub use uses::{Step, Times, Use};
