//! The texts of descriptions: a description and the trees of its tail read, each or its first fault, and a description
//! printed. The types are those of `lburg_model`.
#![tactic(auto)]

mod description_text;
mod laws;
mod printed_text;
mod resolve;
mod resolved_rule;

pub use description_text::read;
pub use laws::{one_description, one_fault, one_tree_fault};
pub use lburg_faults::DescFault;
pub use lburg_model::{
    Derivation, Description, Pattern, Range, Rule, Terminal, TextTree, TreeNode,
};
pub use lburg_trees::{TreeFault, TreeTaker, read_trees, take_trees};
pub use printed_text::print;
