//! Descriptions of machines as rules, the trees that they cover, and derivations: what these are, and which is best.
#![tactic(auto)]

mod derivation;
mod description;
mod pattern;
mod range;
mod rule;
mod terminal;
mod text_tree;
mod tree_node;

pub use derivation::Derivation;
pub use description::Description;
pub use pattern::Pattern;
pub use range::Range;
pub use rule::Rule;
pub use terminal::Terminal;
pub use text_tree::TextTree;
pub use tree_node::TreeNode;
