//! The words and lines of a description of rules, with names as they are written, and where a line
//! stops being one of its section.
#![tactic(auto)]

mod declaration;
mod declaration_reader;
mod lexing;
mod line;
mod line_lexing;
mod line_reader;
mod named_tree;
mod number;
mod quoted;
mod read_error;
mod readers;
mod rule_line;
mod rule_reader;
mod section;
mod token;
mod tree_reader;

pub use declaration::{Declaration, NamedNumber};
pub use lexing::{one_spelling, replace_tokens, tokens};
pub use line::Line;
pub use line_lexing::{line_tokens, one_text};
pub use line_reader::{one_line, read_line};
pub use named_tree::NamedTree;
pub use number::SignedNumber;
pub use read_error::ReadError;
pub use readers::{after_sign, end_of, name_at, number_at};
pub use rule_line::{CostWritten, RuleLine};
pub use section::Section;
pub use token::{Border, Sign, Token};
pub use tree_reader::{one_tree, tree_at};
