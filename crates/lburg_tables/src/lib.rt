//! The tables of a description, with which trees are labelled, and their text; and the closing of
//! rows of cells under chain rules.
#![tactic(auto)]

mod best_chain;
mod cell;
mod chains;
mod closing;
mod index;
mod tables;
mod tables_text;

pub use best_chain::BestChain;
pub use cell::{Cell, clear_row, offer};
pub use tables::{Tables, build};
pub use tables_text::text;
