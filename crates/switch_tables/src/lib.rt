//! The tables of a `switch`: its cases in rising order, cut into tables of which at least half is cases, and a search by
//! halves over these. Each number leads to its case's label, else to the default's.
//! Source: Fraser and Hanson, A Retargetable C Compiler, chapter 10.
#![tactic(auto)]

mod cutting;
mod laws;
mod order;
mod search;
mod table;

pub use cutting::tables;
pub use laws::{
    cases_are_cut, cases_are_sorted, numbers_lead, searches_are_short, tables_are_whole,
};
pub use search::{Halves, halved, label_at};
pub use table::Table;
