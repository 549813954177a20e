//! The search of a switch agrees with C: it leads to where C goes.
#![tactic(auto)]

mod laws;

pub use laws::{jumps_through_tables_lead, searches_agree, tables_are_short};
