//! Objects of forests in a machine's memory: where they lie, what loads and stores do, and what no object reaches.
#![tactic(auto)]

mod laws;

pub use laws::{
    blocks_are_copied, clear_stays, main_begins, objects_begin_and_end, reads_are_loads,
    writes_are_stores,
};
