//! Jump tables: labels for numbers in a row.
use lcc_base::Items;

/// The labels to which numbers that follow each other modulo 2^32 lead, from `low` on.
#[derive(Debug, Drop)]
pub struct Table {
    pub low: u32,
    pub labels: Items<u32>,
}
