//! How far a function's body is lowered, and where it goes on.
use lcc_base::Items;
use lowering_steps::State;

/// How far a function's body is lowered, and the tables of its switches so far, of which each is the labels to which it leads.
#[derive(Drop)]
pub struct Progress {
    pub state: State,
    pub tables: Vec<Items<u32>>,
}

/// Where `break` and `continue` go.
#[derive(Clone, Copy, Debug, PartialEq, Eq)]
pub struct Exits {
    pub breaks: u32,
    pub continues: u32,
}
