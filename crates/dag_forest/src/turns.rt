//! What a block does, in order, with its unused nodes.
ghost use Rattle.std.specs.Prelude.{◌≡◌, [], IfOk};
ghost use Rattle.dag_forest.specs.Schedules.{in_turn};
ghost use Rattle.dag_forest.specs.Tally.{AreFormed};

use crate::act::Act;
use crate::entry::Entry;
use crate::roots::{first_roots, node_count};
use crate::waiting::Waiting;
use lcc_base::Memory;
use node_arena::Arena;
use std::alloc::Global;

/// The acts of the entries, in time linear in their number: one walk, from the last entry on, finds the
/// first root that each node stands below, and another puts each node that waits into the list of that
/// root.
pub(crate) fn acts_in_turn(alloc: Global, entries: &Arena<Entry>) -> Result<Vec<Act>, Memory>
    requires { AreFormed entries.now.values 0 }
    ensures { IfOk result (λ acts. acts.items ≡ in_turn entries.now.values 0 []) }
{
    let nodes = node_count(entries);
    let first = first_roots(alloc, entries, nodes)?;
    let mut waiting = Waiting::new(alloc, first, entries.len() - nodes)?;
    let mut acts = Vec::new(alloc);
    for id in 0..entries.len() {
        match *entries.get(id) {
            Entry::Value(parts) => waiting.add(parts, &mut acts)?,
            Entry::Root(parts) => waiting.release(parts, &mut acts)?,
        }
    }
    Ok(acts)
}
