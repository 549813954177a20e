//! The first root that each node of a block stands below.
ghost use Rattle.std.specs.Prelude.{◌≡◌, ◌<◌, ◌≤◌, ◌∷◌, [], length, IfOk};
ghost use Rattle.dag_forest.specs.Entries.{AreBelow};
ghost use Rattle.dag_forest.specs.Releases.{first_roots, lowered, lowered_kids};
ghost use Rattle.dag_forest.specs.Tally.{AreFormed, node_count};

use crate::entry::Entry;
use crate::kids::Kids;
use lcc_base::Memory;
use node_arena::Arena;
use std::alloc::Global;
use std::cmp::min;

/// By the nodes' numbers, the number of the first root that each of so many stands below; below none,
/// the number of all roots.
pub(crate) fn first_roots(
    alloc: Global,
    entries: &Arena<Entry>,
    nodes: u32,
) -> Result<Vec<u32>, Memory>
    requires formed { AreFormed entries.now.values 0 }
    requires nodes { nodes ≡ node_count entries.now.values }
    ensures { IfOk result (λ first. first.items ≡ first_roots entries.now.values 0 0) }
{
    let mut node = nodes;
    let mut root = entries.len() - nodes;
    let mut first = vec![in alloc; root; nodes as usize]?;
    for id in (0..entries.len()).rev() {
        match *entries.get(id) {
            Entry::Value(parts) => {
                node -= 1;
                let above = first[node as usize];
                lower_kids(&mut first, parts.kids, above);
            }
            Entry::Root(parts) => {
                root -= 1;
                lower_kids(&mut first, parts.kids, root);
            }
        }
    }
    Ok(first)
}

/// How many of the entries are nodes.
pub(crate) fn node_count(entries: &Arena<Entry>) -> u32
    ensures is { result ≡ node_count entries.now.values }
    ensures few { result ≤ length entries.now.values }
{
    let mut count = 0;
    for id in 0..entries.len() {
        count += nodes_in(*entries.get(id));
    }
    count
}

// One for a node, none for a root.
fn nodes_in(entry: Entry) -> u32
    ensures is { result ≡ node_count (entry ∷ []) }
    ensures few { result ≤ 1 }
{
    match entry {
        Entry::Value(_) => 1,
        Entry::Root(_) => 0,
    }
}

// The operands stand below a root.
fn lower_kids(first: &mut [u32], kids: Kids, root: u32)
    requires { AreBelow (length first.old) kids }
    ensures { first.new ≡ lowered_kids root kids first.old }
{
    match kids {
        Kids::Zero => {}
        Kids::One(a) => lower(first, a, root),
        Kids::Two(a, b) => {
            lower(first, a, root);
            lower(first, b, root);
        }
    }
}

// A node stands below a root.
fn lower(first: &mut [u32], node: u32, root: u32)
    requires { node < length first.old }
    ensures { first.new ≡ lowered root node first.old }
{
    first[node as usize] = min(first[node as usize], root);
}
