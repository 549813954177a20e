//! The nodes of a block that wait for a root.
ghost use Rattle.std.specs.Prelude.{◌≡◌, ◌+◌, ◌-◌, ◌<◌, ◌^◌, ◌++◌, ◌∷◌, [], List, length, map, replicate, IfOk, OnOk};
ghost use Rattle.dag_forest.specs.declared.entry.Entry.{Entry};
ghost use Rattle.dag_forest.specs.declared.entry.Entry.TheVariants.{Value, Root};
ghost use Rattle.dag_forest.specs.Entries.{AreBelow};
ghost use Rattle.dag_forest.specs.Releases.{by_lists, has_kid_left, is_left, listed, waits_behind};

use crate::act::Act;
use crate::kids::Kids;
use crate::parts::Parts;
use lcc_base::Memory;
use op_forest::Op;
use std::alloc::Global;

/// The nodes so far, by their numbers, and the roots.
#[derive(Drop)]
pub(crate) struct Waiting {
    // The first root that each node of the block stands below.
    first: Vec<u32>,
    // Whether each node so far was to wait for a root.
    waits: Vec<bool>,
    // The nodes so far that each root of the block releases.
    lists: Vec<Vec<Act>>,
    // How many roots there were.
    passed: u32,
}

impl Waiting {
    /// No nodes so far, in a block of so many roots.
    pub(crate) fn new(alloc: Global, first: Vec<u32>, roots: u32) -> Result<Self, Memory>
        ensures first { IfOk result (λ w. w.first ≡ first) }
        ensures waits { IfOk result (λ w. w.waits.items ≡ []) }
        ensures lists { IfOk result (λ w. map (λ l. l.items) w.lists.items ≡ replicate roots []) }
        ensures passed { IfOk result (λ w. w.passed ≡ 0) }
    {
        Ok(Waiting {
            first,
            waits: Vec::new(alloc),
            lists: empty_lists(alloc, roots)?,
            passed: 0,
        })
    }

    /// A node is made, or waits.
    pub(crate) fn add(&mut self, parts: Parts, acts: &mut Vec<Act>) -> Result<(), Memory>
        requires room { length self.old.waits.items < length self.old.first.items }
        requires few { length self.old.waits.items < 2 ^ 32 }
        requires kids { AreBelow (length self.old.waits.items) parts.kids }
        ensures acts { (rest : List Entry) → OnOk result (acts.new.items ++ by_lists self.new.first.items rest self.new.passed self.new.waits.items (map (λ l. l.items) self.new.lists.items) ≡ acts.old.items ++ by_lists self.old.first.items (Value parts ∷ rest) self.old.passed self.old.waits.items (map (λ l. l.items) self.old.lists.items)) }
        ensures first { self.new.first ≡ self.old.first }
        ensures waits { OnOk result (length self.new.waits.items ≡ length self.old.waits.items + 1) }
        ensures lists { length self.new.lists.items ≡ length self.old.lists.items }
        ensures passed { self.new.passed ≡ self.old.passed }
    {
        let node = self.waits.len();
        let made = Act::Made(node as u32, parts);
        let waits = self.waits(parts);
        self.waits.push(waits)?;
        if waits {
            list(&mut self.lists, self.first[node], made)?;
        } else {
            acts.push(made)?;
        }
        Ok(())
    }

    /// A root acts, behind the nodes that it releases.
    pub(crate) fn release(&mut self, parts: Parts, acts: &mut Vec<Act>) -> Result<(), Memory>
        requires within { self.old.passed < length self.old.lists.items }
        requires few { self.old.passed < 2 ^ 32 - 1 }
        ensures acts { (rest : List Entry) → OnOk result (acts.new.items ++ by_lists self.new.first.items rest self.new.passed self.new.waits.items (map (λ l. l.items) self.new.lists.items) ≡ acts.old.items ++ by_lists self.old.first.items (Root parts ∷ rest) self.old.passed self.old.waits.items (map (λ l. l.items) self.old.lists.items)) }
        ensures first { self.new.first ≡ self.old.first }
        ensures waits { self.new.waits ≡ self.old.waits }
        ensures lists { self.new.lists ≡ self.old.lists }
        ensures passed { OnOk result (self.new.passed ≡ self.old.passed + 1) }
    {
        acts.extend_from_slice(&self.lists[self.passed as usize])?;
        acts.push(Act::Acts(parts))?;
        self.passed += 1;
        Ok(())
    }

    // Whether a node waits for a root: a call, or a node above one that waits.
    fn waits(&self, parts: Parts) -> bool
        requires room { length self.now.waits.items < length self.now.first.items }
        requires kids { AreBelow (length self.now.waits.items) parts.kids }
        ensures { result ≡ waits_behind self.now.first.items self.now.waits.items self.now.passed parts }
    {
        if parts.operator.op == Op::Call {
            return true;
        }
        match parts.kids {
            Kids::Zero => false,
            Kids::One(a) => self.is_left(a),
            Kids::Two(a, b) => self.is_left(a) || self.is_left(b),
        }
    }

    // Whether a node waits still.
    fn is_left(&self, node: u32) -> bool
        requires room { length self.now.waits.items < length self.now.first.items }
        requires node { node < length self.now.waits.items }
        ensures { result ≡ is_left self.now.first.items self.now.waits.items self.now.passed node }
    {
        self.waits[node as usize] && self.passed <= self.first[node as usize]
    }
}

// So many lists, with nothing in them.
fn empty_lists(alloc: Global, number: u32) -> Result<Vec<Vec<Act>>, Memory>
    ensures { IfOk result (λ lists. map (λ l. l.items) lists.items ≡ replicate number []) }
{
    let mut lists = Vec::with_capacity(alloc, number as usize)?;
    for _number in 0..number {
        lists.push(Vec::new(alloc))?;
    }
    Ok(lists)
}

// A list has one act more. No list holds what no root releases.
fn list(lists: &mut Vec<Vec<Act>>, root: u32, act: Act) -> Result<(), Memory>
    ensures ok { OnOk result (map (λ l. l.items) lists.new.items ≡ listed root act (map (λ l. l.items) lists.old.items)) }
    ensures same { length lists.new.items ≡ length lists.old.items }
{
    if (root as usize) < lists.len() {
        lists[root as usize].push(act)?;
    }
    Ok(())
}
