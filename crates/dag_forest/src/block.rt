//! Blocks of nodes and roots as directed acyclic graphs, in which equal nodes are shared.
ghost use Rattle.std.specs.Prelude.{◌≡◌, ◌⊎◌, ◌++◌, ◌∷◌, [], ◌<◌, ◌≤◌, ◌+◌, ◌-◌, ◌^◌, length, slice_get, Some, None, IfOk, OnOk, OnErr, ℕ, true, false};
ghost use Rattle.dag_forest.specs.Entries.{AreBelow, parts_of};
ghost use Rattle.lcc_base.specs.declared.order.Order.{Order};
ghost use Rattle.forests.specs.Addresses.{Home};
ghost use Rattle.dag_forest.specs.Split.{Split, split_frame, split_trees};
ghost use Rattle.dag_forest.specs.Tally.{IsFresh};

use crate::choice::choose;
use crate::emission::trees_of;
use crate::entry::Entry;
use crate::frames::slots_below;
use crate::key::Key;
use crate::kids::Kids;
use crate::parts::Parts;
use crate::turns::acts_in_turn;
use crate::uses::used_steps;
use indexmap::IndexSet;
use lcc_base::{Items, Memory};
use node_arena::Arena;
use op_forest::{Frame, Op, Operator, Sym, Tree};
use std::alloc::Global;
use std::cmp::max;
use std::marker::Model;

/// The least number of entries for which room is made.
const LEAST_ROOM: usize = 32;

/// Nodes, of which no two are equal, and the roots above them. Contracts see the list of the
/// entries.
#[derive(Drop)]
pub struct Block {
    entries: Arena<Entry>,
    // The nodes' keys, by their numbers.
    keys: IndexSet<Key>,
    // Whether each node has a call at or below it.
    calling: Vec<bool>,
    // How many stretches have ended.
    stretch: u32,
}

impl Model for Block {
    ghost use Rattle.std.specs.Prelude.{List};
    ghost use Rattle.dag_forest.specs.declared.entry.Entry.{Entry};
    ghost use Rattle.dag_forest.specs.Tally.{IsTallied};

    ghost Value = { List Entry };

    ghost view = { λ b. b.entries.values };

    ghost invariant = { λ b. IsTallied b.entries.values b.keys.keys b.calling.items b.stretch };
}

impl Block {
    ghost use Rattle.dag_forest.specs.declared.entry.Entry.TheVariants.{Value, Root};
    ghost use Rattle.dag_forest.specs.Tally.{keys_of, key_behind, ends, holds_call, tally, AreDistinct};

    /// A block without a node, without an allocation.
    pub fn new(alloc: Global) -> Self
        ensures { result ≡ [] }
    {
        Block {
            entries: Arena::new(alloc),
            keys: IndexSet::new(alloc),
            calling: Vec::new(alloc),
            stretch: 0,
        }
    }

    /// The number of the node of these parts, which is added unless an equal one is there. `Memory`
    /// comes where an allocation is refused, or where 2^32 - 1 nodes and roots stand already; the
    /// block is as before then.
    pub fn value(
        &mut self,
        operator: Operator,
        kids: Kids,
        sym: Sym,
        constant: Option<i64>,
    ) -> Result<u32, Memory>
        requires { AreBelow (length (keys_of self.old)) kids }
        ensures node { let parts = parts_of operator kids sym constant in IfOk result (λ n. slice_get (keys_of self.new) n ≡ Some (key_behind self.old parts)) }
        ensures again { let parts = parts_of operator kids sym constant in (m : ℕ) → slice_get (keys_of self.old) m ≡ Some (key_behind self.old parts) → IfOk result (λ n. n ≡ m) }
        ensures unchanged { let parts = parts_of operator kids sym constant in (m : ℕ) → slice_get (keys_of self.old) m ≡ Some (key_behind self.old parts) → OnOk result (self.new ≡ self.old) }
        ensures added { let parts = parts_of operator kids sym constant in OnOk result ((self.new ≡ self.old) ⊎ (self.new ≡ self.old ++ Value parts ∷ [])) }
        ensures distinct { OnOk result (AreDistinct (keys_of self.new)) }
        ensures below { IfOk result (λ n. n < length (keys_of self.new)) }
        ensures kept { OnOk result (length (keys_of self.old) ≤ length (keys_of self.new)) }
        ensures one_more { OnOk result (length (keys_of self.new) ≤ length (keys_of self.old) + 1) }
        ensures err { OnErr result (self.new ≡ self.old) }
    {
        let parts = Parts {
            operator,
            kids,
            sym,
            constant,
        };
        make_room(&mut self.entries)?;
        self.calling.reserve(1)?;
        let calls = self.holds_call(parts);
        let key = Key::new(parts, self.stretch, self.keys.len() as u32);
        let (number, is_new) = numbered(&mut self.keys, key)?;
        if is_new {
            self.calling.push_reserved(calls);
            let _ = self.entries.push(Entry::Value(parts));
        }
        Ok(number)
    }

    /// Adds a root behind all entries. `Memory` comes where an allocation is refused, or where
    /// 2^32 - 1 nodes and roots stand already; the block is as before then.
    pub fn root(&mut self, operator: Operator, kids: Kids, sym: Sym) -> Result<(), Memory>
        requires { AreBelow (length (keys_of self.old)) kids }
        ensures ok { let parts = parts_of operator kids sym None in OnOk result (self.new ≡ self.old ++ Root parts ∷ []) }
        ensures nodes { OnOk result (keys_of self.new ≡ keys_of self.old) }
        ensures err { OnErr result (self.new ≡ self.old) }
    {
        let parts = Parts {
            operator,
            kids,
            sym,
            constant: None,
        };
        make_room(&mut self.entries)?;
        let ends = self.ends(parts);
        self.stretch += u32::from(ends);
        let _ = self.entries.push(Entry::Root(parts));
        Ok(())
    }

    /// The trees of what the block does, in order. A node that is no address or constant is assigned to a
    /// new slot of the frame where it is used more than once, or where a write or call between its stretch
    /// and its use could change what it reads. So is a call, unless it is the last operand of the root right
    /// behind it and nothing else uses it, as in `x = f()`. Each new slot has 4 bytes and begins
    /// where the lowest one did that was there. `Memory` comes where an allocation is refused, or where a
    /// slot would begin below -2^31; the frame is as before then.
    pub fn finish(self, alloc: Global, frame: &mut Frame) -> Result<Items<Tree>, Memory>
        ensures trees { (order : Order) → (home : Home) → IfOk result (λ trees. trees ≡ split_trees order home frame.old self []) }
        ensures frame { OnOk result (frame.new ≡ split_frame frame.old self) }
        ensures split { OnOk result (Split frame.old self) }
        ensures err { OnErr result (frame.new ≡ frame.old) }
    {
        let nodes = self.keys.len();
        let steps = used_steps(alloc, acts_in_turn(alloc, &self.entries)?, nodes)?;
        let lowest = frame.lowest();
        let choice = choose(alloc, &steps, nodes, lowest)?;
        let trees = trees_of(alloc, &steps, &choice.standing)?;
        let slots = slots_below(alloc, lowest, choice.slots)?;
        frame.extend(slots.as_slice())?;
        Ok(trees)
    }

    // Whether a stretch ends at a root of these parts: it writes or holds a call.
    fn ends(&self, parts: Parts) -> bool
        requires { AreBelow (length (keys_of self.now)) parts.kids }
        ensures { result ≡ ends (tally self.now).calling parts }
    {
        parts.operator.op == Op::Asgn || self.holds_call(parts)
    }

    // Whether a call stands at or below a node or a root of these parts.
    fn holds_call(&self, parts: Parts) -> bool
        requires { AreBelow (length (keys_of self.now)) parts.kids }
        ensures { result ≡ holds_call (tally self.now).calling parts }
    {
        if parts.operator.op == Op::Call {
            return true;
        }
        match parts.kids {
            Kids::Zero => false,
            Kids::One(a) => self.calling[a as usize],
            Kids::Two(a, b) => self.calling[a as usize] || self.calling[b as usize],
        }
    }
}

// Makes room for one entry, which may be none of the first 2^32 - 1.
fn make_room(entries: &mut Arena<Entry>) -> Result<(), Memory>
    ensures values { entries.new.values ≡ entries.old.values }
    ensures room { OnOk result (length entries.new.values < 2 ^ 32 - 1) }
    ensures spare { OnOk result (0 < entries.new.spare) }
{
    if entries.len() == u32::MAX {
        return Err(Memory);
    }
    if entries.spare() > 0 {
        return Ok(());
    }
    entries.reserve(max(entries.len() as usize, LEAST_ROOM))
}

// The number of a key, which is the next one if the key is new; and whether it is.
fn numbered(keys: &mut IndexSet<Key>, key: Key) -> Result<(u32, bool), Memory>
    requires { length keys.old.keys < 2 ^ 32 - 1 }
    ensures there { IfOk result (λ r. slice_get keys.new.keys r.0 ≡ Some key) }
    ensures old { IfOk result (λ r. r.1 ≡ false → keys.new.keys ≡ keys.old.keys) }
    ensures new { IfOk result (λ r. r.1 ≡ true → keys.new.keys ≡ keys.old.keys ++ key ∷ []) }
    ensures fresh { IfOk result (λ r. r.1 ≡ true → IsFresh keys.old.keys key) }
    ensures below { IfOk result (λ r. r.0 < length keys.new.keys) }
    ensures err { OnErr result (keys.new.keys ≡ keys.old.keys) }
{
    let (place, is_new) = keys.insert_full(key)?;
    Ok((place as u32, is_new))
}
