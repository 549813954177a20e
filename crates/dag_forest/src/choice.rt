//! Which nodes of a block are kept in slots of the frame.
ghost use Rattle.std.specs.Prelude.{◌≡◌, ◌<◌, length, IfOk, OnOk};
ghost use Rattle.dag_forest.specs.Choice.{is_computed, is_leaf, is_needed, reads_by, wants};
ghost use Rattle.dag_forest.specs.Entries.{AreBelow};
ghost use Rattle.dag_forest.specs.Standings.{AreLow, placed, placed_node, placed_of, reads_in, unplaced, wanted_in};

use crate::act::Act;
use crate::frames::offset_below;
use crate::kids::Kids;
use crate::kind::Kind;
use crate::parts::Parts;
use crate::standing::Standing;
use crate::uses::{Step, Times};
use lcc_base::Memory;
use op_forest::{Op, Operator, Suffix, Sym};
use std::alloc::Global;

/// How the nodes stand, and how many of them have a slot.
#[derive(Debug, Drop)]
pub(crate) struct Choice {
    pub standing: Vec<Standing>,
    // Whether a read or a call that has no slot stands at or below each node.
    reads: Vec<bool>,
    pub slots: u32,
}

/// What a node stands by before it is made.
const NOTHING: Standing = Standing::Whole(Parts {
    operator: Operator {
        op: Op::Cnst,
        suffix: Suffix::I,
    },
    kids: Kids::Zero,
    sym: Sym::Nothing,
    constant: None,
});

/// The choice for these steps, over so many nodes: the new slots begin below a lowest one. `Memory`
/// comes where an allocation is refused, or where a slot would begin below -2^31.
pub(crate) fn choose(
    alloc: Global,
    steps: &[Step],
    nodes: usize,
    lowest: i32,
) -> Result<Choice, Memory>
    requires { AreLow nodes steps.now }
    ensures standing { IfOk result (λ c. c.standing.items ≡ (placed lowest (unplaced nodes) steps.now).standing) }
    ensures slots { IfOk result (λ c. c.slots ≡ (placed lowest (unplaced nodes) steps.now).slots) }
{
    let mut choice = Choice {
        standing: vec![in alloc; NOTHING; nodes]?,
        reads: vec![in alloc; false; nodes]?,
        slots: 0,
    };
    for step in steps {
        if let Act::Made(node, parts) = step.act {
            choice.place(node, parts, *step, lowest)?;
        }
    }
    Ok(choice)
}

impl Choice {
    // Places a node.
    fn place(&mut self, node: u32, parts: Parts, step: Step, lowest: i32) -> Result<(), Memory>
        requires node { node < length self.old.standing.items }
        requires kids { AreBelow (length self.old.reads.items) parts.kids }
        requires reads { length self.old.reads.items ≡ length self.old.standing.items }
        ensures { OnOk result (placed_of self.new.standing.items self.new.reads.items self.new.slots ≡ placed_node lowest (placed_of self.old.standing.items self.old.reads.items self.old.slots) node parts (wanted_in (placed_of self.old.standing.items self.old.reads.items self.old.slots) parts step.times step.late step.handed)) }
    {
        let reads = self.reads(parts);
        let wanted = wants(parts, step, reads);
        self.standing[node as usize] = if wanted {
            let offset = offset_below(lowest, self.slots)?;
            self.slots += 1;
            Standing::Kept(Kind::of(parts.operator.suffix), offset)
        } else {
            Standing::Whole(parts)
        };
        self.reads[node as usize] = !wanted && reads;
        Ok(())
    }

    // Whether a read or a call that has no slot stands at or below a node of these parts.
    fn reads(&self, parts: Parts) -> bool
        requires { AreBelow (length self.now.reads.items) parts.kids }
        ensures { result ≡ reads_by (reads_in self.now.reads.items) parts }
    {
        if matches!(parts.operator.op, Op::Indir | Op::Call) {
            return true;
        }
        match parts.kids {
            Kids::Zero => false,
            Kids::One(a) => self.reads[a as usize],
            Kids::Two(a, b) => self.reads[a as usize] || self.reads[b as usize],
        }
    }
}

// Whether a node of these parts is kept, which is made in this step; and at or below which maybe a read or a
// call stands that isn't kept.
fn wants(parts: Parts, step: Step, reads: bool) -> bool
    ensures { result ≡ wants parts step.times step.late step.handed reads }
{
    if !is_computed(parts) {
        return false;
    }
    if parts.operator.op == Op::Call {
        return !step.handed;
    }
    is_needed(step.times, step.late && reads)
}

// Whether a node of these parts is no address and no constant.
fn is_computed(parts: Parts) -> bool
    ensures { result ≡ is_computed parts }
{
    parts.kids != Kids::Zero || !is_leaf(parts.operator.op)
}

// Whether it is an address or a constant.
fn is_leaf(op: Op) -> bool
    ensures { result ≡ is_leaf op }
{
    matches!(op, Op::Cnst | Op::Addrg | Op::Addrf | Op::Addrl)
}

// Whether a node that is used so often is kept, where what it reads may have changed or not.
fn is_needed(times: Times, stale: bool) -> bool
    ensures { result ≡ is_needed times stale }
{
    match times {
        Times::Never => false,
        Times::Once => stale,
        Times::More => true,
    }
}
