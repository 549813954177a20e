//! How often the nodes of a block are used, and where.
ghost use Rattle.std.specs.Prelude.{◌≡◌, ◌<◌, length, All, IfOk};
ghost use Rattle.dag_forest.specs.Schedules.{used};
ghost use Rattle.dag_forest.specs.Entries.{AreBelow};
ghost use Rattle.dag_forest.specs.Choice.{ends_stretch, is_last, IsLow};
ghost use Rattle.dag_forest.specs.Walks.{noted, noted_kids, step_of, steps_of, unused};

use crate::act::Act;
use crate::kids::Kids;
use lcc_base::Memory;
use op_forest::Op;
use std::alloc::Global;

/// How often a node is used.
#[derive(Clone, Copy, Debug, PartialEq, Eq)]
pub enum Times {
    Never,
    Once,
    More,
}

/// How often a node is used in the acts behind, and how many stretches end behind its last use.
#[derive(Clone, Copy, Debug, PartialEq, Eq)]
pub struct Use {
    pub times: Times,
    pub ends: usize,
}

/// What a block does; and of a node that is made how often it is used, whether behind its stretch, and whether
/// by the root right behind it alone, as its last operand.
#[derive(Clone, Copy, Debug, PartialEq, Eq)]
pub struct Step {
    pub act: Act,
    pub times: Times,
    pub late: bool,
    pub handed: bool,
}

/// The steps of these acts, over so many nodes, without the nodes that nothing uses.
pub(crate) fn used_steps(
    alloc: Global,
    mut acts: Vec<Act>,
    nodes: usize,
) -> Result<Vec<Step>, Memory>
    requires { All (IsLow nodes) acts.items }
    ensures { IfOk result (λ steps. steps.items ≡ steps_of (used acts.items)) }
{
    let mut uses = vec![in alloc; Use {
        times: Times::Never,
        ends: 0
    }; nodes]?;
    let mut steps = Vec::new(alloc);
    let mut ends = 0;
    let mut next = Kids::Zero;
    acts.reverse();
    let backwards = acts.as_slice();
    for act in backwards {
        let step = step_of(*act, &uses, ends, next);
        if is_unused(step) {
            continue;
        }
        if ends_stretch(*act) {
            ends += 1;
        }
        note_kids(&mut uses, act.kids(), ends);
        next = act.root_kids();
        steps.push(step)?;
    }
    steps.reverse();
    Ok(steps)
}

// The step of an act, behind which so many stretches end, and a root of these operands stands.
fn step_of(act: Act, uses: &[Use], ends: usize, next: Kids) -> Step
    requires { IsLow (length uses.now) act }
    ensures { result ≡ step_of uses.now ends next act }
{
    match act {
        Act::Made(number, _) => {
            let node = uses[number as usize];
            Step {
                act,
                times: node.times,
                late: node.ends < ends,
                handed: is_last(number, next) && node.times == Times::Once,
            }
        }
        Act::Acts(_) => Step {
            act,
            times: Times::Once,
            late: false,
            handed: false,
        },
    }
}

// Whether a node is the last of the operands.
fn is_last(node: u32, kids: Kids) -> bool
    ensures { result ≡ is_last node kids }
{
    match kids {
        Kids::Zero => false,
        Kids::One(a) | Kids::Two(_, a) => node == a,
    }
}

// Whether it makes a node that nothing uses.
fn is_unused(step: Step) -> bool
    ensures { result ≡ unused step }
{
    step.times == Times::Never
}

// Whether a stretch ends at it.
fn ends_stretch(act: Act) -> bool
    ensures { result ≡ ends_stretch act }
{
    match act {
        Act::Made(_, parts) => parts.operator.op == Op::Call,
        Act::Acts(parts) => parts.operator.op == Op::Asgn || parts.operator.op == Op::Call,
    }
}

// Notes a use of each operand, behind which so many stretches end.
fn note_kids(uses: &mut [Use], kids: Kids, ends: usize)
    requires { AreBelow (length uses.old) kids }
    ensures { uses.new ≡ noted_kids ends kids uses.old }
{
    match kids {
        Kids::Zero => {}
        Kids::One(a) => note(uses, a, ends),
        Kids::Two(a, b) => {
            note(uses, a, ends);
            note(uses, b, ends);
        }
    }
}

// Notes a use of a node.
fn note(uses: &mut [Use], node: u32, ends: usize)
    requires { node < length uses.old }
    ensures { uses.new ≡ noted ends node uses.old }
{
    let before = uses[node as usize];
    uses[node as usize] = match before.times {
        Times::Never => Use {
            times: Times::Once,
            ends,
        },
        _ => Use {
            times: Times::More,
            ends: before.ends,
        },
    };
}
