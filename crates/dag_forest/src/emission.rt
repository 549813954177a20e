//! The trees of what a block does.
ghost use Rattle.std.specs.Prelude.{◌≡◌, ◌<◌, length, IfOk, All};
ghost use Rattle.dag_forest.specs.Choice.{IsLow};
ghost use Rattle.dag_forest.specs.Standings.{AreStood, AreLow, stood};

use crate::act::Act;
use crate::slot_trees::slot_store;
use crate::standing::{Standing, tree_at};
use crate::uses::Step;
use lcc_base::{Items, Memory};
use op_forest::Tree;
use std::alloc::Global;

/// The trees of the steps, where the nodes stand so.
pub(crate) fn trees_of(
    alloc: Global,
    steps: &[Step],
    standing: &[Standing],
) -> Result<Items<Tree>, Memory>
    requires low { AreLow (length standing.now) steps.now }
    requires stood { AreStood standing.now }
    ensures { IfOk result (λ trees. trees ≡ stood standing.now steps.now) }
{
    let mut trees = Items::new(alloc);
    for step in steps {
        match step.act {
            Act::Made(node, parts) => {
                if let Standing::Kept(kind, offset) = standing[node as usize] {
                    let tree = tree_at(alloc, standing, parts)?;
                    trees.push(slot_store(alloc, kind, offset, tree)?)?;
                }
            }
            Act::Acts(parts) => trees.push(tree_at(alloc, standing, parts)?)?,
        }
    }
    Ok(trees)
}
