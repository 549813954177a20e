//! How the nodes of a block stand in its trees.
ghost use Rattle.std.specs.Prelude.{◌≡◌, ◌<◌, ◌≤◌, ◌+◌, length, IfOk};
ghost use Rattle.op_forest.specs.NodeParts.{under};
ghost use Rattle.dag_forest.specs.Schedules.{head_of};
ghost use Rattle.dag_forest.specs.Entries.{AreBelow};
ghost use Rattle.dag_forest.specs.Emission.{tree_at};
ghost use Rattle.dag_forest.specs.Standings.{standing_tree, standing_trees, AreStood};

use crate::kids::Kids;
use crate::kind::Kind;
use crate::parts::Parts;
use crate::slot_trees::{one_kid, slot_read, two_kids};
use lcc_base::{Items, Memory};
use op_forest::Tree;
use std::alloc::Global;

/// How a node stands in trees.
#[derive(Clone, Copy, Debug, PartialEq, Eq)]
pub enum Standing {
    /// By the tree of these parts.
    Whole(Parts),
    /// By a read of the slot at this offset.
    Kept(Kind, i32),
}

/// The tree of a node.
pub(crate) fn tree_of(alloc: Global, standing: &[Standing], node: u32) -> Result<Tree, Memory>
    requires below { node < length standing.now }
    requires stood { AreStood standing.now }
    ensures { IfOk result (λ t. t ≡ standing_tree standing.now (node + 1) node) }
{
    match standing[node as usize] {
        Standing::Kept(kind, offset) => slot_read(alloc, kind, offset),
        Standing::Whole(parts) => match parts.kids {
            Kids::Zero => Ok(over(parts, Items::new(alloc))),
            Kids::One(a) => {
                let a = tree_of(alloc, standing, a)?;
                let kids = one_kid(alloc, a)?;
                Ok(over(parts, kids))
            }
            Kids::Two(a, b) => {
                let a = tree_of(alloc, standing, a)?;
                let b = tree_of(alloc, standing, b)?;
                let kids = two_kids(alloc, a, b)?;
                Ok(over(parts, kids))
            }
        },
    }
}

/// The tree of a node or a root of these parts.
pub(crate) fn tree_at(alloc: Global, standing: &[Standing], parts: Parts) -> Result<Tree, Memory>
    requires below { AreBelow (length standing.now) parts.kids }
    requires stood { AreStood standing.now }
    ensures { IfOk result (λ t. t ≡ tree_at (standing_trees standing.now) parts) }
{
    match parts.kids {
        Kids::Zero => Ok(over(parts, Items::new(alloc))),
        Kids::One(a) => {
            let a = tree_of(alloc, standing, a)?;
            let kids = one_kid(alloc, a)?;
            Ok(over(parts, kids))
        }
        Kids::Two(a, b) => {
            let a = tree_of(alloc, standing, a)?;
            let b = tree_of(alloc, standing, b)?;
            let kids = two_kids(alloc, a, b)?;
            Ok(over(parts, kids))
        }
    }
}

// The tree of parts over these operands' trees.
fn over(parts: Parts, kids: Items<Tree>) -> Tree
    requires { length kids ≤ 2 }
    ensures { result ≡ under (head_of parts) kids }
{
    Tree::new(parts.operator, parts.sym, parts.constant, kids)
}
