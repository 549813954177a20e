//! Forests: the trees of a function's body in order, over its frame.
ghost use Rattle.std.specs.Prelude.{◌≡◌, IfOk};

use crate::frame::Frame;
use crate::tree::Tree;
use lcc_base::{Items, Memory};
use std::alloc::Global;

/// What a function does: its trees, in order, and its frame.
#[derive(Debug, Drop)]
pub struct Forest {
    pub roots: Items<Tree>,
    pub frame: Frame,
}

impl Forest {
    /// A copy of the forest.
    pub fn copied(alloc: Global, forest: &Forest) -> Result<Self, Memory>
        ensures { IfOk result (λ copy. copy ≡ forest.now) }
    {
        let mut roots = Items::with_capacity(alloc, forest.roots.len())?;
        for root in forest.roots.as_slice() {
            roots.push(Tree::copied(alloc, root)?)?;
        }
        let frame = Frame::copied(alloc, &forest.frame)?;
        Ok(Forest { roots, frame })
    }
}
