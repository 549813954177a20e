//! The interface by which a reader hands over trees one by one, and lists that gather them.
ghost use Rattle.std.specs.Prelude.{◌≡◌, ◌≤◌, ◌+◌, ◌++◌, ◌∷◌, [], ℕ, OnOk};
ghost use Rattle.lburg_model.specs.Tree.{MTree, nodes};

use lburg_model::TextTree;
use lcc_base::{Items, Memory};

/// Takes the trees of a tail, one at a time.
pub trait TreeTaker {
    /// Whether the tree of this number may come.
    ghost ready: { Self → ℕ → Type 0 };

    /// What a call leaves, given the state before it, the tree's number and the tree.
    ghost takes: { Self → ℕ → MTree → Self → Type 0 };

    /// Takes the tree of this number, from 1, which has so many nodes.
    fn take_tree(&mut self, number: u32, tree: TextTree, count: usize) -> Result<(), Memory>
        requires ready { ready self.old number }
        requires within { number ≤ 16777216 }
        requires count { count ≡ nodes tree }
        requires small { count ≤ 65535 }
        ensures taken { OnOk result (takes self.old number tree self.new) }
        ensures ready { OnOk result (ready self.new (number + 1)) };
}

/// Trees in order take one more at the end.
impl TreeTaker for Items<TextTree> {
    ghost ready = { λ trees number. Unit {0} };

    ghost takes = { λ old number tree new. new ≡ old ++ tree ∷ [] };

    fn take_tree(&mut self, _number: u32, tree: TextTree, _count: usize) -> Result<(), Memory> {
        self.push(tree)
    }
}
