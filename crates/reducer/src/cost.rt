//! The cost of a labelled tree's best derivation, and the number of its rules.
ghost use Rattle.std.specs.Prelude.{◌≡◌, ◌+◌, IfSome, IfNone};
ghost use Rattle.lburg_model.specs.Tree.{MTree};
ghost use Rattle.lburg_model.specs.Derivation.{MDerivation, cost, count};
ghost use Rattle.lburg_model.specs.Best.{IsBest, HasNone};
ghost use Rattle.tree_labeller.specs.IsLabelled.{IsLabelled};

use lburg_tables::Tables;
use lcc_base::Steps;
use std::sync::ledger::Ledger;
use tree_labeller::{Cells, labels_in};

/// The cost of a derivation, and of how many rules it is.
#[derive(Clone, Copy, Debug, PartialEq, Eq, Drop)]
pub struct Cost {
    /// The costs of its rules, added up.
    pub sum: u64,
    /// How many rules it applies.
    pub count: u64,
}

/// The cost and count of the best derivation of the tree that was labelled with these tables from
/// their start symbol, none exactly where it has no derivation. It takes one step.
#[tactic(auto, using(crate::proofs::Kept::start_none))]
pub fn best<L: Ledger>(t: &Tables, cells: &Cells, steps: &mut Steps<L>) -> Option<Cost>
    ensures some { (tree : MTree) → IsLabelled t.now cells.now tree → IfSome result (λ c. (x : MDerivation) × IsBest t.now tree x × (c.sum ≡ cost t.now.rules x) × (c.count ≡ count x)) }
    ensures none { (tree : MTree) → IsLabelled t.now cells.now tree → IfNone result (HasNone t.now tree) }
    ensures steps { steps.new ≡ steps.old + 1 }
{
    steps.tick();
    let start = t.description().start() as usize;
    match labels_in(t, cells).cell(0, start) {
        Some(c) => Some(Cost {
            sum: c.cost,
            count: u64::from(c.count),
        }),
        None => None,
    }
}
