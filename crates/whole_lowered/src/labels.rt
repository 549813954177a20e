//! Where labels stand among roots.
ghost use Rattle.std.specs.Prelude.{◌≡◌, ℕ, IsSome, IsTrue, nat_eq, IfOk, OnOk};
ghost use Rattle.indexmap.specs.IndexMap.{get};
ghost use Rattle.op_forest.specs.Labels.{label_of as label_in};
ghost use Rattle.whole_lowered.specs.Labels.{HasLabels, noted};

use indexmap::IndexMap;
use lcc_base::Memory;
use op_forest::{Op, Sym, Tree};
use std::alloc::Global;

/// Labels, with the place of a root that each is.
#[derive(Drop)]
pub(crate) struct Labels {
    pub(crate) places: IndexMap<u32, usize>,
}

impl Labels {
    // A further label, if there is one, with the place of a root.
    fn note(&mut self, label: Option<u32>, root: usize) -> Result<(), Memory>
        ensures { OnOk result ((l : ℕ) → get nat_eq self.new.places l ≡ noted label root (get nat_eq self.old.places l) l) }
    {
        match label {
            Some(label) => {
                self.places.insert(label, root)?;
                Ok(())
            }
            None => Ok(()),
        }
    }

    /// Whether a label is one of them.
    pub(crate) fn has(&self, label: u32) -> bool
        ensures { IsTrue result → IsSome (get nat_eq self.now.places label) }
    {
        self.places.get(&label).is_some()
    }
}

/// Those among roots.
pub(crate) fn labels_in(alloc: Global, roots: &[Tree]) -> Result<Labels, Memory>
    ensures { IfOk result (λ labels. HasLabels roots.now (get nat_eq labels.places)) }
{
    let mut labels = Labels {
        places: IndexMap::new(alloc),
    };
    for root in (0..roots.len()).rev() {
        let label = label_of(&roots[root]);
        labels.note(label, root)?;
    }
    Ok(labels)
}

// The label that a root is, if it is one.
fn label_of(tree: &Tree) -> Option<u32>
    ensures { result ≡ label_in tree.now }
{
    match (tree.operator.op, tree.sym) {
        (Op::Label, Sym::Label(label)) => Some(label),
        _ => None,
    }
}
