//! The keys by which equal nodes of a block are found, and their hashes.
ghost use Rattle.std.specs.Prelude.{◌≡◌};
ghost use Rattle.dag_forest.specs.HashedKeys.{sym_place};
ghost use Rattle.dag_forest.specs.Keys.{key_at};

use crate::parts::Parts;
use op_forest::{Op, Sym};
use std::hash::{Hash, Hasher};

/// What makes a node equal to another: its parts, and a mark. The mark of a read is the number of
/// its stretch, and that of a call the call's own number, so that it equals no other.
#[derive(Clone, Copy, Debug, PartialEq, Eq)]
pub struct Key {
    pub parts: Parts,
    pub mark: u32,
}

impl Key {
    /// The key of a node that is asked for in a stretch of a block with so many nodes.
    pub(crate) fn new(parts: Parts, stretch: u32, count: u32) -> Self
        ensures { result ≡ key_at stretch count parts }
    {
        let mark = match parts.operator.op {
            Op::Indir => stretch,
            Op::Call => count,
            _ => 0,
        };
        Key { parts, mark }
    }
}

impl Hash for Key {
    ghost use Rattle.std.proofs.Common.{ap};
    ghost use Rattle.dag_forest.specs.HashedKeys.{key_input};
    ghost use Rattle.dag_forest.specs.SameKeys.{same_key};

    ghost hash_input = { key_input };

    ghost respects_eq = { λ a b h. ap key_input (same_key a b h) };

    fn hash<H: Hasher>(&self, state: &mut H) {
        let (place, offset) = sym_place(self.parts.sym);
        self.parts.operator.number().hash(state);
        self.parts.kids.hash(state);
        place.hash(state);
        offset.hash(state);
        self.parts.constant.hash(state);
        self.mark.hash(state);
    }
}

// The place that a symbol names, with an offset.
fn sym_place(sym: Sym) -> (u32, u32)
    ensures { result ≡ sym_place sym }
{
    match sym {
        Sym::Nothing => (0, 0),
        Sym::Global { name, offset } => (name, offset.unsigned_abs()),
        Sym::Label(label) => (label, 0),
        Sym::Block { size, align } => (size, align),
    }
}
