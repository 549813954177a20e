//! Well-formed forests, as a type of their own.
ghost use Rattle.std.specs.Prelude.{◌≡◌};
ghost use Rattle.forests.specs.WellFormed.{IsWellFormed};

use op_forest::Forest;
use std::marker::Model;

/// A well-formed forest, which contracts see as that forest.
#[derive(Debug, Drop)]
pub struct WellFormed {
    forest: Forest,
}

impl Model for WellFormed {
    ghost use Rattle.op_forest.specs.declared.forest.Forest.{Forest};
    ghost use Rattle.op_forest.specs.contracts.forest.Forest as kept;
    ghost use Rattle.forests.specs.WellFormed.{IsWellFormed};

    ghost Value = { Forest };

    ghost coded = { kept.the_row.coded };

    ghost view = { λ w. w.forest };

    ghost invariant = { λ w. IsWellFormed w.forest };
}

impl WellFormed {
    /// A forest of which this is known.
    pub(crate) fn of_forest(forest: Forest) -> Self
        requires { IsWellFormed forest }
        ensures { result ≡ forest }
    {
        WellFormed { forest }
    }

    /// The forest.
    pub fn forest(&self) -> &Forest
        ensures value { result.now ≡ self.now }
        ensures is { IsWellFormed self.now }
    {
        &self.forest
    }

    /// The forest as its own.
    pub fn into_forest(self) -> Forest
        ensures value { result ≡ self }
        ensures is { IsWellFormed self }
    {
        let WellFormed { forest } = self;
        forest
    }
}
