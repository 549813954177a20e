//! The acts of a block: nodes that are made and roots that act.
ghost use Rattle.std.specs.Prelude.{◌≡◌};
ghost use Rattle.dag_forest.specs.Choice.{root_kids};
ghost use Rattle.dag_forest.specs.Schedules.{kids_of};

use crate::kids::Kids;
use crate::parts::Parts;

/// What a block does.
#[derive(Clone, Copy, Debug, PartialEq, Eq)]
pub enum Act {
    /// The node of this number is made.
    Made(u32, Parts),
    /// A root acts.
    Acts(Parts),
}

impl Act {
    /// The operands.
    pub(crate) fn kids(self) -> Kids
        ensures { result ≡ kids_of self }
    {
        match self {
            Act::Made(_, parts) | Act::Acts(parts) => parts.kids,
        }
    }

    /// The operands of a root.
    pub(crate) fn root_kids(self) -> Kids
        ensures { result ≡ root_kids self }
    {
        match self {
            Act::Made(..) => Kids::Zero,
            Act::Acts(parts) => parts.kids,
        }
    }
}
