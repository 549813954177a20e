//! Open scopes, with the outer meanings that their names hide.
use crate::hidden::Hidden;
use crate::scope::Scope;
use std::alloc::Global;

/// A scope that is open: its names and what each of them hides, in the same order.
#[derive(Drop)]
pub(crate) struct Open {
    pub(crate) names: Scope,
    pub(crate) hidden: Vec<Hidden>,
}

impl Open {
    ghost use Rattle.std.specs.Prelude.{◌≡◌, []};

    /// A scope without names.
    pub(crate) fn new(alloc: Global) -> Self
        ensures names { result.names ≡ [] }
        ensures hidden { result.hidden.items ≡ [] }
    {
        Open {
            names: Scope::new(alloc),
            hidden: Vec::new(alloc),
        }
    }
}
