//! What the checking of a description carries from line to line.
ghost use Rattle.std.specs.Prelude.{◌≡◌, List, ℕ, []};
ghost use Rattle.lburg_faults.specs.Knowing.{Knows};

use indexmap::IndexSet;
use std::alloc::Global;

/// What the lines so far declare, mention and use.
#[derive(Drop)]
pub(crate) struct Known<'a> {
    /// The names of the terminals, in the order of their declarations.
    pub(crate) terminals: IndexSet<&'a [u8]>,
    /// Their numbers.
    pub(crate) numbers: IndexSet<u32>,
    /// How many operands each has, none where no rule used it yet.
    pub(crate) arities: Vec<Option<u8>>,
    /// The names that are taken for nonterminals.
    pub(crate) nonterminals: IndexSet<&'a [u8]>,
    /// The name of the start symbol, and its line.
    pub(crate) start: Option<StartSymbol<'a>>,
    /// How many rules there are.
    pub(crate) rules: usize,
}

/// The start symbol that is declared.
#[derive(Clone, Copy, Debug)]
pub(crate) struct StartSymbol<'a> {
    pub(crate) name: &'a [u8],
    pub(crate) line: u32,
}

impl<'a> Known<'a> {
    /// Nothing is known before the first line.
    pub(crate) fn new(alloc: Global) -> Self
        ensures { (terminals : List (List ℕ)) → Knows terminals [] result }
    {
        Known {
            terminals: IndexSet::new(alloc),
            numbers: IndexSet::new(alloc),
            arities: Vec::new(alloc),
            nonterminals: IndexSet::new(alloc),
            start: None,
            rules: 0,
        }
    }
}
