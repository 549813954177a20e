//! The cases of a switch (C89 3.6.4.2).
ghost use Rattle.std.specs.Prelude.{◌≡◌, ◌++◌, ◌∷◌, [], false, IfOk, OnOk};
ghost use Rattle.c_meaning.specs.Units.{is_among, numbers};
ghost use Rattle.c_units.specs.Bodies.{with_number};
ghost use Rattle.c_stmt_parts.specs.CaseLists.{cases_in};

use c_meaning::CoreCase;
use indexmap::IndexMap;
use lcc_base::{Items, Memory};
use std::alloc::Global;
use std::marker::Model;

/// The cases of a switch so far, which contracts see as their list, in the order of the text. No two have
/// one number.
#[derive(Drop)]
pub struct Cases {
    /// The label of each number.
    labels: IndexMap<u32, u32>,
}

impl Model for Cases {
    ghost use Rattle.std.specs.Prelude.{List};
    ghost use Rattle.c_meaning.specs.declared.core_stmt.CoreCase.{CoreCase};
    ghost use Rattle.c_stmt_parts.specs.CaseLists.{cases_in};

    ghost Value = { List CoreCase };

    ghost view = { λ c. cases_in c.labels.entries };
}

impl Cases {
    /// No cases, without an allocation.
    pub fn new(alloc: Global) -> Self
        ensures { result ≡ [] }
    {
        Cases {
            labels: IndexMap::new(alloc),
        }
    }

    /// Whether one of them has the number.
    pub fn has(&self, number: u32) -> bool
        ensures { result ≡ is_among number (numbers self.now) }
    {
        self.labels.get(&number).is_some()
    }

    /// A case with this number and label, behind the others, unless one has the number. None is added
    /// without a number.
    pub fn note(&mut self, number: Option<u32>, label: u32) -> Result<(), Memory>
        ensures { OnOk result (self.new ≡ with_number label number self.old) }
    {
        match number {
            Some(number) => {
                if self.has(number) {
                    return Ok(());
                }
                self.push(number, label)
            }
            None => Ok(()),
        }
    }

    /// A further case, behind the others.
    fn push(&mut self, number: u32, label: u32) -> Result<(), Memory>
        requires { is_among number (numbers self.old) ≡ false }
        ensures { OnOk result (self.new ≡ self.old ++ record { number = number; label = label } ∷ []) }
    {
        self.labels.insert(number, label)?;
        Ok(())
    }

    /// The cases in order.
    pub fn into_list(self, alloc: Global) -> Result<Items<CoreCase>, Memory>
        ensures { IfOk result (λ list. list ≡ self) }
    {
        listed(alloc, &self.labels)
    }
}

/// The cases of numbers with their labels, in order.
fn listed(alloc: Global, labels: &IndexMap<u32, u32>) -> Result<Items<CoreCase>, Memory>
    ensures { IfOk result (λ list. list ≡ cases_in labels.now.entries) }
{
    let mut list = Items::with_capacity(alloc, labels.len())?;
    for (number, label) in labels.iter() {
        list.push(CoreCase {
            number: *number,
            label: *label,
        })?;
    }
    Ok(list)
}
