//! Derivations of trees, and the numbers of their rules in preorder.
ghost use Rattle.std.specs.Prelude.{◌≡◌, ◌++◌, IfOk, OnOk};
ghost use Rattle.lburg_model.specs.Derivation.{numbers};
ghost use Rattle.lburg_model.specs.DerivationOf.{derivation_of};

use lcc_base::{Items, Memory};
use std::alloc::Global;

/// A derivation: a rule, and the derivations of its pattern's nonterminals from left to right.
#[derive(Debug, Drop)]
pub struct Derivation {
    /// The rule's number, from 1.
    pub rule: u16,
    pub parts: Items<Derivation>,
}

impl Derivation {
    /// The rules' numbers in preorder.
    pub fn numbers(&self, alloc: Global) -> Result<Items<u16>, Memory>
        ensures { IfOk result (λ ns. ns ≡ numbers (derivation_of self.now)) }
    {
        let mut all = Items::new(alloc);
        add_numbers(self, &mut all)?;
        Ok(all)
    }
}

/// Adds the rules' numbers in preorder.
fn add_numbers(d: &Derivation, into: &mut Items<u16>) -> Result<(), Memory>
    ensures { OnOk result (into.new ≡ into.old ++ numbers (derivation_of d.now)) }
{
    into.push(d.rule)?;
    for part in d.parts.as_slice() {
        add_numbers(part, into)?;
    }
    Ok(())
}
