//! The program that is made once all lines are read.
ghost use Rattle.std.specs.Prelude.{◌≡◌, ◌⊎◌, ℕ, All, codes, map, IfOk, IfErr};
ghost use Rattle.asm_text.specs.Addresses.{IsKnown};
ghost use Rattle.asm_text.specs.FirstFault.{IsFirstUnknown};
ghost use Rattle.asm_text.specs.Linked.{code_place, linked_name};
ghost use Rattle.asm_text.specs.Made.{Made};
ghost use Rattle.asm_text.specs.Makes.{program_of};
ghost use Rattle.asm_text.specs.Program.{place_of};
ghost use Rattle.asm_text.specs.Uses.{used_names};

use crate::asm_fault::AsmFault;
use crate::assembly::Assembly;
use crate::labels::Labels;
use crate::place::Place;
use crate::program::Program;
use crate::uses::Uses;
use std::alloc::Global;

/// The addresses of names that are used, in order. `UnknownLabel` is told of the first that has none.
fn addresses<'a>(alloc: Global, labels: &Labels<'a>, uses: &Uses<'a>) -> Result<Vec<u32>, AsmFault>
    ensures found { IfOk result (λ found. found.items ≡ map (linked_name labels.now) (used_names uses.now)) }
    ensures known { IfOk result (λ _. All (λ u. IsKnown labels.now u.name) uses.now) }
    ensures fault { IfErr result (λ f. (f ≡ AsmFault.Memory) ⊎ ((line : ℕ) × (f ≡ AsmFault.UnknownLabel line) × ((m : Made) → m.labels ≡ labels.now → m.uses ≡ uses.now → IsFirstUnknown m line))) }
{
    let mut found = Vec::with_capacity(alloc, uses.len())?;
    for number in 0..uses.len() {
        let (name, line) = uses.at(number);
        let Some(address) = labels.address(name) else {
            return Err(AsmFault::UnknownLabel { line });
        };
        found.push(address)?;
    }
    Ok(found)
}

/// The place among the instructions of the label `main`, if it is one of theirs.
fn main_of<'a>(labels: &Labels<'a>) -> Option<u32>
    ensures { result ≡ code_place (place_of labels.now (codes "main")) }
{
    match labels.place(b"main") {
        Some(Place::Code(place)) => Some(place),
        _ => None,
    }
}

impl<'a> Assembly<'a> {
    /// The program: `UnknownLabel` where a name that is used is neither a label nor a built-in function.
    pub(crate) fn into_program(self, alloc: Global) -> Result<Program, AsmFault>
        ensures program { IfOk result (λ p. p ≡ program_of self.entry) }
        ensures known { IfOk result (λ p. All (λ u. IsKnown self.entry.labels u.name) self.entry.uses) }
        ensures fault { IfErr result (λ f. (f ≡ AsmFault.Memory) ⊎ ((line : ℕ) × (f ≡ AsmFault.UnknownLabel line) × IsFirstUnknown self.entry line)) }
    {
        let Assembly {
            section: _,
            code,
            numbers,
            datums,
            size: _,
            labels,
            uses,
        } = self;
        let addresses = addresses(alloc, &labels, &uses)?;
        let main = main_of(&labels);
        let used = uses.into_table(alloc)?;
        let (label_names, places) = labels.into_table(alloc)?;
        Ok(Program {
            used,
            addresses,
            code,
            numbers,
            data: datums,
            label_names,
            places,
            main,
        })
    }
}
