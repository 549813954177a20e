//! The cases of a switch, and their tables.
ghost use Rattle.std.specs.Prelude.{◌≡◌, true, false, ℕ, is_some, nat_eq, IfOk, OnOk};
ghost use Rattle.c_meaning.specs.Units.{are_apart, numbers};
ghost use Rattle.lowered_statements.specs.Functions.{placed_cases};
ghost use Rattle.statement_steps.specs.Functions.{function_of};
ghost use Rattle.switch_tables.specs.Tables.{tables_of};

use crate::site::FunctionSite;
use c_meaning::CoreCase;
use indexmap::IndexMap;
use lcc_base::{Items, Memory};
use std::alloc::Global;
use switch_tables::{Table, tables};

/// The tables of a switch with these cases, signed or unsigned as its value is, and with this label for any other number. `Memory` comes
/// where an allocation is refused, where two cases have one number, which they have in no checked unit, and where a label has a number of
/// 2^32 or more.
pub(crate) fn tables_in(
    alloc: Global,
    f: &FunctionSite,
    signed: bool,
    cases: &[CoreCase],
    default: u32,
) -> Result<Items<Table>, Memory>
    ensures { IfOk result (λ ts. ts ≡ tables_of signed default (placed_cases (function_of f.now) cases.now)) }
{
    let placed = placed(alloc, f, cases)?;
    keep_apart(alloc, placed.as_slice())?;
    tables(alloc, signed, placed.as_slice(), default)
}

// The cases with the numbers of their labels.
fn placed(alloc: Global, f: &FunctionSite, cases: &[CoreCase]) -> Result<Vec<CoreCase>, Memory>
    ensures { IfOk result (λ placed. placed.items ≡ placed_cases (function_of f.now) cases.now) }
{
    let mut placed = Vec::with_capacity(alloc, cases.len())?;
    for case in cases {
        let label = f.labels.number(case.label)?;
        placed.push(CoreCase {
            number: case.number,
            label,
        })?;
    }
    Ok(placed)
}

// `Memory` comes where two cases have one number.
fn keep_apart(alloc: Global, cases: &[CoreCase]) -> Result<(), Memory>
    ensures { OnOk result (are_apart (numbers cases.now) ≡ true) }
{
    let mut places = IndexMap::new(alloc);
    for place in (0..cases.len()).rev() {
        let number = cases[place].number;
        if places.get(&number).is_some() {
            return Err(Memory);
        }
        places.insert(number, place)?;
    }
    Ok(())
}
