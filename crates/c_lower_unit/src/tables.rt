//! Tables of switches as objects.
ghost use Rattle.std.specs.Prelude.{◌≡◌, ◌++◌, ◌*◌, map, IfOk, OnOk};
ghost use Rattle.lowered_units.specs.Tables.{table_object, table_objects};
ghost use Rattle.op_forest.specs.declared.lowered.Datum.TheVariants as datum;

use lcc_base::{Items, Memory};
use op_forest::{Datum, LoweredObject};
use std::alloc::Global;

/// The tables of the function of this number, each the labels to which it leads, are named from this name on, behind the other objects.
pub(crate) fn add_tables(
    alloc: Global,
    function: u32,
    first: u32,
    tables: &[Items<u32>],
    into: &mut Items<LoweredObject>,
) -> Result<(), Memory>
    ensures { OnOk result (into.new ≡ into.old ++ table_objects function first tables.now) }
{
    let mut name = first;
    for labels in tables {
        into.push(table(alloc, function, name, labels.as_slice())?)?;
        name = name.checked_add(1).ok_or(Memory)?;
    }
    Ok(())
}

// A table.
fn table(alloc: Global, function: u32, name: u32, labels: &[u32]) -> Result<LoweredObject, Memory>
    ensures { IfOk result (λ o. o ≡ table_object function name labels.now) }
{
    Ok(LoweredObject {
        name,
        size: size(labels.len())?,
        constant: true,
        items: items(alloc, function, labels)?,
    })
}

// How many bytes so many labels take. `Memory` comes where they are 2^32 or more.
fn size(count: usize) -> Result<u32, Memory>
    ensures { IfOk result (λ n. n ≡ 4 * count) }
{
    let count = u32::try_from(count).map_err(|_| Memory)?;
    count.checked_mul(4).ok_or(Memory)
}

// Labels as items.
fn items(alloc: Global, function: u32, labels: &[u32]) -> Result<Items<Datum>, Memory>
    ensures { IfOk result (λ items. items ≡ map (λ l. datum.Label function l) labels.now) }
{
    let mut items = Items::with_capacity(alloc, labels.len())?;
    for label in labels {
        items.push(Datum::Label {
            function,
            label: *label,
        })?;
    }
    Ok(items)
}
