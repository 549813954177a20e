//! Whether what objects name is there, and their items have their sizes.
ghost use Rattle.std.specs.Prelude.{◌≡◌, IsTrue, All, sum_by, IfOk, OnOk};
ghost use Rattle.op_forest.specs.Lowered.{size_of};
ghost use Rattle.whole_lowered.specs.Labels.{KnowsDatum, KnowsObject};

use crate::labels::Labels;
use lcc_base::Memory;
use op_forest::{Datum, LoweredObject};

/// Each of the objects names what is there, and its items together have its size, where there are so many names, and labels in functions
/// have these places. `Memory` comes where one isn't so.
pub(crate) fn check_objects(
    objects: &[LoweredObject],
    labels: &[Labels],
    names: usize,
) -> Result<(), Memory>
    ensures { OnOk result (All (KnowsObject names labels.now) objects.now) }
{
    for object in objects {
        check_object(object, labels, names)?;
    }
    Ok(())
}

// One of them.
fn check_object(object: &LoweredObject, labels: &[Labels], names: usize) -> Result<(), Memory>
    ensures { OnOk result (KnowsObject names labels.now object.now) }
{
    let items = object.items.as_slice();
    if object.name as usize >= names || total(items)? != u64::from(object.size) {
        return Err(Memory);
    }
    for item in items {
        if !is_known(item, labels, names) {
            return Err(Memory);
        }
    }
    Ok(())
}

// How many bytes items take. `Memory` comes where they are 2^64 or more.
fn total(items: &[Datum]) -> Result<u64, Memory>
    ensures { IfOk result (λ n. n ≡ sum_by size_of items.now) }
{
    let mut sum: u64 = 0;
    for item in items {
        sum = sum.checked_add(size(item)).ok_or(Memory)?;
    }
    Ok(sum)
}

// How many bytes an item takes.
fn size(item: &Datum) -> u64
    ensures { result ≡ size_of item.now }
{
    match item {
        Datum::Bytes(bytes) => bytes.len() as u64,
        Datum::Name { .. } | Datum::Label { .. } => 4,
        Datum::Zero(count) => u64::from(*count),
    }
}

// Whether what an item names is there.
fn is_known(item: &Datum, labels: &[Labels], names: usize) -> bool
    ensures { IsTrue result → KnowsDatum names labels.now item.now }
{
    match item {
        Datum::Name { name, .. } => (*name as usize) < names,
        Datum::Label { function, label } => match labels.get(*function as usize) {
            Some(own) => own.has(*label),
            None => false,
        },
        Datum::Bytes(_) | Datum::Zero(_) => true,
    }
}
