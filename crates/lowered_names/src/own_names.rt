//! The names of a unit's own functions and objects.
ghost use Rattle.std.specs.Prelude.{IfOk, OnOk, map};
ghost use Rattle.lowered_names.specs.UnitNames.{AreAdded, IsNameOf};

use c_meaning::{CoreFunction, CoreObject};
use lcc_base::{Bytes, Items, Memory};
use lcc_text::{Class, run_len, starts_in};
use std::alloc::Global;

/// The names of these functions are added.
pub(crate) fn add_functions(
    alloc: Global,
    functions: &[CoreFunction],
    all: &mut Items<Bytes>,
) -> Result<(), Memory>
    ensures { OnOk result (AreAdded (map (λ f. f.name) functions.now) all.old all.new) }
{
    for function in functions {
        all.push(own_name(alloc, function.name.as_slice())?)?;
    }
    Ok(())
}

/// And those of these objects.
pub(crate) fn add_objects(
    alloc: Global,
    objects: &[CoreObject],
    all: &mut Items<Bytes>,
) -> Result<(), Memory>
    ensures { OnOk result (AreAdded (map (λ o. o.name) objects.now) all.old all.new) }
{
    for object in objects {
        all.push(own_name(alloc, object.name.as_slice())?)?;
    }
    Ok(())
}

// The lowered name of a function or object. `Memory` comes too where it is no identifier, nor one with a dot and digits behind it:
// no checked unit has such a name.
fn own_name(alloc: Global, name: &[u8]) -> Result<Bytes, Memory>
    ensures { IfOk result (λ lowered. IsNameOf name.now lowered) }
{
    let end = run_len(Class::Name, name);
    let (front, rest) = name.split_at(end);
    if front.is_empty() || starts_in(Class::Digit, front) {
        return Err(Memory);
    }
    let mut lowered = Bytes::copied(alloc, front)?;
    if let Some((dot, digits)) = rest.split_first() {
        if *dot != b'.' || run_len(Class::Digit, digits) != digits.len() {
            return Err(Memory);
        }
        lowered.extend(b".s")?;
        lowered.extend(digits)?;
    }
    Ok(lowered)
}
