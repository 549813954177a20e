//! Whether no two functions and objects have one name.
ghost use Rattle.std.specs.Prelude.{◌≡◌, ◌≤◌, ◌++◌, suc, map, IfOk, OnOk};
ghost use Rattle.lburg_model.specs.Description.{AreDistinct};
ghost use Rattle.whole_lowered.specs.Rising.{Rises};

use lcc_base::Memory;
use op_forest::{LoweredFunction, LoweredObject};

/// The names of functions and objects rise, the functions' first. `Memory` comes where they don't.
pub(crate) fn check_owners(
    functions: &[LoweredFunction],
    objects: &[LoweredObject],
) -> Result<(), Memory>
    ensures { OnOk result (AreDistinct (map (λ f. f.name) functions.now ++ map (λ o. o.name) objects.now)) }
{
    let first = functions_rise(functions)?;
    objects_rise(objects, first)?;
    Ok(())
}

// The names of functions rise up to the one below this number.
fn functions_rise(functions: &[LoweredFunction]) -> Result<u64, Memory>
    ensures { IfOk result (λ n. Rises 0 (map (λ f. f.name) functions.now) n) }
{
    let mut next = 0;
    for function in functions {
        next = behind(next, function.name)?;
    }
    Ok(next)
}

// Those of objects, from a number on.
fn objects_rise(objects: &[LoweredObject], first: u64) -> Result<u64, Memory>
    ensures { IfOk result (λ n. Rises first (map (λ o. o.name) objects.now) n) }
{
    let mut next = first;
    for object in objects {
        next = behind(next, object.name)?;
    }
    Ok(next)
}

// The number behind a name that isn't below one.
fn behind(least: u64, name: u32) -> Result<u64, Memory>
    ensures above { OnOk result (least ≤ name) }
    ensures next { IfOk result (λ n. n ≡ suc name) }
{
    let name = u64::from(name);
    if name < least {
        return Err(Memory);
    }
    Ok(name + 1)
}
