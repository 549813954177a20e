//! A lowered unit of its parts.
ghost use Rattle.std.specs.Prelude.{◌≡◌, All, IfOk};
ghost use Rattle.lburg_model.specs.Description.{AreDistinct};
ghost use Rattle.op_forest.specs.Lowered.{IsUnitName};

use crate::objects::check_objects;
use crate::owners::check_owners;
use crate::symbols::known_functions;
use lcc_base::{Bytes, Items, Memory, Order};
use op_forest::{Lowered, LoweredFunction, LoweredObject};
use std::alloc::Global;

/// The lowered unit of these parts, in time linear in them. `Memory` comes where an allocation is refused. It comes too where a part
/// lacks what each lowered unit keeps: a function, an object, a tree or an item names a name or a label that isn't there, the names of
/// functions and objects don't rise, or an object's items don't have its size. The lowering of a checked unit makes no such part; it
/// is tested here, so that a caller need not prove it of all that it lowers.
pub fn whole(
    alloc: Global,
    functions: Items<LoweredFunction>,
    objects: Items<LoweredObject>,
    names: Items<Bytes>,
    order: Order,
) -> Result<Lowered, Memory>
    requires distinct { AreDistinct names }
    requires each { All IsUnitName names }
    ensures { IfOk result (λ l. l ≡ record { functions = functions; objects = objects; names = names; order = order }) }
{
    let count = names.len();
    check_owners(functions.as_slice(), objects.as_slice())?;
    let labels = known_functions(alloc, functions.as_slice(), count)?;
    check_objects(objects.as_slice(), labels.as_slice(), count)?;
    Ok(Lowered::new(functions, objects, names, order))
}
