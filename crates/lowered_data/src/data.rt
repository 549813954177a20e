//! What a unit's objects and texts hold at the start.
ghost use Rattle.std.specs.Prelude.{IfOk};
ghost use Rattle.c_meaning.specs.Units.{unit_seen};
ghost use Rattle.lowered_data.specs.Initial.{IsInitialData};

use crate::homes::homes;
use crate::laws::{start_is_sound, start_stands_alone};
use crate::still::objects_are_still;
use c_filling::start;
use c_meaning::Core;
use c_worlds::Program;
use lcc_base::{Items, Memory, Order};
use op_forest::LoweredObject;
use std::alloc::Global;

/// The lowered objects that hold what the unit's objects and then its texts hold as the program starts, in linear time.
/// `Memory` comes too where that is undefined, or is no number and no address of a function or of one of these: no checked unit
/// has such initialisers.
pub fn initial_data(
    alloc: Global,
    core: &Core,
    order: Order,
) -> Result<Items<LoweredObject>, Memory>
    ensures { IfOk result (λ os. IsInitialData (unit_seen core.now) order os) }
{
    start_stands_alone();
    start_is_sound();
    if !objects_are_still(core.objects()) {
        return Err(Memory);
    }
    let program = Program::new(core, order);
    let mut world = match start(alloc, &program, &[]) {
        Ok(world) => world,
        Err(_) => return Err(Memory),
    };
    let homes = homes(alloc, &program, &mut world.storage)?;
    if homes.len() != world.storage.count() {
        return Err(Memory);
    }
    Ok(homes)
}
