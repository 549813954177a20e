//! The lowering of a checked unit.
ghost use Rattle.std.specs.Prelude.{IfErr, IfOk, OnOk};
ghost use Rattle.c_meaning.specs.Units.{unit_seen};
ghost use Rattle.lowered_units.specs.LoweredUnits.{IsLoweredUnit};
ghost use Rattle.lowering_limits.specs.Limits.{IsWithin, Passes};

use crate::functions::{Lowering, lower_functions};
use c_meaning::Core;
use c_worlds::Program;
use lcc_base::{Memory, Order};
use lowered_data::initial_data;
use lowered_names::unit_names;
use lowering_limits::{LowerFault, check_limits};
use op_forest::Lowered;
use std::alloc::Global;
use whole_lowered::whole;

/// The lowered unit of a checked one: its functions in order, each named by its number; the objects that hold what its objects and texts
/// hold as the program starts, and behind them the tables of its switches; and the names of all.
///
/// Faults, in this order: `FrameLimit` for the first function whose frame takes more than 1,048,576 bytes; `DataLimit` where the unit's
/// objects and texts take more than 16,777,216; `NodeLimit` for the first function with more than 1,048,576 statements, expressions and
/// parameters. `Memory` comes where an allocation is refused.
pub fn lower_unit(alloc: Global, core: &Core, order: Order) -> Result<Lowered, LowerFault>
    ensures lowered { IfOk result (λ l. IsLoweredUnit (unit_seen core.now) order l) }
    ensures within { OnOk result (IsWithin (unit_seen core.now)) }
    ensures fault { IfErr result (Passes (unit_seen core.now)) }
{
    check_limits(core)?;
    Ok(lower(alloc, core, order)?)
}

// That of one within the limits.
fn lower(alloc: Global, core: &Core, order: Order) -> Result<Lowered, Memory>
    ensures { IfOk result (λ l. IsLoweredUnit (unit_seen core.now) order l) }
{
    let program = Program::new(core, order);
    let objects = initial_data(alloc, core, order)?;
    let Lowering {
        functions,
        objects,
        tables,
    } = lower_functions(alloc, &program, objects)?;
    let names = unit_names(alloc, &program, tables)?;
    whole(alloc, functions, objects, names, order)
}
