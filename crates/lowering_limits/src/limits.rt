//! The first limit that a unit passes.
ghost use Rattle.std.specs.Prelude.{◌≡◌, ◌≤◌, IfErr, IfOk, OnOk};
ghost use Rattle.c_types.specs.Table.{Table};
ghost use Rattle.c_meaning.specs.Units.{unit_seen};
ghost use Rattle.c_runs.specs.Counts.{data_count};
ghost use Rattle.lowering_limits.specs.Limits.{AreAtMost, IsWithin, Passes, PassesData, PassesFrame, PassesNodes, most, most_data};
ghost use Rattle.lowering_limits.specs.Sizes.{frame_counts_in, node_counts_in};

use crate::bytes::{frame_bytes, of_objects, of_texts};
use crate::lower_fault::LowerFault;
use crate::nodes::function_nodes;
use c_meaning::{Core, CoreFunction};
use c_types::TypeTable;
use lcc_base::Memory;

/// The most bytes of a frame, and the most nodes of a function.
const MOST: u64 = 1_048_576;

/// The most bytes of data.
const MOST_DATA: u64 = 16_777_216;

/// Whether a unit keeps the limits of the lowering, or the first one that it passes: `FrameLimit` for the first function
/// whose frame takes more than 1,048,576 bytes; then `DataLimit` where its objects and texts take more than 16,777,216;
/// then `NodeLimit` for the first function with more than 1,048,576 statements, expressions and parameters. Of `Memory`
/// nothing is said: it comes where a count is 2^64 or more.
pub fn check_limits(core: &Core) -> Result<(), LowerFault>
    ensures ok { OnOk result (IsWithin (unit_seen core.now)) }
    ensures err { IfErr result (Passes (unit_seen core.now)) }
{
    check_frames(core.types(), core.functions())?;
    check_data(core)?;
    check_nodes(core.functions())
}

/// No frame is too large, or the first one that is.
fn check_frames(types: &TypeTable, functions: &[CoreFunction]) -> Result<(), LowerFault>
    ensures ok { OnOk result (AreAtMost most (frame_counts_in types.now functions.now)) }
    ensures err { IfErr result (PassesFrame (frame_counts_in types.now functions.now)) }
{
    for (number, f) in functions.iter().enumerate() {
        let function = place(number)?;
        let bytes = frame_bytes(types, f)?;
        if bytes > MOST {
            return Err(LowerFault::FrameLimit { function, bytes });
        }
    }
    Ok(())
}

/// The data isn't too large.
fn check_data(core: &Core) -> Result<(), LowerFault>
    ensures ok { OnOk result (data_count (unit_seen core.now) ≤ most_data) }
    ensures err { IfErr result (PassesData (data_count (unit_seen core.now))) }
{
    let bytes = data_bytes(core)?;
    if bytes > MOST_DATA {
        return Err(LowerFault::DataLimit { bytes });
    }
    Ok(())
}

/// The bytes of a unit's objects and texts.
fn data_bytes(core: &Core) -> Result<u64, Memory>
    ensures { IfOk result (λ n. n ≡ data_count (unit_seen core.now)) }
{
    let objects = of_objects(core.types(), core.objects())?;
    of_texts(core.texts(), objects)
}

/// No function has too many nodes, or the first one that has.
fn check_nodes(functions: &[CoreFunction]) -> Result<(), LowerFault>
    ensures ok { OnOk result ((t : Table) → AreAtMost most (node_counts_in t functions.now)) }
    ensures err { IfErr result (λ e. (t : Table) → PassesNodes (node_counts_in t functions.now) e) }
{
    for (number, f) in functions.iter().enumerate() {
        let function = place(number)?;
        let nodes = function_nodes(f)?;
        if nodes > MOST {
            return Err(LowerFault::NodeLimit { function, nodes });
        }
    }
    Ok(())
}

/// A function's place.
fn place(number: usize) -> Result<u32, Memory>
    ensures { IfOk result (λ n. n ≡ number) }
{
    // No unit has as many.
    u32::try_from(number).map_err(|_| Memory)
}
