//! Locals that get their first values.
ghost use Rattle.std.specs.Prelude.{OnOk, map};
ghost use Rattle.c_meaning.specs.StmtTrees.{filled_of, place_seen};
ghost use Rattle.c_worlds.specs.Programs.{HasNames};
ghost use Rattle.lowered_statements.specs.Initialisers.{all_filled, filled, initialised};
ghost use Rattle.lowering_acts.specs.Sites.{type_in};
ghost use Rattle.lowering_steps.specs.Operands.{typed_of};
ghost use Rattle.statement_steps.specs.Functions.{function_of};
ghost use Rattle.statement_steps.specs.Progresses.{Goes};

use c_lower_expr::lower_value;
use c_meaning::FilledPlace;
use c_worlds::size;
use lcc_base::Memory;
use lowering_acts::copy_place;
use lowering_steps::{Operand, State};
use statement_steps::{FunctionSite, fill_place, zero_whole};

/// A local gets its first value: zeros as a whole, where it is said, and then each place in turn. Where there is no such local nothing
/// is done.
pub(crate) fn initialise(
    f: &FunctionSite,
    local: u32,
    zero: bool,
    places: &[FilledPlace],
    into: &mut State,
) -> Result<(), Memory>
    requires { HasNames f.now.site.program }
    ensures { OnOk result (Goes (λ l. initialised (function_of f.now) local zero (map (place_seen (type_in f.now.site)) (map filled_of places.now)) l) into.old into.new) }
{
    let Some(of) = f.locals.get(local as usize) else {
        return Ok(());
    };
    let base = copy_place(&f.site, local, *of)?;
    let size = size(f.site.program.core.types(), *of);
    zero_whole(into, zero, base, size)?;
    fill_all(f, base, places, into)
}

// Places in turn.
fn fill_all(
    f: &FunctionSite,
    base: Operand,
    places: &[FilledPlace],
    into: &mut State,
) -> Result<(), Memory>
    requires { HasNames f.now.site.program }
    ensures { OnOk result (Goes (λ l. all_filled (function_of f.now) (typed_of base) (map (place_seen (type_in f.now.site)) (map filled_of places.now)) l) into.old into.new) }
{
    for place in places {
        fill(f, base, place, into)?;
    }
    Ok(())
}

// One place.
fn fill(
    f: &FunctionSite,
    base: Operand,
    place: &FilledPlace,
    into: &mut State,
) -> Result<(), Memory>
    requires { HasNames f.now.site.program }
    ensures { OnOk result (Goes (λ l. filled (function_of f.now) (typed_of base) (place_seen (type_in f.now.site) (filled_of place.now)) l) into.old into.new) }
{
    let value = lower_value(&f.site, &place.value, into)?;
    fill_place(f, base, place, value, into)
}
