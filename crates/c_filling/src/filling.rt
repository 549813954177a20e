//! Objects filled place by place.
ghost use Rattle.std.specs.Prelude.{◌≡◌, true};
ghost use Rattle.c_filling.specs.Filled.{are_plain_places, seen_places};
ghost use Rattle.c_runs.specs.Statements.{fill};
ghost use Rattle.c_worlds.specs.Programs.{Calls, HasNames, setting_of};
ghost use Rattle.c_worlds.specs.Shown.{Goes, StaysBelow};

use crate::places::fill_place;
use c_meaning::FilledPlace;
use c_plain::{is_plain, plain_used};
use c_worlds::{Program, Stop, World};
use objects::Value;
use std::alloc::Global;

/// Whether no value of these calls anything.
pub fn are_plain(places: &[FilledPlace]) -> bool
    ensures { result ≡ are_plain_places places.now }
{
    for place in places {
        if !is_plain(&place.value) {
            return false;
        }
    }
    true
}

/// Fills the places of the object at `base` in turn, with values that call nothing.
pub fn fill(
    alloc: Global,
    program: &Program,
    world: &mut World,
    base: Value,
    places: &[FilledPlace],
) -> Result<(), Stop>
    requires names { HasNames program.now }
    requires plain { are_plain_places places.now ≡ true }
    ensures goes { (calls : Calls) → Goes (λ k w. fill (setting_of program.now calls) base (seen_places program.now places.now) k w) world.old world.new result }
    ensures stays { StaysBelow world.old world.new }
{
    for place in places {
        let value = plain_used(program, world, &place.value)?;
        fill_place(alloc, program, world, place, base, value)?;
    }
    Ok(())
}
