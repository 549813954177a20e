//! Laws of whole units: what typing accepts keeps the promises of a checked unit.
ghost use Rattle.c_core_fits.specs.Laws.{TypedUnitsAreUnits};

use c_linked_names::symbols_fit;
use c_local_names::locals_fit;

/// A unit of the grammar that is typed without a fault is, made whole, one that keeps what a checked unit promises, where
/// its numbers have 32 bits and it isn't too large to be numbered.
pub fn typed_units_are_units()
    ensures { TypedUnitsAreUnits }
{
    symbols_fit();
    locals_fit();
}
