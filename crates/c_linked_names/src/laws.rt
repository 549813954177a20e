//! Laws of linked names: uses agree in type with definitions, and no two definitions share a name.
ghost use Rattle.c_linked_names.specs.Laws.{UnitNamesDiffer, UnitSymbolsFit};

use c_types::{compatible_types_are_mutual, composites_are_compatible};

/// In a unit that is typed without a fault each name with static storage stands, where it is used, with a type that is
/// compatible with that of the function or object that the unit defines for it; and made whole the unit's functions and
/// objects have names of their own.
pub fn symbols_fit()
    ensures symbols { UnitSymbolsFit }
    ensures names { UnitNamesDiffer }
{
    compatible_types_are_mutual();
    composites_are_compatible();
}
