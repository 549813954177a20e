//! Laws of lowered units.
ghost use Rattle.lowered_units.specs.Laws.{FunctionsStand, TablesStand};

/// Each function of the unit is at its place, lowered to its body; and so is each table of its switches, behind the unit's own objects.
pub fn units_stand()
    ensures functions { FunctionsStand }
    ensures tables { TablesStand }
{}
