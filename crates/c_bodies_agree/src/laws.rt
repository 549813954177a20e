//! Laws of the bodies of checked functions.
ghost use Rattle.c_bodies_agree.specs.Laws.{CheckedUnitsAgree, LoweredUnitsAgree, PartsOfBodiesAgree};

use c_checked_units::expressions_are_modest;
use c_expressions_agree::expressions_agree;
use c_functions_agree::units_agree;
use c_searches_agree::searches_agree;
use c_stmts_agree::parts_agree;
use c_stores_agree::{initialisers_agree, structures_are_returned};
use lowered_data::texts_stand;
use lowered_units_agree::{built_ins_are_provided, functions_are_fair, units_are_lowerings};

/// The parts of each checked function's statements agree with C, wherever a call of it has a frame, where the built-in functions have their
/// numbers and the unit's texts stand in its lowering.
pub fn parts_of_bodies_agree()
    ensures { PartsOfBodiesAgree }
{
    expressions_are_modest();
    expressions_agree();
    searches_agree();
    parts_agree();
    initialisers_agree();
    structures_are_returned();
}

/// So each function of a checked unit agrees with that of its lowering.
pub fn checked_units_agree()
    ensures { CheckedUnitsAgree }
{
    functions_are_fair();
    parts_of_bodies_agree();
    units_agree();
}

/// And with that of its lowered unit, if the unit keeps the limits.
pub fn each_lowered_unit_agrees()
    ensures { LoweredUnitsAgree }
{
    units_are_lowerings();
    built_ins_are_provided();
    texts_stand();
    checked_units_agree();
}
