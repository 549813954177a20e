//! Laws of checked units.
ghost use Rattle.c_checked_units.specs.Laws.{TextsAreShort, TypedUnitsAreChecked, TypedUnitsHaveOwnJumps};
ghost use Rattle.c_checked_units.specs.Modest.{CheckedIsModest};

use c_meaning::copies_have_locals;
use c_runs::runs_stay_sound;
use c_types::{compatible_types_are_mutual, composites_are_compatible};

/// In a unit that is typed without a fault the numbers of cases are words, each case is a label of its own, and each `break` and
/// `continue` stands in what it leaves or goes on with.
pub fn jumps_stay_in_bodies()
    ensures { TypedUnitsHaveOwnJumps }
{}

/// So each unit of the grammar that is typed without a fault, made whole over a table of types that keep the limits, keeps what
/// its lowering needs of it.
pub fn units_are_checked()
    ensures { TypedUnitsAreChecked }
{
    compatible_types_are_mutual();
    composites_are_compatible();
    copies_have_locals();
    runs_stay_sound();
}

/// The expressions of checked units are such as the lowering asks for, where names of built-in functions stand for these.
pub fn expressions_are_modest()
    ensures { CheckedIsModest }
{}

/// The texts of a unit that keeps the limits of the lowering have no more bytes than an object may.
pub fn texts_are_short()
    ensures { TextsAreShort }
{}
