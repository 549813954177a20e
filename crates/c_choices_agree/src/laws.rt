//! Laws of lowered expressions that choose.
ghost use Rattle.c_choices_agree.specs.Conditionals.{ConditionalsAreLowered, VoidConditionalsArePerformed};
ghost use Rattle.c_choices_agree.specs.Truths.{TruthsAreLowered};

use c_runs::runs_stay_sound;
use c_slots_agree::{slots_are_read, slots_are_stored, slots_are_taken, slots_stay};
use c_tests_agree::branches_are_taken;
use dag_forest::narrow_operators_give_narrow_words;
use dag_seam::split_trees_mean;

/// A test's truth is lowered to a number in a slot, where the test is tested.
pub fn truths_are_lowered()
    ensures { TruthsAreLowered }
{
    narrow_operators_give_narrow_words();
    split_trees_mean();
    slots_are_taken();
    slots_are_stored();
    slots_stay();
    slots_are_read();
}

/// A conditional is lowered, where its condition is tested and both ways are lowered: what the way that is gone comes to, a number, a
/// pointer or a structure's place, is kept in a slot. One of type void is performed, where its ways are.
pub fn conditionals_are_lowered()
    ensures valued { ConditionalsAreLowered }
    ensures void { VoidConditionalsArePerformed }
{
    narrow_operators_give_narrow_words();
    runs_stay_sound();
    split_trees_mean();
    slots_are_taken();
    slots_are_stored();
    slots_stay();
    slots_are_read();
    branches_are_taken();
}
