//! Laws of statements that copy structures, and of initialisers.
ghost use Rattle.c_stores_agree.specs.Initialisers.{InitialisersAgree, PlainInitialisersAgree};
ghost use Rattle.c_stores_agree.specs.Returns.{StructureReturnsAgree};

use c_runs::runs_stay_sound;
use c_slots_agree::{slots_are_read, slots_are_stored, slots_are_taken, slots_stay};
use dag_forest::narrow_operators_give_narrow_words;
use dag_seam::split_trees_mean;

/// The lowering of a return of a structure agrees with C: the structure is copied to the object whose address the hidden word has.
pub fn structures_are_returned()
    ensures { StructureReturnsAgree }
{
    narrow_operators_give_narrow_words();
    runs_stay_sound();
    split_trees_mean();
}

/// The lowering of a local's initialiser agrees with C: zeros as a whole, by words and bytes or by a loop, and then a value in each place,
/// const or not: a scalar, a bit-field or a structure, and where the unit's texts stand in its lowering a string too.
pub fn initialisers_agree()
    ensures plain { PlainInitialisersAgree }
    ensures all { InitialisersAgree }
{
    narrow_operators_give_narrow_words();
    runs_stay_sound();
    split_trees_mean();
    slots_are_taken();
    slots_are_stored();
    slots_stay();
    slots_are_read();
}
