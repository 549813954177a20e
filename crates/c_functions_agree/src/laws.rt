//! Laws of lowered functions.
ghost use Rattle.c_functions_agree.specs.Laws.{CallsReturn, UnitsAgree};

use c_entries_agree::{calls_enter, calls_have_frames};
use c_runs::{locals_are_objects, runs_stay_sound, turns_are_repetitions};
use c_stmts_agree::{bodies_agree, jumps_stay, labels_stand_once};

/// What the body of a lowered function comes to, its call comes to: the result is given, and what held nothing of C is as it was.
pub fn calls_return()
    ensures { CallsReturn }
{
    runs_stay_sound();
}

/// Each function of a checked unit agrees with that of its lowering, where the parts of the statements do, wherever a call has a
/// frame.
pub fn units_agree()
    ensures { UnitsAgree }
{
    runs_stay_sound();
    locals_are_objects();
    turns_are_repetitions();
    labels_stand_once();
    jumps_stay();
    bodies_agree();
    calls_have_frames();
    calls_enter();
    calls_return();
}
