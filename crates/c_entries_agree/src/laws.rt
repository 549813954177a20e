//! Laws of the beginning of calls.
ghost use Rattle.c_entries_agree.specs.Laws.{CallsEnter, CallsHaveFrames};

use c_runs::{locals_are_objects, runs_stay_sound};
use dag_forest::narrow_operators_give_narrow_words;
use lowered_statements::{frames_are_kept, statements_add};

/// The locals of a call have places in the frame of its function, and the other slots and words hold nothing of C.
pub fn calls_have_frames()
    ensures { CallsHaveFrames }
{
    frames_are_kept();
    statements_add();
    runs_stay_sound();
}

/// Where C's objects are made, the run of the call of forests stands before the body's first statement: narrow parameters are in
/// their slots, and what held nothing of C is as it was.
pub fn calls_enter()
    ensures { CallsEnter }
{
    narrow_operators_give_narrow_words();
    frames_are_kept();
    statements_add();
    locals_are_objects();
    runs_stay_sound();
}
