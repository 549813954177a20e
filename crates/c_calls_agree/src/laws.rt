//! Laws of lowered calls.
ghost use Rattle.c_calls_agree.specs.Laws.{ArgumentWordsArePassed, CallsCome, CallRootsAreMade, ValuedCallsAreLowered, VoidCallsArePerformed};

use c_runs::{locals_are_objects, runs_stay_sound};
use dag_forest::narrow_operators_give_narrow_words;
use dag_seam::split_trees_mean;

/// Behind the roots that pass operands the operands' words wait for a call.
pub fn argument_words_are_passed()
    ensures { ArgumentWordsArePassed }
{
    narrow_operators_give_narrow_words();
}

/// A call that begins alike in both comes to the same: of one of the unit's functions, where these come to it with fewer turns, and
/// of a built-in function.
pub fn calls_come()
    ensures { CallsCome }
{}

/// A root that calls comes to what C's call comes to, where the call of forests does.
pub fn call_roots_are_made()
    ensures { CallRootsAreMade }
{
    narrow_operators_give_narrow_words();
    split_trees_mean();
}

/// A call by name or by pointer, whose parts are lowered, straight or not, is lowered: it returns, exits, or goes on where its turns are
/// spent, as C's call does. Structures are passed as copies, and one that is given stands in the object for it. Of a call of type void the
/// value isn't used.
pub fn calls_are_lowered()
    ensures valued { ValuedCallsAreLowered }
    ensures void { VoidCallsArePerformed }
{
    narrow_operators_give_narrow_words();
    runs_stay_sound();
    locals_are_objects();
    split_trees_mean();
}
