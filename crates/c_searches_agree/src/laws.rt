//! Laws of lowered searches of switches.
ghost use Rattle.c_searches_agree.specs.Jumps.{JumpsLead, LabelsAreRead};
ghost use Rattle.c_searches_agree.specs.Laws.{CheckedSwitchesLead, SearchesAgree};
ghost use Rattle.c_searches_agree.specs.Lengths.{TablesAreShort};

use c_runs::runs_stay_sound;
use c_slots_agree::{slots_are_read, slots_are_stored, slots_are_taken, slots_stay};
use dag_forest::narrow_operators_give_narrow_words;
use dag_seam::split_trees_mean;

/// Behind the value of a switch, which is stored in a slot, the search of its tables leads to where C goes; so it does for each
/// switch of a checked function.
pub fn searches_agree()
    ensures searches { SearchesAgree }
    ensures checked { CheckedSwitchesLead }
{
    narrow_operators_give_narrow_words();
    runs_stay_sound();
    split_trees_mean();
    slots_are_taken();
    slots_are_stored();
    slots_stay();
    slots_are_read();
}

/// In a table of the unit the label of each number between its first and its last one is read, and a jump through the table leads
/// there.
pub fn jumps_through_tables_lead()
    ensures read { LabelsAreRead }
    ensures lead { JumpsLead }
{
    narrow_operators_give_narrow_words();
    split_trees_mean();
    slots_are_read();
}

/// A table of a function's switches has at most two labels for each case, where no switch has more cases than these.
pub fn tables_are_short()
    ensures { TablesAreShort }
{}
