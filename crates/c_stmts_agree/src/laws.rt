//! Laws of lowered statements.
ghost use Rattle.c_stmts_agree.specs.CheckedParts.{CheckedPartsAgree};
ghost use Rattle.c_stmts_agree.specs.FunctionBodies.{FunctionBodiesAgree, FunctionsHaveLabels};
ghost use Rattle.c_stmts_agree.specs.Jumps.{CheckedJumpsStay};
ghost use Rattle.c_stmts_agree.specs.Labels.{FunctionsMarkOnce};
ghost use Rattle.c_stmts_agree.specs.Laws.{EmptyReturnsAgree, ScalarReturnsAgree, SequencesAgree, StatementsAgree};

use c_runs::runs_stay_sound;
use dag_forest::narrow_operators_give_narrow_words;
use dag_seam::split_trees_mean;
use lowered_labels::{labels_are_marked, labels_are_used};

/// The lowering of a statement agrees with C, if that of its expressions and tests does: from each state in which the run stands
/// before it, or behind a label in it, the run comes to what C's execution comes to.
pub fn statements_agree()
    ensures statements { StatementsAgree }
    ensures sequences { SequencesAgree }
{
    narrow_operators_give_narrow_words();
    runs_stay_sound();
    split_trees_mean();
}

/// So does that of a return without a value, and of one with a scalar.
pub fn returns_agree()
    ensures empty { EmptyReturnsAgree }
    ensures scalars { ScalarReturnsAgree }
{
    narrow_operators_give_narrow_words();
    runs_stay_sound();
    split_trees_mean();
}

/// The body of a function agrees with C: from where its statements begin, the run returns, exits or goes on as C's execution does.
pub fn bodies_agree()
    ensures { FunctionBodiesAgree }
{
    narrow_operators_give_narrow_words();
    runs_stay_sound();
    split_trees_mean();
}

/// In the lowered body of a checked function each label is marked once, and no other root is a label; and each label of the
/// function stands there, before a block.
pub fn labels_stand_once()
    ensures once { FunctionsMarkOnce }
    ensures there { FunctionsHaveLabels }
{
    labels_are_marked();
    labels_are_used();
}

/// The parts of a checked function's statements agree, where each expression does.
pub fn parts_agree()
    ensures { CheckedPartsAgree }
{}

/// The jumps of checked statements go to no label but their function's, where each `break` and `continue` stands in what it leaves
/// or goes on with.
pub fn jumps_stay()
    ensures { CheckedJumpsStay }
{}
