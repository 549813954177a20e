//! Laws of lowered tests.
ghost use Rattle.c_tests_agree.specs.Comparisons.{ComparisonsAreTested};
ghost use Rattle.c_tests_agree.specs.Connectives.{NegationsAreTested, ConjunctionsAreTested, DisjunctionsAreTested};
ghost use Rattle.c_tests_agree.specs.Laws.{BranchesAreTaken, JumpsAreTaken};
ghost use Rattle.c_tests_agree.specs.Scalars.{ScalarsAreTested};

use c_runs::runs_stay_sound;
use c_slots_agree::operands_are_held;
use dag_forest::narrow_operators_give_narrow_words;
use dag_seam::split_trees_mean;

/// A root that jumps where a truth is so acts behind its operands: the run stands at its label, or in the block that follows, by
/// the truth. And where it jumps anyway, at its label.
pub fn branches_are_taken()
    ensures branches { BranchesAreTaken }
    ensures jumps { JumpsAreTaken }
{
    narrow_operators_give_narrow_words();
    split_trees_mean();
}

/// A scalar that is no test by itself is lowered as a test, where its value is lowered: the jump is taken where it isn't 0, or where it is.
pub fn scalars_are_tested()
    ensures { ScalarsAreTested }
{
    narrow_operators_give_narrow_words();
    runs_stay_sound();
    split_trees_mean();
}

/// What isn't so, and what two operands joined by `&&` or `||` are, is tested where the operands are: to any label, by which truth it may jump.
pub fn connectives_are_tested()
    ensures negations { NegationsAreTested }
    ensures conjunctions { ConjunctionsAreTested }
    ensures disjunctions { DisjunctionsAreTested }
{
    runs_stay_sound();
    split_trees_mean();
}

/// A comparison is tested, where its operands are lowered, straight or not.
pub fn comparisons_are_tested()
    ensures { ComparisonsAreTested }
{
    narrow_operators_give_narrow_words();
    runs_stay_sound();
    split_trees_mean();
    operands_are_held();
}
