//! Laws of lowered statements.
ghost use Rattle.c_stmt_agreement.specs.Laws.{BlockIsLowered, BreakIsLowered, ChoiceIsLowered, ContinueIsLowered, DoIsLowered, ExpressionIsLowered, ForIsLowered, GotoIsLowered, JumpsLead, LabelIsLowered, LastIsLowered, MarksLead, NoStatementIsLowered, NothingIsLowered, SequenceIsLowered, SwitchIsLowered, TestsAreTests, WhileIsLowered};

use c_runs::runs_stay_sound;
use dag_forest::narrow_operators_give_narrow_words;
use dag_seam::split_trees_mean;

/// Nothing stands for a statement that does nothing. What leads to where a jump goes stands for the jump.
pub fn jumps_are_lowered()
    ensures nothing { NothingIsLowered }
    ensures breaks { BreakIsLowered }
    ensures continues { ContinueIsLowered }
    ensures gotos { GotoIsLowered }
{}

/// The lowering of an expression stands for its statement; and that of a test, to a label, for the test.
pub fn expressions_are_lowered()
    ensures expressions { ExpressionIsLowered }
    ensures tests { TestsAreTests }
{
    runs_stay_sound();
}

/// Statements one behind the other, a block of them, whose gotos to its own labels go on in it, and a statement behind a label
/// keep what their parts keep.
pub fn sequences_are_lowered()
    ensures none { NoStatementIsLowered }
    ensures sequences { SequenceIsLowered }
    ensures blocks { BlockIsLowered }
    ensures labels { LabelIsLowered }
{}

/// So do choices by a test, and switches whose search leads to the chosen label.
pub fn choices_are_lowered()
    ensures choices { ChoiceIsLowered }
    ensures switches { SwitchIsLowered }
{}

/// So do loops, in which a step pays for the turn of each repetition.
pub fn loops_are_lowered()
    ensures whiles { WhileIsLowered }
    ensures dos { DoIsLowered }
    ensures fors { ForIsLowered }
    ensures lasts { LastIsLowered }
{}

/// The end of a block before a label leads behind the label, and so does a jump to it.
pub fn labels_lead()
    ensures marks { MarksLead }
    ensures jumps { JumpsLead }
{
    narrow_operators_give_narrow_words();
    split_trees_mean();
}
