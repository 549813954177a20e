//! Laws of lowered expressions.
ghost use Rattle.c_straight_agree.specs.Checked.{StraightExpressionsAgree};
ghost use Rattle.c_straight_agree.specs.Finals.{FinalsGoBack, TestFinalsGoBack};
ghost use Rattle.c_straight_agree.specs.Laws.{OperandsWait, RootsStore, StepsJoin, TemplatesAnswer, ValuesArePlaced};

use c_runs::runs_stay_sound;
use dag_forest::narrow_operators_give_narrow_words;

/// A block that is asked for a template that gives a word now has a node with that word, and the run stands there: the node was
/// there already, or is new, and may be kept in a temporary.
pub fn templates_answer()
    ensures { TemplatesAnswer }
{
    narrow_operators_give_narrow_words();
}

/// A template that has a value of C becomes an operand that has it.
pub fn values_are_placed()
    ensures { ValuesArePlaced }
{
    narrow_operators_give_narrow_words();
}

/// A root that stores acts behind its operands; what waits has its value behind it still.
pub fn roots_store()
    ensures { RootsStore }
{
    narrow_operators_give_narrow_words();
}

/// An operand that waits has its value where its block's nodes have theirs and the same objects live; and what comes of a second
/// step, comes of both.
pub fn operands_wait()
    ensures waiting { OperandsWait }
    ensures joined { StepsJoin }
{}

/// What is known of the block that is open behind an expression or a test, of the one that was open before it is known, too: which pieces
/// it belongs to, and behind which slots it is split.
pub fn blocks_come_to_be()
    ensures expressions { FinalsGoBack }
    ensures tests { TestFinalsGoBack }
{}

/// The lowering of a straight expression of a checked function agrees with C: from each state in which the run stands before it, the
/// run comes to what C's evaluation comes to, and the operand has its value there; where there are calls in it, if these are lowered so.
pub fn straight_expressions_agree()
    ensures { StraightExpressionsAgree }
{
    narrow_operators_give_narrow_words();
    runs_stay_sound();
}
