//! Laws of lowered expressions, whatever their parts are.
ghost use Rattle.c_parts_agree.specs.Plain.{CommasAreLowered, CommasArePerformed, ConversionsToVoidAreLowered, PlainExpressionsAgree};

use c_runs::runs_stay_sound;
use dag_forest::narrow_operators_give_narrow_words;

/// An expression that is neither a test nor a conditional nor a call is lowered where its parts are, straight or not: from each state in which the run
/// stands before it, the run comes to what C's evaluation comes to, and the operand has its value there.
pub fn plain_expressions_agree()
    ensures { PlainExpressionsAgree }
{
    narrow_operators_give_narrow_words();
    runs_stay_sound();
}

/// So are conversions to void, and commas, where parts whose values aren't used are performed; and a comma is performed where all are.
pub fn dropped_parts_agree()
    ensures conversions { ConversionsToVoidAreLowered }
    ensures commas { CommasAreLowered }
    ensures performed { CommasArePerformed }
{
    narrow_operators_give_narrow_words();
    runs_stay_sound();
}
