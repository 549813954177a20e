//! Laws of lowered expressions.
ghost use Rattle.c_expressions_agree.specs.Expressions.{ExpressionsAgree};

use c_calls_agree::calls_are_lowered;
use c_choices_agree::{conditionals_are_lowered, truths_are_lowered};
use c_parts_agree::{dropped_parts_agree, plain_expressions_agree};
use c_tests_agree::{comparisons_are_tested, connectives_are_tested, scalars_are_tested};

/// Each expression of a checked function is lowered and tested as C evaluates and tests it. Of one of type void nothing is asked of the
/// value, which nothing uses, unless it is a place.
pub fn expressions_agree()
    ensures { ExpressionsAgree }
{
    plain_expressions_agree();
    dropped_parts_agree();
    scalars_are_tested();
    connectives_are_tested();
    comparisons_are_tested();
    truths_are_lowered();
    conditionals_are_lowered();
    calls_are_lowered();
}
