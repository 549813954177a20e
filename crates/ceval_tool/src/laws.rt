//! Laws of `ceval`: no input is both run and refused, and it has one run at most.
ghost use Rattle.std.specs.Prelude.{◌≡◌, ℕ, List};
ghost use Rattle.outcomes.specs.declared.outcome.End.{End};
ghost use Rattle.outcomes.specs.declared.outcome.Refusal.{Refusal};
ghost use Rattle.outcomes.specs.Behaviour.{IsApart};
ghost use Rattle.command_words.specs.declared.ceval_options.CevalOptions.{CevalOptions};
ghost use Rattle.ceval_tool.specs.Evaluation.{IsEvaluable, IsEvaluation, RefusesCeval, ceval_behaviour};
ghost use Rattle.ceval_tool.specs.OneRefusal.{AreOne};

use c_lexer::{one_list, one_source_unit};
use c_units::typing_units_is_decided;

/// An input of `ceval` isn't both run and refused. It has one run at most, and one refusal at most, but for the line
/// of `NoParse`; and no refusal where it is the source of a unit in which nothing breaks a constraint or passes a
/// limit.
pub fn ceval_laws()
    ensures apart { (o : CevalOptions) → IsApart (ceval_behaviour o) }
    ensures run { (o : CevalOptions) (input : List ℕ) (end last : End) (text other : List ℕ) → IsEvaluation o input end text → IsEvaluation o input last other → (end ≡ last) × (text ≡ other) }
    ensures one { (input : List ℕ) (why other : Refusal) → RefusesCeval input why → RefusesCeval input other → AreOne why other }
    ensures evaluable { (input : List ℕ) (why : Refusal) → IsEvaluable input → RefusesCeval input why → ⊥ }
{
    one_list();
    one_source_unit();
    typing_units_is_decided();
}
