//! Laws of the commands: no input is both accepted and refused, or refused in two ways.
ghost use Rattle.std.specs.Prelude.{◌≡◌, ℕ, List};
ghost use Rattle.outcomes.specs.declared.outcome.Refusal.{Refusal};
ghost use Rattle.outcomes.specs.Behaviour.{IsApart};
ghost use Rattle.lburg_tool.specs.Cover.{RefusesDescription, RefusesCover, cover_behaviour};
ghost use Rattle.lburg_tool.specs.Tables.{tables_behaviour};

use lburg_grammar::{one_description, one_fault, one_tree_fault};

/// An input of `lburg cover` isn't both covered and refused, and one refusal stands at most.
pub fn cover_laws()
    ensures apart { IsApart cover_behaviour }
    ensures one { (input : List ℕ) (why other : Refusal) → RefusesCover input why → RefusesCover input other → why ≡ other }
{
    one_fault();
    one_description();
    one_tree_fault();
}

/// The same of `lburg tables`.
pub fn tables_laws()
    ensures apart { IsApart tables_behaviour }
    ensures one { (input : List ℕ) (why other : Refusal) → RefusesDescription input why → RefusesDescription input other → why ≡ other }
{
    one_fault();
}
