//! Laws of `rcc`: an input is compiled or refused, not both, and for one reason at most.
ghost use Rattle.std.specs.Prelude.{◌≡◌, ℕ, List};
ghost use Rattle.outcomes.specs.declared.outcome.Refusal.{Refusal};
ghost use Rattle.outcomes.specs.Behaviour.{IsApart};
ghost use Rattle.rcc_tool.specs.Compilation.{RefusesRcc, rcc_behaviour};

/// An input of `rcc` isn't both compiled and refused, and one refusal stands at most.
pub fn rcc_laws()
    ensures apart { IsApart rcc_behaviour }
    ensures one { (input : List ℕ) (why other : Refusal) → RefusesRcc input why → RefusesRcc input other → why ≡ other }
{}
