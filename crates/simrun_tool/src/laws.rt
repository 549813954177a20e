//! Laws of `simrun`: an input is run or refused, not both, and a runnable one isn't refused.
ghost use Rattle.std.specs.Prelude.{◌≡◌, ℕ, List};
ghost use Rattle.outcomes.specs.declared.outcome.Refusal.{Refusal};
ghost use Rattle.outcomes.specs.Behaviour.{IsApart};
ghost use Rattle.command_words.specs.declared.run_options.RunOptions.{RunOptions};
ghost use Rattle.simrun_tool.specs.Simulation.{RefusesSimrun, simrun_behaviour};
ghost use Rattle.simrun_tool.specs.Runnable.{IsRunnable};

use asm_text::{one_fault, one_program};

/// An input of `simrun` isn't both run and refused, one refusal stands at most, and none where the input is the text of a
/// program that has a code label `main`.
pub fn simrun_laws()
    ensures apart { (o : RunOptions) → IsApart (simrun_behaviour o) }
    ensures one { (input : List ℕ) (why other : Refusal) → RefusesSimrun input why → RefusesSimrun input other → why ≡ other }
    ensures runnable { (input : List ℕ) (why : Refusal) → IsRunnable input → RefusesSimrun input why → ⊥ }
{
    one_fault();
    one_program();
}
