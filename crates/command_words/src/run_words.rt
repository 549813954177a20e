//! The options of `simrun`, by their texts.
ghost use Rattle.std.specs.Prelude.{option_map};
ghost use Rattle.clap.specs.Words.{first_value, found_of};
ghost use Rattle.command_words.specs.Found.{IsFound};
ghost use Rattle.command_words.specs.RunWords.{GivesTarget, GivesRun};

use crate::number_words::number_of;
use crate::run_options::RunOptions;
use clap::ArgMatches;
use lcc_base::Order;

/// The order of bytes of the target of this name.
fn order_of(text: Option<&str>) -> Option<Order>
    ensures { IsFound (GivesTarget (option_map (λ s. s.now) text.entry)) result }
{
    match text {
        Some("mipseb") => Some(Order::Big),
        Some("mipsel") => Some(Order::Little),
        _ => None,
    }
}

/// How the options ask for a run, if they do.
pub(crate) fn run_options(options: &ArgMatches) -> Option<RunOptions>
    ensures { IsFound (λ o. GivesRun o (first_value (found_of options.now))) result }
{
    let order = order_of(options.get_str("target"))?;
    let steps = number_of(options.get_str("steps"), 1, u32::MAX, 10_000_000)?;
    let stack = number_of(options.get_str("stack"), 4096, 16_777_216, 1_048_576)?;
    Some(RunOptions {
        order,
        steps,
        stack,
    })
}
