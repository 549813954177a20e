//! The options of `ceval`, by their texts.
ghost use Rattle.std.specs.Prelude.{option_map};
ghost use Rattle.clap.specs.Words.{first_value, found_of};
ghost use Rattle.command_words.specs.Found.{IsFound};
ghost use Rattle.command_words.specs.CevalWords.{GivesOrder, GivesCeval};

use crate::ceval_options::CevalOptions;
use crate::number_words::number_of;
use clap::ArgMatches;
use lcc_base::Order;

/// The order of bytes of this name.
fn order_of(text: Option<&str>) -> Option<Order>
    ensures { IsFound (GivesOrder (option_map (λ s. s.now) text.entry)) result }
{
    match text {
        Some("big") => Some(Order::Big),
        Some("little") => Some(Order::Little),
        _ => None,
    }
}

/// How the options ask for a run, if they do.
pub(crate) fn ceval_options(options: &ArgMatches) -> Option<CevalOptions>
    ensures { IsFound (λ o. GivesCeval o (first_value (found_of options.now))) result }
{
    let order = order_of(options.get_str("order"))?;
    let turns = number_of(options.get_str("turns"), 1, u32::MAX, 10_000_000)?;
    Some(CevalOptions { order, turns })
}
