//! The options of a command, which clap reads.
ghost use Rattle.std.specs.Prelude.{◌≡◌, IfOk, true, false, map, string_bytes};
ghost use Rattle.clap.specs.Words.{app_of, rule_of, is_simple_and_free};
ghost use Rattle.command_words.specs.OptionWords.{row_of, rule_for, app_for, AreGiven};

use clap::error::ErrorKind;
use clap::{Arg, ArgAction, ArgMatches, Command};
use lcc_base::Memory;
use std::alloc::Global;

/// An option with a value.
#[derive(Clone, Copy, Debug)]
pub(crate) struct OptionRow {
    pub(crate) name: &'static str,
    /// Whether the words have to give it.
    pub(crate) is_required: bool,
}

/// The argument of clap for an option.
fn arg<'a>(alloc: Global, option: OptionRow) -> Arg<'a>
    ensures rule { rule_of result ≡ rule_for (row_of option) }
    ensures local { result.global ≡ false }
{
    Arg::new(alloc, option.name)
        .long(option.name)
        .action(ArgAction::Set)
        .required(option.is_required)
}

/// The command of clap with these options.
fn command<'a>(alloc: Global, options: &[OptionRow]) -> Result<Command<'a>, Memory>
    ensures { IfOk result (λ c. app_of c ≡ app_for (map row_of options.now)) }
{
    let mut command = Command::new(alloc, "")
        .no_binary_name(true)
        .disable_help_flag(true)
        .disable_version_flag(true);
    for option in options {
        command = command.arg(arg(alloc, *option))?;
    }
    Ok(command)
}

/// What the words give the options, if they are options of these.
pub(crate) fn options_in<'a>(
    alloc: Global,
    options: &[OptionRow],
    words: &'a [String],
) -> Result<Option<ArgMatches<'a>>, Memory>
    requires { is_simple_and_free (app_for (map row_of options.now)) ≡ true }
    ensures { IfOk result (AreGiven (map row_of options.now) (map string_bytes words.now)) }
{
    let command = command(alloc, options)?;
    match command.try_get_matches_from(words) {
        Ok(matches) => Ok(Some(matches)),
        Err(error) => match error.kind() {
            ErrorKind::OutOfMemory => Err(Memory),
            _ => Ok(None),
        },
    }
}
