//! The commands and their options, as they are read from the words of a command line.
ghost use Rattle.std.specs.Prelude.{◌≡◌, ◌↔◌, IfOk, IsTrue, map, string_bytes};
ghost use Rattle.command_words.specs.declared.words.Command.{Command as Commands};
ghost use Rattle.command_words.specs.Found.{IsFound};
ghost use Rattle.command_words.specs.Commands.{AreWordsOf};

use crate::ceval_options::CevalOptions;
use crate::ceval_words::ceval_options;
use crate::option_words::{OptionRow, options_in};
use crate::run_options::RunOptions;
use crate::run_words::run_options;
use lcc_base::Memory;
use std::alloc::Global;

/// What the words ask for.
#[derive(Clone, Copy, Debug, PartialEq, Eq)]
pub enum Command {
    /// `lburg cover`
    Cover,
    /// `lburg tables`
    Tables,
    /// `simrun` with its options
    Simrun(RunOptions),
    /// `rcc` with its target, `mipseb`
    Rcc,
    /// `ceval` with its options
    Ceval(CevalOptions),
}

impl Command {
    ghost use Rattle.command_words.specs.Commands.{reads};

    /// Whether it reads the input.
    pub fn reads(self) -> bool
        ensures { result ≡ reads self }
    {
        match self {
            Command::Cover => true,
            Command::Tables => true,
            Command::Simrun(_) => true,
            Command::Rcc => true,
            Command::Ceval(_) => true,
        }
    }
}

/// What a program is compiled for, or runs on.
const TARGET: OptionRow = OptionRow {
    name: "target",
    is_required: true,
};

/// How many steps a run has at most.
const STEPS: OptionRow = OptionRow {
    name: "steps",
    is_required: false,
};

/// How many bytes the stack has.
const STACK: OptionRow = OptionRow {
    name: "stack",
    is_required: false,
};

/// The order of bytes in memory.
const ORDER: OptionRow = OptionRow {
    name: "order",
    is_required: true,
};

/// How many turns a run has at most.
const TURNS: OptionRow = OptionRow {
    name: "turns",
    is_required: false,
};

/// Whether the word is this text.
fn is(word: &String, text: &str) -> bool
    ensures { IsTrue result ↔ (string_bytes word.now ≡ text.now) }
{
    word.as_str() == text
}

/// Whether the words are those of `lburg cover`.
fn are_cover(alloc: Global, words: &[String]) -> Result<bool, Memory>
    ensures { IfOk result (λ are. IsTrue are ↔ AreWordsOf Commands.Cover (map string_bytes words.now)) }
{
    match words {
        [tool, work, rest @ ..] if is(tool, "lburg") && is(work, "cover") => {
            Ok(options_in(alloc, &[], rest)?.is_some())
        }
        _ => Ok(false),
    }
}

/// Whether the words are those of `lburg tables`.
fn are_tables(alloc: Global, words: &[String]) -> Result<bool, Memory>
    ensures { IfOk result (λ are. IsTrue are ↔ AreWordsOf Commands.Tables (map string_bytes words.now)) }
{
    match words {
        [tool, work, rest @ ..] if is(tool, "lburg") && is(work, "tables") => {
            Ok(options_in(alloc, &[], rest)?.is_some())
        }
        _ => Ok(false),
    }
}

/// How the words ask `simrun` for a run, if they do.
fn run_asked(alloc: Global, words: &[String]) -> Result<Option<RunOptions>, Memory>
    ensures { IfOk result (IsFound (λ o. AreWordsOf (Commands.Simrun o) (map string_bytes words.now))) }
{
    match words {
        [tool, rest @ ..] if is(tool, "simrun") => {
            match options_in(alloc, &[TARGET, STEPS, STACK], rest)? {
                Some(options) => Ok(run_options(&options)),
                None => Ok(None),
            }
        }
        _ => Ok(None),
    }
}

/// Whether the words are those of `rcc`.
fn are_rcc(alloc: Global, words: &[String]) -> Result<bool, Memory>
    ensures { IfOk result (λ are. IsTrue are ↔ AreWordsOf Commands.Rcc (map string_bytes words.now)) }
{
    match words {
        [tool, rest @ ..] if is(tool, "rcc") => {
            match options_in(alloc, &[TARGET], rest)? {
                Some(options) => Ok(options.get_str("target") == Some("mipseb")),
                None => Ok(false),
            }
        }
        _ => Ok(false),
    }
}

/// How the words ask `ceval` for a run, if they do.
fn ceval_asked(alloc: Global, words: &[String]) -> Result<Option<CevalOptions>, Memory>
    ensures { IfOk result (IsFound (λ o. AreWordsOf (Commands.Ceval o) (map string_bytes words.now))) }
{
    match words {
        [tool, rest @ ..] if is(tool, "ceval") => {
            match options_in(alloc, &[ORDER, TURNS], rest)? {
                Some(options) => Ok(ceval_options(&options)),
                None => Ok(None),
            }
        }
        _ => Ok(None),
    }
}

/// The command that the words behind the program's name ask for, if they ask for one.
pub fn command_of(alloc: Global, words: &[String]) -> Result<Option<Command>, Memory>
    ensures { IfOk result (IsFound (λ c. AreWordsOf c (map string_bytes words.now))) }
{
    if are_cover(alloc, words)? {
        return Ok(Some(Command::Cover));
    }
    if are_tables(alloc, words)? {
        return Ok(Some(Command::Tables));
    }
    if let Some(options) = run_asked(alloc, words)? {
        return Ok(Some(Command::Simrun(options)));
    }
    if are_rcc(alloc, words)? {
        return Ok(Some(Command::Rcc));
    }
    if let Some(options) = ceval_asked(alloc, words)? {
        return Ok(Some(Command::Ceval(options)));
    }
    Ok(None)
}
