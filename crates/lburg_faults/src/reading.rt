//! A description's text, line by line.
ghost use Rattle.std.specs.Prelude.{◌≡◌, ◌≤◌, ◌⊎◌, ◌+◌, ℕ, List, [], Some, max, length, option_map, IfOk, IfErr, OnOk, IfSome, IfNone};
ghost use Rattle.lcc_text.specs.Names.{bytes_of};
ghost use Rattle.lcc_text.specs.Lines.{lines_of};
ghost use Rattle.lburg_lines.specs.Grammar.{line_of};
ghost use Rattle.lburg_lines.specs.Sections.{AreLinesFrom, TokenLine};
ghost use Rattle.lburg_lines.specs.declared.section.Section.TheVariants.{Head};
ghost use Rattle.lburg_faults.specs.Setting.{Setting};
ghost use Rattle.lburg_faults.specs.Telling.{IsSettingOf};
ghost use Rattle.lburg_faults.specs.Terminals.{Among, declared_in, names_of};
ghost use Rattle.lburg_faults.specs.Knowing.{Knows, NotesLine};
ghost use Rattle.lburg_faults.specs.CheckedText.{IsChecked};
ghost use Rattle.lburg_faults.specs.FirstFault.{AllRuled, AtStart, InLine, InPatterns, FirstFault};
ghost use Rattle.lburg_faults.specs.UnknownNonterminal.{IsUnruledStart};
ghost use Rattle.lburg_faults.specs.Reads.{AreRead, TellsLine, line_view, lines_view};
ghost use Rattle.lburg_faults.specs.declared.known.StartSymbol.{StartSymbol as StartSymbols};

use crate::checked_text::CheckedText;
use crate::desc_fault::DescFault;
use crate::here::Here;
use crate::known::{Known, StartSymbol};
use crate::line_check::LineError;
use crate::numbered_rules::NumberedRules;
use crate::section_line::{SectionLine, section_lines};
use crate::unruled::{first_unruled, left_sides};
use indexmap::IndexSet;
use lburg_lines::Line;
use lcc_text::{find, next_line};
use std::alloc::Global;

/// How many lines the text has, but at least 1.
fn last_line(text: &[u8]) -> u32
    requires { length text.now ≤ 16777216 }
    ensures { result ≡ max 1 (length (lines_of text.now)) }
{
    let mut number = 0;
    let mut rest = text;
    while let Some((_, behind)) = next_line(rest) {
        number += 1;
        rest = behind;
    }
    if number == 0 { 1 } else { number }
}

/// Reads the line with this number, and notes what it says.
fn read_one<'t, 'a>(
    alloc: Global,
    text: &'a [u8],
    line: &'t SectionLine<'a>,
    number: u32,
    known: &mut Known<'a>,
) -> Result<Line<'a>, DescFault>
    ensures found { IfOk result (λ w. (s : Setting) → Knows s.terminals s.before known.old → number ≡ length s.before + 1 → IsSettingOf text.now s (line_view line.now)
        → NotesLine s (line_view line.now) known.new (line_of w)) }
    ensures fault { IfErr result (λ f. (s : Setting) → Knows s.terminals s.before known.old → number ≡ length s.before + 1 → IsSettingOf text.now s (line_view line.now)
        → TellsLine s (line_view line.now) number f) }
{
    let here = Here {
        text,
        section: line.section,
        number,
    };
    match known.note_line(alloc, &here, &line.tokens) {
        Ok(line) => Ok(line),
        Err(LineError::Memory) => Err(DescFault::Memory),
        Err(LineError::Fault(fault)) => Err(fault.told(number)),
    }
}

/// Reads the lines of the text, and notes what they say.
fn read_each<'t, 'a>(
    alloc: Global,
    text: &'a [u8],
    lines: &'t [SectionLine<'a>],
    known: &mut Known<'a>,
) -> Result<NumberedRules<'a>, DescFault>
    requires few { length lines.now ≤ 16777216 }
    requires lines { AreLinesFrom Head (lines_of text.now) (lines_view lines.now) }
    requires fresh { Knows (names_of (declared_in (lines_view lines.now))) [] known.old }
    ensures read { IfOk result (λ rules. AreRead (lines_view lines.now) rules known.new) }
    ensures fault { IfErr result (λ f. (f ≡ DescFault.Memory) ⊎ InLine (lines_view lines.now) f) }
{
    let mut rules = NumberedRules::new(alloc);
    for (i, line) in lines.iter().enumerate() {
        let number = i as u32 + 1;
        let line = read_one(alloc, text, line, number, known)?;
        rules.add(line, number)?;
    }
    Ok(rules)
}

/// The line of the start symbol, where one is declared that is no left side.
fn unruled_start<'a>(start: Option<StartSymbol<'a>>, lefts: &IndexSet<&'a [u8]>) -> Option<u32>
    ensures some { IfSome result (λ n. (s : StartSymbols) × (start.entry ≡ Some s) × (s.line ≡ n) × (Among s.name.now (bytes_of lefts.now) → ⊥)) }
    ensures none { IfNone result ((s : StartSymbols) → start.entry ≡ Some s → Among s.name.now (bytes_of lefts.now)) }
{
    let start = start?;
    match find(lefts, start.name) {
        Some(_) => None,
        None => Some(start.line),
    }
}

/// Looks that each nonterminal has a rule.
fn check_ruled<'a>(
    alloc: Global,
    known: &Known<'a>,
    rules: &NumberedRules<'a>,
) -> Result<(), DescFault>
    requires { length rules.now.numbers.items ≡ length rules.now.lines.items }
    ensures ruled { OnOk result ((lines : List TokenLine) → AreRead lines rules.now known.now → AllRuled lines × ((i : ℕ) → IsUnruledStart lines i → ⊥)) }
    ensures fault { IfErr result (λ f. (f ≡ DescFault.Memory) ⊎ ((lines : List TokenLine) → AreRead lines rules.now known.now → InPatterns lines f ⊎ AtStart lines f)) }
{
    let lefts = left_sides(alloc, &rules.lines)?;
    if let Some(i) = first_unruled(&known.terminals, &lefts, &rules.lines) {
        return Err(DescFault::UnknownNonterminal {
            line: rules.numbers[i],
        });
    }
    match unruled_start(known.start, &lefts) {
        Some(line) => Err(DescFault::UnknownNonterminal { line }),
        None => Ok(()),
    }
}

/// The name of the start symbol, where one is declared.
fn start_name<'a>(start: Option<StartSymbol<'a>>) -> Option<&'a [u8]>
    ensures { option_map (λ n. n.now) result ≡ option_map (λ s. s.name.now) start.entry }
{
    match start {
        Some(start) => Some(start.name),
        None => None,
    }
}

/// The description that the text before its tail spells, with names as they are written, or its first
/// fault: the first in the text, within a line the first from the left, at one place the first of
/// `DescFault`'s order.
pub fn read_checked<'a>(alloc: Global, text: &'a [u8]) -> Result<CheckedText<'a>, DescFault>
    requires { length text.now ≤ 16777216 }
    // What is read is what the text spells, and no fault stands in it.
    ensures found { IfOk result (λ c. IsChecked c text.now) }
    // A fault is the first.
    ensures fault { IfErr result (λ f. (f ≡ DescFault.Memory) ⊎ FirstFault text.now f) }
{
    let lines = section_lines(alloc, text)?;
    let mut known = Known::new(alloc);
    let rules = read_each(alloc, text, &lines, &mut known)?;
    if rules.lines.is_empty() {
        return Err(DescFault::BadRule {
            line: last_line(text),
        });
    }
    check_ruled(alloc, &known, &rules)?;
    Ok(CheckedText {
        terminals: known.terminals,
        numbers: known.numbers,
        arities: known.arities,
        start: start_name(known.start),
        rules: rules.lines,
    })
}
