//! A line of a description: what it adds, or its first fault.
ghost use Rattle.std.specs.Prelude.{◌≡◌, ◌+◌, None, length, IfOk, IfErr};
ghost use Rattle.std.specs.declared.result.Result.TheVariants.{Ok};
ghost use Rattle.lburg_lines.specs.Tokens.{views};
ghost use Rattle.lburg_lines.specs.Grammar.{line_of};
ghost use Rattle.lburg_faults.specs.Lines.{InDeclarations};
ghost use Rattle.lburg_faults.specs.Setting.{Setting};
ghost use Rattle.lburg_faults.specs.Terminals.{declared_in, names_of};
ghost use Rattle.lburg_faults.specs.Telling.{IsSettingOf};
ghost use Rattle.lburg_faults.specs.Knowing.{Knows, NotesLine, LineFails};
ghost use Rattle.lburg_faults.specs.LineEnds.{FailsBy, Counts, IsSilent};

use crate::ending::{Ending, line_ending, rule_ending};
use crate::found::{Found, earlier};
use crate::here::Here;
use crate::known::Known;
use crate::line_fault::LineFault;
use lburg_lines::{Line, Section, Token};
use std::alloc::{AllocError, Global};

/// Why a line gives nothing.
pub(crate) enum LineError {
    /// An allocation was refused.
    Memory,
    /// Its first fault.
    Fault(LineFault),
}

impl From<AllocError> for LineError {
    ghost use Rattle.lburg_faults.specs.declared.line_check.LineError.TheVariants as error;

    ghost from_gives = { λ _ e. e ≡ error.Memory };

    fn from(_: AllocError) -> Self {
        LineError::Memory
    }
}

/// The line, or the first of its faults: what names mean counts before the grammar's end of it.
fn ended<'a>(end: Ending<'a>, found: Option<Found>) -> Result<Line<'a>, LineError>
    ensures ok { IfOk result (λ line. (found ≡ None) × (end.entry.line ≡ Ok line)) }
    ensures err { IfErr result (λ e. FailsBy found end.entry.line e) }
{
    match found {
        Some(found) => Err(LineError::Fault(found.fault)),
        None => match end.line {
            Ok(line) => Ok(line),
            Err(fault) => Err(LineError::Fault(fault)),
        },
    }
}

impl<'a> Known<'a> {
    /// A line that may declare.
    fn declaration<'t>(
        &mut self,
        alloc: Global,
        here: &Here<'a>,
        tokens: &'t [Token<'a>],
    ) -> Result<Line<'a>, LineError>
        requires { InDeclarations here.now.section }
        ensures found { IfOk result (λ line. (s : Setting) → Knows s.terminals s.before self.old → here.now.number ≡ length s.before + 1
            → IsSettingOf here.now.text.now s (record { section = here.now.section; tokens = views tokens.now })
            → NotesLine s (record { section = here.now.section; tokens = views tokens.now }) self.new (line_of line)) }
        ensures fault { IfErr result (λ e. (s : Setting) → Knows s.terminals s.before self.old → here.now.number ≡ length s.before + 1
            → IsSettingOf here.now.text.now s (record { section = here.now.section; tokens = views tokens.now })
            → LineFails s (record { section = here.now.section; tokens = views tokens.now }) e) }
    {
        let end = line_ending(alloc, here.section, tokens)?;
        let found = self.note_declaration(alloc, here, tokens, end.bound)?;
        ended(end, found)
    }

    /// Counts the line, if it is a rule.
    fn count(&mut self, line: &Line)
        ensures { Counts (line_of line.now) self.old self.new }
    {
        match line {
            Line::Rule(_) => self.rules = self.rules.saturating_add(1),
            Line::Blank => {}
            Line::Divider => {}
            Line::PrologueStart => {}
            Line::PrologueEnd => {}
            Line::Declaration(_) => {}
        }
    }

    /// A line of the rules.
    fn rule<'t>(&mut self, alloc: Global, tokens: &'t [Token<'a>]) -> Result<Line<'a>, LineError>
        ensures found { IfOk result (λ line. (s : Setting) → Knows s.terminals s.before self.old → s.terminals ≡ names_of (declared_in s.before)
            → NotesLine s (record { section = Section.Rules; tokens = views tokens.now }) self.new (line_of line)) }
        ensures fault { IfErr result (λ e. (s : Setting) → Knows s.terminals s.before self.old → s.terminals ≡ names_of (declared_in s.before)
            → LineFails s (record { section = Section.Rules; tokens = views tokens.now }) e) }
    {
        let end = rule_ending(alloc, tokens)?;
        let named = self.note_names(tokens, end.bound)?;
        let used = self.note_uses(alloc, tokens, end.bound)?;
        let line = ended(end, earlier(named, used))?;
        self.count(&line);
        Ok(line)
    }

    /// A line of a prologue or a tail.
    fn other<'t>(
        &mut self,
        alloc: Global,
        section: Section,
        tokens: &'t [Token<'a>],
    ) -> Result<Line<'a>, LineError>
        requires { IsSilent section }
        ensures found { IfOk result (λ line. (s : Setting) → Knows s.terminals s.before self.old
            → NotesLine s (record { section = section; tokens = views tokens.now }) self.new (line_of line)) }
        ensures fault { IfErr result (λ e. (s : Setting) → Knows s.terminals s.before self.old
            → LineFails s (record { section = section; tokens = views tokens.now }) e) }
    {
        ended(line_ending(alloc, section, tokens)?, None)
    }

    /// Notes what a line of the text declares, mentions and uses.
    pub(crate) fn note_line<'t>(
        &mut self,
        alloc: Global,
        here: &Here<'a>,
        tokens: &'t [Token<'a>],
    ) -> Result<Line<'a>, LineError>
        ensures found { IfOk result (λ line. (s : Setting) → Knows s.terminals s.before self.old → here.now.number ≡ length s.before + 1
            → IsSettingOf here.now.text.now s (record { section = here.now.section; tokens = views tokens.now })
            → NotesLine s (record { section = here.now.section; tokens = views tokens.now }) self.new (line_of line)) }
        ensures fault { IfErr result (λ e. (s : Setting) → Knows s.terminals s.before self.old → here.now.number ≡ length s.before + 1
            → IsSettingOf here.now.text.now s (record { section = here.now.section; tokens = views tokens.now })
            → LineFails s (record { section = here.now.section; tokens = views tokens.now }) e) }
    {
        match here.section {
            Section::Head => self.declaration(alloc, here, tokens),
            Section::Declarations => self.declaration(alloc, here, tokens),
            Section::Rules => self.rule(alloc, tokens),
            Section::Prologue => self.other(alloc, here.section, tokens),
            Section::Tail => self.other(alloc, here.section, tokens),
        }
    }
}
