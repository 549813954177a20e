//! A line of each section, from its tokens.
ghost use Rattle.std.specs.Prelude.{◌≡◌, List, IfOk, IfErr};
ghost use Rattle.lburg_lines.specs.Tokens.{Tok as Toks, views};
ghost use Rattle.lburg_lines.specs.Grammar.{MLine, IsLine, line_of};
ghost use Rattle.lburg_lines.specs.Readings.{LineFault};
ghost use Rattle.lburg_lines.specs.declared.section.Section.{Section as Sections};

use crate::declaration_reader::declaration_at;
use crate::line::Line;
use crate::read_error::ReadError;
use crate::readers::{after_border, end_of};
use crate::rule_reader::rule_at;
use crate::section::Section;
use crate::token::{Border, Token};
use std::alloc::Global;

/// A line that may open a prologue.
fn head_line<'t, 'a>(alloc: Global, tokens: &'t [Token<'a>]) -> Result<Line<'a>, ReadError>
    ensures found { IfOk result (λ line. IsLine Section.Head (views tokens.now) (line_of line)) }
    ensures stuck { IfErr result (λ e. LineFault Section.Head e (views tokens.now)) }
{
    match after_border(tokens, Border::PrologueStart) {
        Ok(rest) => {
            end_of(rest)?;
            Ok(Line::PrologueStart)
        }
        Err(_) => declaration_line(alloc, tokens),
    }
}

/// A line of a prologue.
fn prologue_line<'a>(tokens: &[Token<'a>]) -> Result<Line<'a>, ReadError>
    ensures found { IfOk result (λ line. IsLine Section.Prologue (views tokens.now) (line_of line)) }
    ensures stuck { IfErr result (λ e. LineFault Section.Prologue e (views tokens.now)) }
{
    if tokens.is_empty() {
        return Ok(Line::Blank);
    }
    let rest = after_border(tokens, Border::PrologueEnd)?;
    end_of(rest)?;
    Ok(Line::PrologueEnd)
}

/// A line of declarations.
fn declaration_line<'t, 'a>(alloc: Global, tokens: &'t [Token<'a>]) -> Result<Line<'a>, ReadError>
    ensures found { IfOk result (λ line. IsLine Section.Declarations (views tokens.now) (line_of line)) }
    ensures stuck { IfErr result (λ e. LineFault Section.Declarations e (views tokens.now)) }
{
    if tokens.is_empty() {
        return Ok(Line::Blank);
    }
    match after_border(tokens, Border::Divider) {
        Ok(rest) => {
            end_of(rest)?;
            Ok(Line::Divider)
        }
        Err(_) => Ok(Line::Declaration(declaration_at(alloc, tokens)?)),
    }
}

/// A line of rules.
fn rule_line<'t, 'a>(alloc: Global, tokens: &'t [Token<'a>]) -> Result<Line<'a>, ReadError>
    ensures found { IfOk result (λ line. IsLine Section.Rules (views tokens.now) (line_of line)) }
    ensures stuck { IfErr result (λ e. LineFault Section.Rules e (views tokens.now)) }
{
    if tokens.is_empty() {
        return Ok(Line::Blank);
    }
    match after_border(tokens, Border::Divider) {
        Ok(rest) => {
            end_of(rest)?;
            Ok(Line::Divider)
        }
        Err(_) => Ok(Line::Rule(rule_at(alloc, tokens)?)),
    }
}

/// The line of the section that the tokens are, of any size: `Stuck` with the number of tokens that are
/// left where they can't go on, the first of these can't or, where none is left, one is missing.
/// It is called as deep as a rule's parentheses nest, so a caller looks first that there are few.
pub fn read_line<'t, 'a>(
    alloc: Global,
    section: Section,
    tokens: &'t [Token<'a>],
) -> Result<Line<'a>, ReadError>
    // What is read is what the tokens are.
    ensures found { IfOk result (λ line. IsLine section (views tokens.now) (line_of line)) }
    // They stop being those of a line of the section there.
    ensures stuck { IfErr result (λ e. LineFault section e (views tokens.now)) }
{
    match section {
        Section::Head => head_line(alloc, tokens),
        Section::Prologue => prologue_line(tokens),
        Section::Declarations => declaration_line(alloc, tokens),
        Section::Rules => rule_line(alloc, tokens),
        Section::Tail => {
            end_of(tokens)?;
            Ok(Line::Blank)
        }
    }
}

/// A list of tokens is one line of a section at most.
pub fn one_line()
    ensures { (section : Sections) (tokens : List Toks) (a b : MLine) → IsLine section tokens a → IsLine section tokens b → a ≡ b }
{}
