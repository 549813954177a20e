//! Where the tokens of a line end by its grammar alone: whole, or at a fault.
ghost use Rattle.std.specs.Prelude.{◌≡◌, ◌<◌, ◌≤◌, ◌+◌, ◌∷◌, [], ℕ, List, Some, length, slice_get, IsTrue, IsErrOf, IfOk, IfSome, IfNone};
ghost use Rattle.lcc_text.specs.Decimal.{value_of};
ghost use Rattle.lburg_lines.specs.Tokens.{Tok, view, views};
ghost use Rattle.lburg_lines.specs.Grammar.{line_of, MRule, Ruled, Fixed as MFixed};
ghost use Rattle.lburg_lines.specs.Sections.{TokenLine};
ghost use Rattle.lburg_faults.specs.Lines.{has_template, words_in};
ghost use Rattle.lburg_faults.specs.BadToken.{IsForeign};
ghost use Rattle.lburg_faults.specs.Limits.{IsPatternLimit};
ghost use Rattle.lburg_faults.specs.Breaks.{Breaks};
ghost use Rattle.lburg_faults.specs.Grammatical.{EndsAt, IsEnding, IsSmall};

use crate::line_fault::LineFault;
use lburg_lines::{CostWritten, Line, ReadError, Section, Sign, Token, one_line, read_line};
use lcc_base::Which;
use lcc_text::decimal_value;
use std::alloc::{AllocError, Global};

/// The greatest cost of a rule.
const MOST_COST: u32 = 32_766;

/// A pattern has no more nodes.
const MOST_NODES: usize = 16;

/// What the grammar says of a line.
#[derive(Drop)]
pub(crate) struct Ending<'a> {
    /// What names mean counts at the tokens before this one.
    pub(crate) bound: usize,
    /// The line, or the fault where it ends.
    pub(crate) line: Result<Line<'a>, LineFault>,
}

/// Whether the token is none of descriptions.
fn is_foreign(token: &Token) -> bool
    ensures yes { IsTrue result → IsForeign (view token.now) }
    ensures no { IsForeign (view token.now) → IsTrue result }
{
    match token {
        Token::Bad => true,
        Token::Sign(Sign::OpenBracket) => true,
        Token::Sign(Sign::CloseBracket) => true,
        Token::Directive(name) => *name != b"start".as_slice() && *name != b"term".as_slice(),
        _ => false,
    }
}

/// Whether the token is a template.
fn is_template(token: &Token) -> bool
    ensures { result ≡ has_template (view token.now ∷ []) }
{
    match token {
        Token::Text(_) => true,
        Token::Name(_) => false,
        Token::Digits(_) => false,
        Token::Negative(_) => false,
        Token::Directive(_) => false,
        Token::Sign(_) => false,
        Token::Border(_) => false,
        Token::Bad => false,
    }
}

/// Whether the token is a name.
fn is_name(token: &Token) -> bool
    ensures yes { IsTrue result → words_in (view token.now ∷ []) ≡ 1 }
    ensures no { words_in (view token.now ∷ []) ≡ 1 → IsTrue result }
{
    match token {
        Token::Name(_) => true,
        Token::Text(_) => false,
        Token::Digits(_) => false,
        Token::Negative(_) => false,
        Token::Directive(_) => false,
        Token::Sign(_) => false,
        Token::Border(_) => false,
        Token::Bad => false,
    }
}

/// Whether the token at the place is a name behind a rule's left side and colon.
fn is_node(token: &Token, place: usize) -> bool
    ensures yes { IsTrue result → (2 ≤ place) × (words_in (view token.now ∷ []) ≡ 1) }
    ensures no { 2 ≤ place → words_in (view token.now ∷ []) ≡ 1 → IsTrue result }
{
    place >= 2 && is_name(token)
}

/// Whether a template stands among the tokens.
fn has_template(tokens: &[Token]) -> bool
    ensures { result ≡ has_template (views tokens.now) }
{
    for token in tokens {
        if is_template(token) {
            return true;
        }
    }
    false
}

/// Whether a token that is none of descriptions stands at the place.
fn is_foreign_at(tokens: &[Token], place: usize) -> bool
    ensures yes { IsTrue result → (t : Tok) × (slice_get (views tokens.now) place ≡ Some t) × IsForeign t }
    ensures no { (t : Tok) → slice_get (views tokens.now) place ≡ Some t → IsForeign t → IsTrue result }
{
    match tokens.get(place) {
        Some(token) => is_foreign(token),
        None => false,
    }
}

/// The fault of a line whose tokens break the grammar at the place.
fn break_at(tokens: &[Token], place: usize) -> LineFault
    requires { place ≤ length tokens.now }
    ensures { (l : TokenLine) → l.tokens ≡ views tokens.now → Breaks l place → EndsAt l place result }
{
    if is_foreign_at(tokens, place) {
        return LineFault::BadToken;
    }
    let (front, _) = tokens.split_at(place);
    if has_template(front) {
        LineFault::CostForm
    } else {
        LineFault::BadRule
    }
}

/// Whether the line is a rule with too large a cost.
fn costs_too_much(line: &Line) -> bool
    ensures yes { IsTrue result → (r : MRule) × (digits : List ℕ) × (line_of line.now ≡ Ruled r) × (r.cost ≡ MFixed digits)
        × (32766 < value_of digits) }
    ensures no { (r : MRule) (digits : List ℕ) → line_of line.now ≡ Ruled r → r.cost ≡ MFixed digits → 32766 < value_of digits
        → IsTrue result }
{
    match line {
        Line::Rule(rule) => match rule.cost {
            CostWritten::Fixed(digits) => decimal_value(digits, MOST_COST).is_none(),
            _ => false,
        },
        _ => false,
    }
}

/// Where the tokens of a line of the section end.
pub(crate) fn line_ending<'t, 'a>(
    alloc: Global,
    section: Section,
    tokens: &'t [Token<'a>],
) -> Result<Ending<'a>, AllocError>
    ensures { IfOk result (λ e. IsEnding (record { section = section; tokens = views tokens.now }) e) }
{
    match read_line(alloc, section, tokens) {
        Ok(line) => {
            // The tokens are those of no other line.
            one_line();
            if costs_too_much(&line) {
                return Ok(Ending {
                    bound: tokens.len(),
                    line: Err(LineFault::CostTooLarge),
                });
            }
            Ok(Ending {
                bound: tokens.len(),
                line: Ok(line),
            })
        }
        Err(ReadError::Stuck(left)) => {
            let place = tokens.len() - left;
            Ok(Ending {
                bound: place,
                line: Err(break_at(tokens, place)),
            })
        }
        Err(ReadError::Memory) => Err(AllocError),
    }
}

/// The place of the 17th name of the pattern of a rule, if it has so many.
fn node_too_many(tokens: &[Token]) -> Option<usize>
    ensures some { IfSome result (λ place. IsPatternLimit (record { section = Section.Rules; tokens = views tokens.now }) place × IsSmall (record { section = Section.Rules; tokens = views tokens.now }) place) }
    ensures none { IfNone result (IsSmall (record { section = Section.Rules; tokens = views tokens.now }) (length tokens.now)) }
{
    let mut nodes = 0;
    for (place, token) in tokens.iter().enumerate() {
        if is_template(token) {
            return None;
        }
        if is_node(token, place) {
            if nodes == MOST_NODES {
                return Some(place);
            }
            nodes += 1;
        }
    }
    None
}

/// Where the tokens of a line of the rules end. A pattern with too many nodes isn't read behind the
/// one too many, so what is read is never deep.
pub(crate) fn rule_ending<'t, 'a>(
    alloc: Global,
    tokens: &'t [Token<'a>],
) -> Result<Ending<'a>, AllocError>
    ensures ends { IfOk result (λ e. IsEnding (record { section = Section.Rules; tokens = views tokens.now }) e) }
    // A pattern has a node too many before the bound only where that is the fault.
    ensures small { IfOk result (λ e. (place : ℕ) → place < e.bound → IsPatternLimit (record { section = Section.Rules; tokens = views tokens.now }) place → (e.bound ≡ place + 1) × IsErrOf e.line (LineFault.Limit Which.Pattern)) }
{
    match node_too_many(tokens) {
        None => line_ending(alloc, Section::Rules, tokens),
        Some(place) => {
            let (front, _) = tokens.split_at(place + 1);
            let end = line_ending(alloc, Section::Rules, front)?;
            if end.bound <= place {
                return Ok(end);
            }
            Ok(Ending {
                bound: place + 1,
                line: Err(LineFault::Limit(Which::Pattern)),
            })
        }
    }
}
