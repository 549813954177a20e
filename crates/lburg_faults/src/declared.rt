//! Whether a text declares a terminal of a name, in whichever line.
ghost use Rattle.std.specs.Prelude.{◌≡◌, ◌≢◌, ◌≤◌, ◌∷◌, [], false, List, ℕ, Some, length, drop, IsTrue, IfOk, IfSome, IfNone};
ghost use Rattle.lcc_text.specs.Stops.{next};
ghost use Rattle.lburg_lines.specs.Tokens.{Number, views};
ghost use Rattle.lburg_lines.specs.Sections.{TokenLine, AreLinesFrom};
ghost use Rattle.lburg_lines.specs.declared.section.Section.TheVariants.{Tail};
ghost use Rattle.lburg_faults.specs.Terminals.{Among, behind_term, declared_by, declared_in, names_of, numbered};
ghost use Rattle.lburg_faults.specs.Telling.{TextDeclares};

use crate::directive::after_keyword;
use lburg_lines::{Section, Sign, Token, after_sign, line_tokens, name_at, one_text};
use lcc_text::next_line;
use std::alloc::{AllocError, Global};

/// What stands behind the decimal digits, which are next.
fn after_digits<'t, 'a>(tokens: &'t [Token<'a>]) -> Option<&'t [Token<'a>]>
    ensures some { IfSome result (λ rest. (digits : List ℕ) × (views tokens.now ≡ Number digits ∷ views rest.now)) }
    ensures none { IfNone result ((digits : _) → next (views tokens.now) ≢ Some (Number digits)) }
{
    match tokens.split_first() {
        Some((Token::Digits(_), rest)) => Some(rest),
        _ => None,
    }
}

/// The name of the terminal that the next three tokens declare.
fn terminal_at<'t, 'a>(tokens: &'t [Token<'a>]) -> Option<&'a [u8]>
    ensures some { IfSome result (λ name. names_of (numbered (views tokens.now)) ≡ name.now ∷ names_of (numbered (views (drop 3 tokens.now)))) }
    ensures long { IfSome result (λ _. 3 ≤ length tokens.now) }
    ensures none { IfNone result (names_of (numbered (views tokens.now)) ≡ []) }
{
    match name_at(tokens) {
        Err(_) => None,
        Ok((name, rest)) => match after_sign(rest, Sign::Equals) {
            Err(_) => None,
            Ok(rest) => match after_digits(rest) {
                None => None,
                Some(_) => Some(name),
            },
        },
    }
}

/// Whether the tokens behind `%term` declare a terminal of the name, as far as they follow the grammar.
fn declares<'t, 'a>(tokens: &'t [Token<'a>], name: &[u8]) -> bool
    ensures yes { IsTrue result → Among name.now (names_of (numbered (views tokens.now))) }
    ensures no { Among name.now (names_of (numbered (views tokens.now))) → IsTrue result }
{
    let mut at = 0;
    while at < tokens.len() {
        let (_, rest) = tokens.split_at(at);
        let Some(other) = terminal_at(rest) else {
            return false;
        };
        if other == name {
            return true;
        }
        at += 3;
    }
    false
}

/// Whether a line with these tokens, where terminals may be declared, declares one of the name.
fn term_declares<'t, 'a>(tokens: &'t [Token<'a>], name: &[u8]) -> bool
    ensures yes { IsTrue result → Among name.now (names_of (behind_term (views tokens.now))) }
    ensures no { Among name.now (names_of (behind_term (views tokens.now))) → IsTrue result }
{
    match after_keyword(tokens, b"term".as_slice()) {
        Some(rest) => declares(rest, name),
        None => false,
    }
}

/// Whether a line of the section declares a terminal of the name.
fn line_declares<'t, 'a>(section: Section, tokens: &'t [Token<'a>], name: &[u8]) -> bool
    ensures yes { IsTrue result → Among name.now (names_of (declared_by section (views tokens.now))) }
    ensures no { Among name.now (names_of (declared_by section (views tokens.now))) → IsTrue result }
{
    match section {
        Section::Head => term_declares(tokens, name),
        Section::Declarations => term_declares(tokens, name),
        Section::Prologue => false,
        Section::Rules => false,
        Section::Tail => false,
    }
}

/// Whether no line declares from this section on.
fn is_behind_declarations(section: Section) -> bool
    ensures yes { IsTrue result → (lines : List (List ℕ)) (all : List TokenLine) → AreLinesFrom section lines all → declared_in all ≡ [] }
    ensures no { result ≡ false → section ≢ Tail }
{
    match section {
        Section::Head => false,
        Section::Prologue => false,
        Section::Declarations => false,
        Section::Rules => true,
        Section::Tail => true,
    }
}

/// Whether the text declares a terminal of the name.
pub(crate) fn is_declared<'a>(
    alloc: Global,
    text: &'a [u8],
    name: &[u8],
) -> Result<bool, AllocError>
    ensures yes { IfOk result (λ b. IsTrue b → (terminals : List (List ℕ)) → TextDeclares text.now terminals → Among name.now terminals) }
    ensures no { IfOk result (λ b. (terminals : List (List ℕ)) → TextDeclares text.now terminals → Among name.now terminals → IsTrue b) }
{
    one_text();
    let mut section = Section::Head;
    let mut rest = text;
    while let Some((line, behind)) = next_line(rest) {
        if is_behind_declarations(section) {
            return Ok(false);
        }
        let tokens = line_tokens(alloc, section, line)?;
        if line_declares(section, &tokens, name) {
            return Ok(true);
        }
        section = section.behind(&tokens);
        rest = behind;
    }
    Ok(false)
}
