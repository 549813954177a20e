//! The tokens of a line of a description.
ghost use Rattle.std.specs.Prelude.{◌≡◌, ◌∷◌, List, ℕ, [], IfOk};
ghost use Rattle.lburg_lines.specs.Tokens.{view, views};
ghost use Rattle.lburg_lines.specs.Sections.{border_at, AreLinesFrom, SpellsIn, SpellsLine, TokenLine};
ghost use Rattle.lburg_lines.specs.declared.section.Section.{Section as Sections};

use crate::lexing::add_tokens;
use crate::section::Section;
use crate::token::{Border, Token};
use std::alloc::{AllocError, Global};

/// The border with which the line begins, if it does.
fn border_at(line: &[u8]) -> Option<Border>
    ensures { result ≡ border_at line.now }
{
    match line {
        [b'%', b'%', ..] => Some(Border::Divider),
        [b'%', b'{', ..] => Some(Border::PrologueStart),
        [b'%', b'}', ..] => Some(Border::PrologueEnd),
        _ => None,
    }
}

/// The tokens of a line that begins with this border, or with none.
fn tokens_behind<'a>(
    alloc: Global,
    border: Option<Border>,
    line: &'a [u8],
) -> Result<Vec<Token<'a>>, AllocError>
    requires { border ≡ border_at line.now }
    ensures { IfOk result (λ ts. SpellsLine (views ts.items) line.now) }
{
    let mut found = Vec::new(alloc);
    match border {
        None => add_tokens(&mut found, line)?,
        Some(border) => {
            let (_, rest) = line.split_at(2);
            found.push(Token::Border(border))?;
            add_tokens(&mut found, rest)?;
        }
    }
    Ok(found)
}

/// One token.
fn one_token<'a>(alloc: Global, token: Token<'a>) -> Result<Vec<Token<'a>>, AllocError>
    ensures { IfOk result (λ ts. views ts.items ≡ view token.entry ∷ []) }
{
    let mut found = Vec::new(alloc);
    found.push(token)?;
    Ok(found)
}

/// The tokens of a line of the section, each the longest that stands there. Where none begins, the
/// last is `Bad`. `%%`, `%{` and `%}` are tokens at the first byte of a line alone. Behind a `%{` that
/// opens a prologue nothing counts, and in a prologue nothing but the line that begins with `%}`.
pub fn line_tokens<'a>(
    alloc: Global,
    section: Section,
    line: &'a [u8],
) -> Result<Vec<Token<'a>>, AllocError>
    ensures { IfOk result (λ ts. SpellsIn section (views ts.items) line.now) }
{
    let border = border_at(line);
    match (section, border) {
        (Section::Head, Some(Border::PrologueStart)) => {
            one_token(alloc, Token::Border(Border::PrologueStart))
        }
        (Section::Prologue, Some(Border::PrologueEnd)) => tokens_behind(alloc, border, line),
        (Section::Prologue, _) => Ok(Vec::new(alloc)),
        _ => tokens_behind(alloc, border, line),
    }
}

/// A text has one list of lines from a section on.
pub fn one_text()
    ensures { (section : Sections) (lines : List (List ℕ)) (a b : List TokenLine) → AreLinesFrom section lines a → AreLinesFrom section lines b → a ≡ b }
{}
