//! The parser of a line of declarations, `%start` or `%term`.
ghost use Rattle.std.specs.Prelude.{◌≡◌, ◌≢◌, ◌≤◌, ◌<◌, ◌∷◌, length, drop, map, codes, IfOk, IfErr};
ghost use Rattle.lburg_lines.specs.declared.token.Sign.TheVariants.{Equals};
ghost use Rattle.lburg_lines.specs.Tokens.{Word, Mark, Number, views};
ghost use Rattle.lburg_lines.specs.Grammar.{declaration_of, declaration_tokens, numbered_of, terminal_tokens};
ghost use Rattle.lburg_lines.specs.Readings.{TerminalsFault, DeclarationFault};

use crate::declaration::{Declaration, NamedNumber};
use crate::read_error::ReadError;
use crate::readers::{after_keyword, after_sign, digits_at, end_of, name_at};
use crate::token::{Sign, Token};
use std::alloc::Global;

/// The terminal that is next, three tokens, of a line that goes on.
fn terminal_at<'t, 'a>(tokens: &'t [Token<'a>]) -> Result<NamedNumber<'a>, ReadError>
    requires { 1 ≤ length tokens.now }
    ensures ok { IfOk result (λ t. views tokens.now ≡ Word t.name.now ∷ (Mark Equals ∷ (Number t.digits.now ∷ views (drop 3 tokens.now)))) }
    ensures long { IfOk result (λ _. 3 ≤ length tokens.now) }
    ensures stuck { IfErr result (λ e. TerminalsFault e (views tokens.now)) }
{
    let (name, rest) = name_at(tokens)?;
    let rest = after_sign(rest, Sign::Equals)?;
    let (digits, _) = digits_at(rest)?;
    Ok(NamedNumber { name, digits })
}

/// The terminals that all of the tokens spell.
fn terminals_at<'t, 'a>(
    alloc: Global,
    tokens: &'t [Token<'a>],
) -> Result<Vec<NamedNumber<'a>>, ReadError>
    ensures ok { IfOk result (λ all. views tokens.now ≡ terminal_tokens (map numbered_of all.items)) }
    ensures stuck { IfErr result (λ e. TerminalsFault e (views tokens.now)) }
{
    let mut found = Vec::new(alloc);
    let mut at = 0;
    while at < tokens.len() {
        let (_, rest) = tokens.split_at(at);
        let terminal = terminal_at(rest)?;
        found.push(terminal)?;
        at += 3;
    }
    Ok(found)
}

/// The declaration that all of the tokens spell.
pub(crate) fn declaration_at<'t, 'a>(
    alloc: Global,
    tokens: &'t [Token<'a>],
) -> Result<Declaration<'a>, ReadError>
    ensures found { IfOk result (λ d. views tokens.now ≡ declaration_tokens (declaration_of d)) }
    ensures stuck { IfErr result (λ e. DeclarationFault e (views tokens.now)) }
{
    match after_keyword(tokens, b"start") {
        Ok(rest) => {
            let (name, rest) = name_at(rest)?;
            end_of(rest)?;
            Ok(Declaration::Start(name))
        }
        Err(_) => {
            let rest = after_keyword(tokens, b"term")?;
            let terminals = terminals_at(alloc, rest)?;
            Ok(Declaration::Terminals(terminals))
        }
    }
}
