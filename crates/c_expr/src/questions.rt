//! What is next, where a reader has to choose.
ghost use Rattle.std.specs.Prelude.{◌≡◌, ◌<◌, true, false, not, length, IfSome, IfNone};
ghost use Rattle.c_ast.specs.Marks.{IsSpecifier, IsSized, IsDeclarator, IsCore, IsSuffix, first_is, is_sign, lexemes};
ghost use Rattle.c_ast.specs.InForce.{nothing_in_force};
ghost use Rattle.c_lexer.specs.PlacedTokens.{placed};
ghost use Rattle.c_readings.specs.Reading.{answer, tail};
ghost use Rattle.c_readings.specs.Readers.{is_plain, goes_on_without};
ghost use Rattle.c_expr.specs.Answers.{at};

use crate::tokens::{Text, after, name};
use crate::words::word_of;
use c_ast::{Class, sign};
use c_lexer::Token;
use names_in_force::Names;

/// Whether one more specifier is next, behind others of which one said a type, or none.
pub(crate) fn begins_specifier(text: &Text, names: &Names, typed: bool, tokens: &[Token]) -> bool
    ensures { result ≡ answer (IsSpecifier typed) (at names.now text.now tokens.now) }
{
    match tokens.first() {
        Some(token) => match token.class {
            Class::Name => !typed && names.is_typedef(text.bytes(*token)),
            Class::Keyword(keyword) => word_of(keyword).is_some(),
            _ => false,
        },
        None => false,
    }
}

/// Whether a type's name in parentheses is next.
pub(crate) fn begins_type(text: &Text, names: &Names, tokens: &[Token]) -> bool
    ensures { result ≡ answer IsSized (at names.now text.now tokens.now) }
{
    match after(text, tokens, sign::OPEN) {
        Some(rest) => begins_specifier(text, names, false, rest),
        None => false,
    }
}

/// Whether a declarator is next.
pub(crate) fn begins_declarator(text: &Text, names: &Names, tokens: &[Token]) -> bool
    ensures { result ≡ answer IsDeclarator (at names.now text.now tokens.now) }
{
    match tokens.first() {
        Some(token) => match token.class {
            Class::Name => true,
            Class::Sign(sign) => {
                sign == sign::STAR || sign == sign::OPEN || sign == sign::OPEN_BRACKET
            }
            _ => false,
        },
        None => false,
    }
}

/// Whether a declared name is next, or a declarator in parentheses.
pub(crate) fn begins_core(text: &Text, names: &Names, tokens: &[Token]) -> bool
    ensures { result ≡ answer IsCore (at names.now text.now tokens.now) }
{
    if name(text, tokens).is_some() {
        return true;
    }
    match after(text, tokens, sign::OPEN) {
        Some(rest) => {
            after(text, rest, sign::CLOSE).is_none() && !begins_specifier(text, names, false, rest)
        }
        None => false,
    }
}

/// Whether a suffix of a declarator is next.
pub(crate) fn begins_suffix(text: &Text, names: &Names, tokens: &[Token]) -> bool
    ensures { result ≡ answer IsSuffix (at names.now text.now tokens.now) }
{
    after(text, tokens, sign::OPEN_BRACKET).is_some() || after(text, tokens, sign::OPEN).is_some()
}

/// Whether a name is next that is no typedef name.
pub(crate) fn begins_names(text: &Text, names: &Names, tokens: &[Token]) -> bool
    ensures { result ≡ first_is (is_plain names.now) (lexemes (placed text.now tokens.now)) }
{
    match name(text, tokens) {
        Some((token, _)) => !names.is_typedef(text.bytes(token)),
        None => false,
    }
}

/// The tokens behind the comma that is next, where this sign isn't next behind it.
pub(crate) fn after_comma<'t>(text: &Text, tokens: &'t [Token], sign: u8) -> Option<&'t [Token]>
    ensures next { IfSome result (λ r. goes_on_without sign (at nothing_in_force text.now tokens.now) ≡ true) }
    ensures rest { IfSome result (λ r. tail (placed text.now tokens.now) ≡ placed text.now r.now) }
    ensures shorter { IfSome result (λ r. length r.now < length tokens.now) }
    ensures none { IfNone result (goes_on_without sign (at nothing_in_force text.now tokens.now) ≡ false) }
{
    let behind = after(text, tokens, sign::COMMA)?;
    match after(text, behind, sign) {
        Some(_) => None,
        None => Some(behind),
    }
}

/// Whether another token than this sign is next, or none.
pub(crate) fn is_elsewhere(text: &Text, tokens: &[Token], sign: u8) -> bool
    ensures { result ≡ not (first_is (is_sign sign) (lexemes (placed text.now tokens.now))) }
{
    after(text, tokens, sign).is_none()
}
