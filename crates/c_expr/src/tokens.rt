//! What is next among tokens.
ghost use Rattle.std.specs.Prelude.{◌≡◌, ◌≤◌, ◌<◌, ◌∷◌, [], List, ℕ, true, false, length, IfOk, IfErr, IfSome, IfNone};
ghost use Rattle.c_ast.specs.Marks.{first_is, is_name, is_sign, is_text, lexemes};
ghost use Rattle.c_ast.specs.declared.class.Class.TheVariants.{Name as IsName, Text as IsText};
ghost use Rattle.c_lexer.specs.PlacedTokens.{placed};
ghost use Rattle.c_lexer.specs.SourceUnits.{bytes_of};
ghost use Rattle.c_lexer.specs.Texts.{text_of};
ghost use Rattle.c_readings.specs.Reading.{tail, line_of};

use crate::stop::Stop;
use c_ast::Class;
use c_lexer::{Token, bytes_of, text_values};
use lcc_base::{Bytes, Memory};
use std::alloc::Global;
use std::marker::Model;

/// The source that tokens are of, which contracts see as its bytes, and where trees are allocated.
#[derive(Drop)]
pub(crate) struct Text<'t> {
    pub(crate) alloc: Global,
    source: &'t [u8],
}

impl<'t> Model for Text<'t> {
    ghost use Rattle.std.specs.Prelude.{◌≤◌, ℕ, List, length};

    ghost Value = { List ℕ };

    ghost view = { λ t. t.source.now };

    ghost invariant = { λ t. length t.source.now ≤ 16777216 };
}

impl<'t> Text<'t> {
    /// The text of a source.
    pub(crate) fn new(alloc: Global, source: &'t [u8]) -> Self
        requires { length source.now ≤ 16777216 }
        ensures { result ≡ source.now }
    {
        Text { alloc, source }
    }

    /// The bytes of a token.
    pub(crate) fn bytes(&self, token: Token) -> &'t [u8]
        ensures { result.now ≡ bytes_of self.now token }
    {
        bytes_of(self.source, token)
    }

    /// A copy of the bytes of a token.
    pub(crate) fn name(&self, token: Token) -> Result<Bytes, Memory>
        ensures { IfOk result (λ b. b ≡ bytes_of self.now token) }
    {
        Bytes::copied(self.alloc, self.bytes(token))
    }

    /// The bytes that a string literal denotes.
    pub(crate) fn values(&self, token: Token) -> Result<Bytes, Memory>
        ensures { IfOk result (λ b. b ≡ text_of self.now token) }
    {
        text_values(self.alloc, self.source, token)
    }
}

/// No piece stands before these tokens.
pub(crate) fn no_parse(left: &[Token]) -> Stop {
    Stop::NoParse { left: left.len() }
}

/// No piece stands before the token that these are behind.
pub(crate) fn no_parse_before(behind: &[Token]) -> Stop {
    Stop::NoParse {
        left: behind.len().saturating_add(1),
    }
}

/// The token that is next, and those behind it.
pub(crate) fn first<'t>(tokens: &'t [Token]) -> Option<(Token, &'t [Token])>
    ensures some { IfSome result (λ r. tokens.now ≡ r.0 ∷ r.1.now) }
    ensures none { IfNone result (tokens.now ≡ []) }
{
    match tokens.split_first() {
        Some((first, rest)) => Some((*first, rest)),
        None => None,
    }
}

/// The tokens behind the sign of this number, where it is next.
pub(crate) fn after<'t>(text: &Text, tokens: &'t [Token], sign: u8) -> Option<&'t [Token]>
    ensures next { IfSome result (λ r. first_is (is_sign sign) (lexemes (placed text.now tokens.now)) ≡ true) }
    ensures rest { IfSome result (λ r. tail (placed text.now tokens.now) ≡ placed text.now r.now) }
    ensures shorter { IfSome result (λ r. length r.now < length tokens.now) }
    ensures none { IfNone result (first_is (is_sign sign) (lexemes (placed text.now tokens.now)) ≡ false) }
{
    match tokens.split_first() {
        Some((first, rest)) if first.class == Class::Sign(sign) => Some(rest),
        _ => None,
    }
}

/// The tokens behind the sign of this number, which has to be next.
pub(crate) fn expect<'t>(text: &Text, tokens: &'t [Token], sign: u8) -> Result<&'t [Token], Stop>
    ensures next { IfOk result (λ r. first_is (is_sign sign) (lexemes (placed text.now tokens.now)) ≡ true) }
    ensures rest { IfOk result (λ r. tail (placed text.now tokens.now) ≡ placed text.now r.now) }
    ensures shorter { IfOk result (λ r. length r.now < length tokens.now) }
    ensures none { IfErr result (λ e. first_is (is_sign sign) (lexemes (placed text.now tokens.now)) ≡ false) }
{
    match after(text, tokens, sign) {
        Some(rest) => Ok(rest),
        None => Err(no_parse(tokens)),
    }
}

/// The name that is next, and the tokens behind it.
pub(crate) fn name<'t>(text: &Text, tokens: &'t [Token]) -> Option<(Token, &'t [Token])>
    ensures some { IfSome result (λ r. tokens.now ≡ r.0 ∷ r.1.now) }
    ensures class { IfSome result (λ r. r.0.class ≡ IsName) }
    ensures none { IfNone result (first_is is_name (lexemes (placed text.now tokens.now)) ≡ false) }
{
    match tokens.split_first() {
        Some((first, rest)) if first.class == Class::Name => Some((*first, rest)),
        _ => None,
    }
}

/// The name that has to be next, and the tokens behind it.
pub(crate) fn expect_name<'t>(
    text: &Text,
    tokens: &'t [Token],
) -> Result<(Token, &'t [Token]), Stop>
    ensures some { IfOk result (λ r. tokens.now ≡ r.0 ∷ r.1.now) }
    ensures class { IfOk result (λ r. r.0.class ≡ IsName) }
    ensures none { IfErr result (λ e. first_is is_name (lexemes (placed text.now tokens.now)) ≡ false) }
{
    match name(text, tokens) {
        Some(found) => Ok(found),
        None => Err(no_parse(tokens)),
    }
}

/// The line of the token that is next, 0 where there is none.
pub(crate) fn line_of(tokens: &[Token]) -> u32
    ensures { (source : List ℕ) → result ≡ line_of (placed source tokens.now) }
{
    match tokens.first() {
        Some(token) => token.line,
        None => 0,
    }
}

/// The string literal that is next, and the tokens behind it.
pub(crate) fn next_literal<'t>(text: &Text, tokens: &'t [Token]) -> Option<(Token, &'t [Token])>
    ensures some { IfSome result (λ r. tokens.now ≡ r.0 ∷ r.1.now) }
    ensures class { IfSome result (λ r. r.0.class ≡ IsText) }
    ensures none { IfNone result (first_is is_text (lexemes (placed text.now tokens.now)) ≡ false) }
{
    match tokens.split_first() {
        Some((first, rest)) if first.class == Class::Text => Some((*first, rest)),
        _ => None,
    }
}
