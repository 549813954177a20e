//! What is next before a parser's place.
ghost use Rattle.std.specs.Prelude.{◌≡◌, ◌<◌, ◌∷◌, [], length, false, IfSome, IfNone};
ghost use Rattle.c_ast.specs.Marks.{IsSign, IsSpecifier, IsDeclaration, IsLabel};
ghost use Rattle.c_ast.specs.InForce.{nothing_in_force};
ghost use Rattle.c_ast.specs.Lexemes.{Keyword};
ghost use Rattle.c_ast.specs.Marks.{is_specifier};
ghost use Rattle.c_lexer.specs.PlacedTokens.{placed_of};
ghost use Rattle.c_readings.specs.Reading.{answer, beyond, here};
ghost use Rattle.c_readings.specs.Readers.{goes_on_without};
ghost use Rattle.c_expr.specs.State.{ahead};

use c_ast::{Class, sign};
use c_expr::Parser;
use c_lexer::Token;

/// The token that is next.
pub fn first(p: &Parser) -> Option<Token>
    ensures some { IfSome result (λ t. (ahead p.now).rest ≡ placed_of p.now.source t ∷ (beyond (ahead p.now)).rest) }
    ensures none { IfNone result ((ahead p.now).rest ≡ []) }
    ensures left { IfSome result (λ t. p.now.place < length p.now.tokens) }
{
    p.token()
}

/// The token behind the next one.
pub(crate) fn second(p: &Parser) -> Option<Token>
    ensures some { IfSome result (λ t. (beyond (ahead p.now)).rest ≡ placed_of p.now.source t ∷ (beyond (beyond (ahead p.now))).rest) }
    ensures none { IfNone result ((beyond (ahead p.now)).rest ≡ []) }
{
    p.after()
}

/// The line of the token that is next, 0 where there is none.
pub fn line_at(p: &Parser) -> u32
    ensures { result ≡ here (ahead p.now) }
{
    match first(p) {
        Some(token) => token.line,
        None => 0,
    }
}

/// Whether the sign of this number is next.
pub fn is_sign(p: &Parser, number: u8) -> bool
    ensures { result ≡ answer (IsSign number) (ahead p.now) }
{
    match first(p) {
        Some(token) => token.class == Class::Sign(number),
        None => false,
    }
}

/// Whether a name before `:` is next.
pub fn is_label(p: &Parser) -> bool
    ensures { result ≡ answer IsLabel (ahead p.now) }
{
    match first(p) {
        Some(token) if token.class == Class::Name => match second(p) {
            Some(behind) => behind.class == Class::Sign(sign::COLON),
            None => false,
        },
        _ => false,
    }
}

/// Whether the keyword of this number is a specifier.
fn is_specifier_word(number: u8) -> bool
    ensures { result ≡ is_specifier nothing_in_force false (Keyword number) }
{
    matches!(
        number,
        0 | 3 | 4 | 8 | 10 | 11 | 12 | 16 | 17 | 18 | 20 | 21 | 23 | 24 | 26 | 27 | 28 | 29 | 30
    )
}

/// Whether a specifier is next: a keyword that is one, or a typedef name.
pub fn begins_specifier(p: &Parser) -> bool
    ensures { result ≡ answer (IsSpecifier false) (ahead p.now) }
{
    match first(p) {
        Some(token) => match token.class {
            Class::Name => p.names_type(token),
            Class::Keyword(number) => is_specifier_word(number),
            _ => false,
        },
        None => false,
    }
}

/// Whether a declaration is next, and no label.
pub(crate) fn begins_declaration(p: &Parser) -> bool
    ensures { result ≡ answer IsDeclaration (ahead p.now) }
{
    begins_specifier(p) && !is_label(p)
}

/// Whether a comma is next, and behind it isn't the sign of this number.
pub(crate) fn goes_on_before(p: &Parser, number: u8) -> bool
    ensures { result ≡ goes_on_without number (ahead p.now) }
{
    if !is_sign(p, sign::COMMA) {
        return false;
    }
    match second(p) {
        Some(behind) => behind.class != Class::Sign(number),
        None => true,
    }
}
