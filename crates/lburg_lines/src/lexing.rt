//! The lexer of a description's lines: each token is the longest that stands there.
ghost use Rattle.std.specs.Prelude.{◌≡◌, ◌≢◌, ◌<◌, ◌≤◌, ◌∷◌, ◌++◌, List, ℕ, [], false, length, IsTrue, IfOk, IfSome, IfNone, OnOk};
ghost use Rattle.lcc_text.specs.Classes.{in_class, StartsIn, StopsIn};
ghost use Rattle.lcc_text.specs.declared.class.Class.TheVariants.{Letter, Digit, Blank};
ghost use Rattle.lburg_lines.specs.Tokens.{escapes_well, sign_code, view, views, Tok as Toks};
ghost use Rattle.lburg_lines.specs.Spelling.{IsNext, NoToken, Spells, SkipsBlanks};
ghost use Rattle.lburg_lines.specs.declared.token.Sign.{Sign as Signs};

use crate::quoted::Quoted;
use crate::token::{Sign, Token};
use lcc_text::{ByteClass, Class, run_len, starts_in};
use std::alloc::{AllocError, Global};

fn sign_of(byte: u8) -> Option<Sign>
    ensures some { IfSome result (λ s. sign_code s ≡ byte) }
    ensures none { IfNone result ((s : Signs) → sign_code s ≢ byte) }
{
    match byte {
        b'(' => Some(Sign::Open),
        b')' => Some(Sign::Close),
        b',' => Some(Sign::Comma),
        b':' => Some(Sign::Colon),
        b'=' => Some(Sign::Equals),
        b'[' => Some(Sign::OpenBracket),
        b']' => Some(Sign::CloseBracket),
        _ => None,
    }
}

#[tactic(auto, using(crate::proofs::lemmas::LongestTokens::word_next, crate::proofs::lemmas::LongestTokens::name_pos))]
fn word<'a>(bytes: &'a [u8]) -> (Token<'a>, &'a [u8])
    requires { StartsIn (in_class Letter) bytes.now }
    ensures next { IsNext bytes.now (view result.0) result.1.now }
    ensures shorter { length result.1.now < length bytes.now }
{
    let (name, rest) = bytes.split_at(run_len(Class::Name, bytes));
    (Token::Name(name), rest)
}

#[tactic(auto, using(crate::proofs::lemmas::LongestTokens::number_next, lcc_text::proofs::lemmas::Runs::run_pos))]
fn number<'a>(bytes: &'a [u8]) -> (Token<'a>, &'a [u8])
    requires { StartsIn (in_class Digit) bytes.now }
    ensures next { IsNext bytes.now (view result.0) result.1.now }
    ensures shorter { length result.1.now < length bytes.now }
{
    let (digits, rest) = bytes.split_at(run_len(Class::Digit, bytes));
    (Token::Digits(digits), rest)
}

/// The number, whose minus sign is gone.
#[tactic(auto, using(crate::proofs::lemmas::LongestTokens::negative_next, crate::proofs::lemmas::LongestTokens::no_negative))]
fn negative<'a>(bytes: &'a [u8]) -> Option<(Token<'a>, &'a [u8])>
    ensures some { IfSome result (λ x. IsNext (45 ∷ bytes.now) (view x.0) x.1.now) }
    ensures shorter { IfSome result (λ x. length x.1.now ≤ length bytes.now) }
    ensures none { IfNone result (NoToken (45 ∷ bytes.now)) }
{
    if !starts_in(Class::Digit, bytes) {
        return None;
    }
    let (digits, rest) = bytes.split_at(run_len(Class::Digit, bytes));
    Some((Token::Negative(digits), rest))
}

/// The keyword, whose percent sign is gone.
#[tactic(auto, using(crate::proofs::lemmas::LongestTokens::keyword_next, crate::proofs::lemmas::LongestTokens::no_keyword))]
fn keyword<'a>(bytes: &'a [u8]) -> Option<(Token<'a>, &'a [u8])>
    ensures some { IfSome result (λ x. IsNext (37 ∷ bytes.now) (view x.0) x.1.now) }
    ensures shorter { IfSome result (λ x. length x.1.now ≤ length bytes.now) }
    ensures none { IfNone result (NoToken (37 ∷ bytes.now)) }
{
    if !starts_in(Class::Letter, bytes) {
        return None;
    }
    let (name, rest) = bytes.split_at(run_len(Class::Name, bytes));
    Some((Token::Directive(name), rest))
}

/// What stands behind the quote, which is next.
fn after_quote<'a>(bytes: &'a [u8]) -> Option<&'a [u8]>
    ensures some { IfSome result (λ rest. bytes.now ≡ 34 ∷ rest.now) }
    ensures shorter { IfSome result (λ rest. length rest.now < length bytes.now) }
    ensures none { IfNone result ((rest : List ℕ) → bytes.now ≡ 34 ∷ rest → ⊥) }
{
    match bytes.split_first() {
        Some((first, rest)) if *first == b'"' => Some(rest),
        _ => None,
    }
}

/// Whether each backslash begins an escape: a line end, a tab or a backslash.
fn escapes_well(bytes: &[u8]) -> bool
    ensures { result ≡ escapes_well bytes.now }
{
    let mut rest = bytes;
    while let Some((first, behind)) = rest.split_first() {
        rest = behind;
        if *first == b'\\' {
            match behind.split_first() {
                Some((b'n' | b't' | b'\\', after)) => rest = after,
                _ => return false,
            }
        }
    }
    true
}

/// The template, whose first quote is gone.
#[tactic(auto, using(crate::proofs::lemmas::LongestTokens::text_next, crate::proofs::lemmas::LongestTokens::no_text))]
fn text<'a>(bytes: &'a [u8]) -> Option<(Token<'a>, &'a [u8])>
    ensures some { IfSome result (λ x. IsNext (34 ∷ bytes.now) (view x.0) x.1.now) }
    ensures shorter { IfSome result (λ x. length x.1.now ≤ length bytes.now) }
    ensures none { IfNone result (NoToken (34 ∷ bytes.now)) }
{
    let (text, rest) = bytes.split_at(run_len(Quoted, bytes));
    match after_quote(rest) {
        Some(rest) if escapes_well(text) => Some((Token::Text(text), rest)),
        _ => None,
    }
}

/// The longest token at the front, and the bytes behind it. None where no token begins.
#[tactic(auto, using(crate::proofs::lemmas::LongestTokens::sign_next, crate::proofs::lemmas::LongestTokens::none_next, crate::proofs::lemmas::LongestTokens::none_empty))]
fn next_token<'a>(bytes: &'a [u8]) -> Option<(Token<'a>, &'a [u8])>
    ensures some { IfSome result (λ x. IsNext bytes.now (view x.0) x.1.now) }
    ensures shorter { IfSome result (λ x. length x.1.now < length bytes.now) }
    ensures none { IfNone result (NoToken bytes.now) }
{
    let Some((first, rest)) = bytes.split_first() else {
        return None;
    };
    if Class::Letter.has(*first) {
        return Some(word(bytes));
    }
    if let Some(sign) = sign_of(*first) {
        return Some((Token::Sign(sign), rest));
    }
    if *first == b'"' {
        return text(rest);
    }
    if *first == b'%' {
        return keyword(rest);
    }
    if *first == b'-' {
        return negative(rest);
    }
    if Class::Digit.has(*first) {
        return Some(number(bytes));
    }
    None
}

#[tactic(auto, using(crate::proofs::Blanks::skips))]
fn skip_blanks<'a>(bytes: &'a [u8]) -> &'a [u8]
    ensures skips { SkipsBlanks bytes.now result.now }
    ensures stops { StopsIn (in_class Blank) result.now }
    ensures shorter { length result.now ≤ length bytes.now }
{
    let (_, rest) = bytes.split_at(run_len(Class::Blank, bytes));
    rest
}

/// Adds the tokens that the bytes spell, each the longest that stands there. Where none begins, the
/// last is `Bad`.
pub(crate) fn add_tokens<'a>(found: &mut Vec<Token<'a>>, bytes: &'a [u8]) -> Result<(), AllocError>
    ensures { OnOk result ((ts : List Toks) × (views found.new.items ≡ views found.old.items ++ ts) × Spells ts bytes.now) }
{
    let mut rest = bytes;
    loop {
        let behind = skip_blanks(rest);
        if behind.is_empty() {
            return Ok(());
        }
        match next_token(behind) {
            Some((token, after)) => {
                found.push(token)?;
                rest = after;
            }
            None => {
                found.push(Token::Bad)?;
                return Ok(());
            }
        }
    }
}

/// The tokens that the bytes spell, each the longest that stands there, with blanks between them.
/// Where none begins, the last is `Bad`.
pub fn tokens<'a>(alloc: Global, bytes: &'a [u8]) -> Result<Vec<Token<'a>>, AllocError>
    ensures { IfOk result (λ ts. Spells (views ts.items) bytes.now) }
{
    let mut found = Vec::new(alloc);
    add_tokens(&mut found, bytes)?;
    Ok(found)
}

/// Puts the tokens that the bytes spell into a list in the place of those that it holds, as `tokens`
/// gives them. So the room of one list serves line after line.
pub fn replace_tokens<'a>(found: &mut Vec<Token<'a>>, bytes: &'a [u8]) -> Result<(), AllocError>
    ensures { OnOk result (Spells (views found.new.items) bytes.now) }
{
    found.clear();
    add_tokens(found, bytes)
}

/// Bytes spell no two lists of tokens.
pub fn one_spelling()
    ensures { (ts us : List Toks) (bytes : List ℕ) → Spells ts bytes → Spells us bytes → ts ≡ us }
{}
