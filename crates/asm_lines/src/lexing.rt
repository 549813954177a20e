//! The lexer of assembly: a line is cut from the left into blanks, tokens and a remark.
ghost use Rattle.std.specs.Prelude.{◌≡◌, ◌≢◌, ◌<◌, ◌≤◌, ◌∷◌, ◌++◌, [], List, ℕ, false, length, IsTrue, IfSome, IfNone, OnOk};
ghost use Rattle.lcc_text.specs.Classes.{in_class, StartsIn, StopsIn};
ghost use Rattle.lcc_text.specs.declared.class.Class.TheVariants.{Digit};
ghost use Rattle.asm_lines.specs.Classes.{in_asm};
ghost use Rattle.asm_lines.specs.declared.class.AsmClass.TheVariants.{Symbol, Space};
ghost use Rattle.asm_lines.specs.Tokens.{Hexadecimal, text_of, tok_of, IsToken, views};
ghost use Rattle.asm_lines.specs.declared.token.Kind.{Kind as Kinds};
ghost use Rattle.asm_lines.specs.Spelling.{IsNext, NoToken, IsRemark, Starts, SkipsSpaces, Spells};

use crate::class::AsmClass;
use crate::token::{Kind, Token};
use lcc_base::Memory;
use lcc_text::{ByteClass, Class, run_len, starts_in};

/// A token at the front, and what stands behind it.
#[derive(Clone, Copy, Debug)]
struct Next<'a> {
    kind: Kind,
    text: &'a [u8],
    rest: &'a [u8],
}

/// The kind of the sign that is this byte.
#[tactic(auto, using(crate::proofs::lemmas::Next::no_sign))]
fn sign_of(byte: u8) -> Option<Kind>
    ensures some { IfSome result (λ k. IsToken (tok_of k []) × (text_of (tok_of k []) ≡ byte ∷ [])) }
    ensures none { IfNone result ((k : Kinds) → IsToken (tok_of k []) → text_of (tok_of k []) ≢ byte ∷ []) }
{
    match byte {
        b':' => Some(Kind::Colon),
        b',' => Some(Kind::Comma),
        b'(' => Some(Kind::Open),
        b')' => Some(Kind::Close),
        b'+' => Some(Kind::Plus),
        b'-' => Some(Kind::Minus),
        _ => None,
    }
}

/// The name at the front.
#[tactic(auto, using(crate::proofs::lemmas::Next::word_next, lcc_text::proofs::lemmas::Runs::run_pos))]
fn word<'a>(bytes: &'a [u8]) -> Next<'a>
    requires symbol { StartsIn (in_asm Symbol) bytes.now }
    requires no_digit { StopsIn (in_class Digit) bytes.now }
    ensures next { IsNext bytes.now (tok_of result.kind result.text.now) result.rest.now }
    ensures shorter { length result.rest.now < length bytes.now }
{
    let (text, rest) = bytes.split_at(run_len(AsmClass::Symbol, bytes));
    Next {
        kind: Kind::Word,
        text,
        rest,
    }
}

/// The hexadecimal digits behind `0x` at the front.
#[tactic(auto, using(crate::proofs::lemmas::Next::hex_behind, crate::proofs::lemmas::Next::no_hex))]
fn hexadecimal<'a>(bytes: &'a [u8]) -> Option<Next<'a>>
    ensures some { IfSome result (λ x. IsNext bytes.now (tok_of x.kind x.text.now) x.rest.now) }
    ensures shorter { IfSome result (λ x. length x.rest.now < length bytes.now) }
    ensures none { IfNone result ((digits rest : List ℕ) → IsToken (Hexadecimal digits) → bytes.now ≢ text_of (Hexadecimal digits) ++ rest) }
{
    match bytes {
        [b'0', b'x', digits @ ..] => {
            if !starts_in(AsmClass::HexDigit, digits) {
                return None;
            }
            let (text, rest) = digits.split_at(run_len(AsmClass::HexDigit, digits));
            Some(Next {
                kind: Kind::Hexadecimal,
                text,
                rest,
            })
        }
        _ => None,
    }
}

/// The number at the front.
#[tactic(auto, using(crate::proofs::lemmas::Next::decimal_next, lcc_text::proofs::lemmas::Runs::run_pos))]
fn number<'a>(bytes: &'a [u8]) -> Next<'a>
    requires { StartsIn (in_class Digit) bytes.now }
    ensures next { IsNext bytes.now (tok_of result.kind result.text.now) result.rest.now }
    ensures shorter { length result.rest.now < length bytes.now }
{
    match hexadecimal(bytes) {
        Some(next) => next,
        None => {
            let (text, rest) = bytes.split_at(run_len(Class::Digit, bytes));
            Next {
                kind: Kind::Decimal,
                text,
                rest,
            }
        }
    }
}

/// The name of a register, whose dollar sign is gone.
#[tactic(auto, using(crate::proofs::lemmas::Next::dollar_next, crate::proofs::lemmas::Next::no_dollar))]
fn dollar<'a>(bytes: &'a [u8]) -> Option<Next<'a>>
    ensures some { IfSome result (λ x. IsNext (36 ∷ bytes.now) (tok_of x.kind x.text.now) x.rest.now) }
    ensures shorter { IfSome result (λ x. length x.rest.now ≤ length bytes.now) }
    ensures none { IfNone result (NoToken (36 ∷ bytes.now)) }
{
    if !starts_in(AsmClass::Symbol, bytes) {
        return None;
    }
    let (text, rest) = bytes.split_at(run_len(AsmClass::Symbol, bytes));
    Some(Next {
        kind: Kind::Dollar,
        text,
        rest,
    })
}

/// The longest token at the front, and the bytes behind it. None where no token begins.
#[tactic(auto, using(crate::proofs::lemmas::Next::sign_next, crate::proofs::lemmas::Next::none_next, crate::proofs::lemmas::Next::none_empty))]
fn next_token<'a>(bytes: &'a [u8]) -> Option<Next<'a>>
    ensures some { IfSome result (λ x. IsNext bytes.now (tok_of x.kind x.text.now) x.rest.now) }
    ensures shorter { IfSome result (λ x. length x.rest.now < length bytes.now) }
    ensures none { IfNone result (NoToken bytes.now) }
{
    let (first, rest) = bytes.split_first()?;
    if let Some(kind) = sign_of(*first) {
        return Some(Next {
            kind,
            text: &[],
            rest,
        });
    }
    if *first == b'$' {
        return dollar(rest);
    }
    if Class::Digit.has(*first) {
        return Some(number(bytes));
    }
    if AsmClass::Symbol.has(*first) {
        return Some(word(bytes));
    }
    None
}

/// Whether blanks stand first, and what stands behind them.
#[tactic(auto, using(crate::proofs::Blanks::skips))]
fn skip_spaces<'a>(bytes: &'a [u8]) -> (bool, &'a [u8])
    ensures skips { SkipsSpaces bytes.now result.0 result.1.now }
    ensures stops { StopsIn (in_asm Space) result.1.now }
    ensures shorter { length result.1.now ≤ length bytes.now }
{
    let n = run_len(AsmClass::Space, bytes);
    let (_, rest) = bytes.split_at(n);
    (0 < n, rest)
}

/// Whether nothing stands here, or a comment.
fn is_remark(bytes: &[u8]) -> bool
    ensures yes { IsTrue result → IsRemark bytes.now }
    ensures no { result ≡ false → StopsIn (in_asm Space) bytes.now → Starts bytes.now }
{
    match bytes.split_first() {
        Some((first, _)) => *first == b'#',
        None => true,
    }
}

/// Adds the tokens that a line spells, each the longest that stands there, to a list that has none. Where no token
/// begins, the last is `Bad`. The list's room may serve one line after another. `Memory` comes where an allocation is
/// refused: the list then has a part of the tokens, and is to be given up.
pub fn add_tokens<'a>(tokens: &mut Vec<Token<'a>>, line: &'a [u8]) -> Result<(), Memory>
    requires { tokens.old.items ≡ [] }
    ensures { OnOk result (Spells (views tokens.new.items) line.now) }
{
    let mut rest = line;
    loop {
        let (is_spaced, behind) = skip_spaces(rest);
        if is_remark(behind) {
            return Ok(());
        }
        match next_token(behind) {
            Some(next) => {
                tokens.push(Token {
                    text: next.text,
                    kind: next.kind,
                    is_spaced,
                })?;
                rest = next.rest;
            }
            None => {
                tokens.push(Token {
                    text: &[],
                    kind: Kind::Bad,
                    is_spaced,
                })?;
                return Ok(());
            }
        }
    }
}
