//! Readers of numbers and sums.
ghost use Rattle.std.specs.Prelude.{◌≡◌, ◌<◌, ◌≤◌, ◌∷◌, ℕ, List, IfSome, IfNone};
ghost use Rattle.asm_lines.specs.Tokens.{Minus, Spaced, views};
ghost use Rattle.asm_lines.specs.Numbers.{digit_value, hex_value, link_sign, joined, IsNumber, CountStands, AreLinks, IsSum, NoLink};

use crate::token::{Kind, Token};
use lcc_text::decimal_value;

/// The greatest size of a negative number.
const MOST_NEGATIVE: u32 = 1 << 31;

/// The value of a hexadecimal digit.
fn digit_of(byte: u8) -> u8
    ensures { result ≡ digit_value byte }
{
    if byte <= b'9' {
        byte.saturating_sub(b'0')
    } else if byte <= b'F' {
        byte.saturating_sub(b'A' - 10)
    } else {
        byte.saturating_sub(b'a' - 10)
    }
}

/// The number that hexadecimal digits write, where it has 32 bits.
fn hexadecimal_value(digits: &[u8]) -> Option<u32>
    ensures some { IfSome result (λ n. (n ≡ hex_value digits.now) × (n ≤ 4294967295)) }
    ensures none { IfNone result (4294967295 < hex_value digits.now) }
{
    let mut value: u64 = 0;
    for digit in digits {
        value = 16 * value + u64::from(digit_of(*digit));
        if value > u64::from(u32::MAX) {
            return None;
        }
    }
    Some(value as u32)
}

/// The number modulo 2^32 whose digits touch a minus sign, which is gone, and what stands behind them.
fn negative<'t, 'a>(tokens: &'t [Token<'a>]) -> Option<(u32, &'t [Token<'a>])>
    ensures some { IfSome result (λ x. (minus : Spaced) → minus.tok ≡ Minus → IsNumber (minus ∷ views tokens.now) x.0 (views x.1.now)) }
    ensures none { IfNone result ((minus : Spaced) (n : ℕ) (rest : List Spaced) → minus.tok ≡ Minus → IsNumber (minus ∷ views tokens.now) n rest → ⊥) }
{
    let (first, rest) = tokens.split_first()?;
    if first.kind != Kind::Decimal || first.is_spaced {
        return None;
    }
    let size = decimal_value(first.text, MOST_NEGATIVE)?;
    Some((0u32.wrapping_sub(size), rest))
}

/// The number modulo 2^32 at the front, and what stands behind it.
pub(crate) fn number<'t, 'a>(tokens: &'t [Token<'a>]) -> Option<(u32, &'t [Token<'a>])>
    ensures some { IfSome result (λ x. IsNumber (views tokens.now) x.0 (views x.1.now)) }
    ensures none { IfNone result ((n : ℕ) (rest : List Spaced) → IsNumber (views tokens.now) n rest → ⊥) }
{
    let (first, rest) = tokens.split_first()?;
    match first.kind {
        Kind::Decimal => Some((decimal_value(first.text, u32::MAX)?, rest)),
        Kind::Hexadecimal => Some((hexadecimal_value(first.text)?, rest)),
        Kind::Minus => negative(rest),
        _ => None,
    }
}

/// The number, which isn't negative, that is all there is.
pub(crate) fn count(tokens: &[Token]) -> Option<u32>
    ensures some { IfSome result (λ n. CountStands (views tokens.now) n) }
    ensures none { IfNone result ((n : ℕ) → CountStands (views tokens.now) n → ⊥) }
{
    let (first, _) = tokens.split_first()?;
    let (value, rest) = number(tokens)?;
    if !rest.is_empty() || (first.kind == Kind::Minus && value != 0) {
        return None;
    }
    Some(value)
}

/// Whether the sign at the front that joins numbers is a minus, and what stands behind it.
fn sign<'t, 'a>(tokens: &'t [Token<'a>]) -> Option<(bool, &'t [Token<'a>])>
    ensures some { IfSome result (λ x. (t : Spaced) × (t.tok ≡ link_sign x.0) × (views tokens.now ≡ t ∷ views x.1.now)) }
    ensures none { IfNone result (NoLink (views tokens.now)) }
{
    let (first, rest) = tokens.split_first()?;
    match first.kind {
        Kind::Plus => Some((false, rest)),
        Kind::Minus => Some((true, rest)),
        _ => None,
    }
}

/// What a sign makes of two numbers, modulo 2^32.
fn join(is_minus: bool, a: u32, b: u32) -> u32
    ensures { result ≡ joined is_minus a b }
{
    if is_minus {
        a.wrapping_sub(b)
    } else {
        a.wrapping_add(b)
    }
}

/// What signs and numbers at the front make of a number, and what stands behind them. None where a sign has no number.
pub(crate) fn links<'t, 'a>(tokens: &'t [Token<'a>], from: u32) -> Option<(u32, &'t [Token<'a>])>
    ensures some { IfSome result (λ x. AreLinks (views tokens.now) from x.0 (views x.1.now) × NoLink (views x.1.now)) }
    ensures none { IfNone result ((n : ℕ) (rest : List Spaced) → AreLinks (views tokens.now) from n rest → NoLink rest → ⊥) }
{
    let mut total = from;
    let mut at = 0;
    loop {
        let (_, left) = tokens.split_at(at);
        let Some((is_minus, behind)) = sign(left) else {
            return Some((total, left));
        };
        let (value, rest) = number(behind)?;
        total = join(is_minus, total, value);
        at = tokens.len() - rest.len();
    }
}

/// The sum at the front, and what stands behind it, which is no link.
pub(crate) fn sum<'t, 'a>(tokens: &'t [Token<'a>]) -> Option<(u32, &'t [Token<'a>])>
    ensures some { IfSome result (λ x. IsSum (views tokens.now) x.0 (views x.1.now) × NoLink (views x.1.now)) }
    ensures none { IfNone result ((n : ℕ) (rest : List Spaced) → IsSum (views tokens.now) n rest → NoLink rest → ⊥) }
{
    let (first, rest) = number(tokens)?;
    links(rest, first)
}
