//! Tokens, each the longest at its place, one at a time.
ghost use Rattle.std.specs.Prelude.{◌≡◌, ◌≤◌, ◌<◌, List, ℕ, length, map, take, drop, decimal, IsTrue, IfSome, IfNone, false, []};
ghost use Rattle.first_form.specs.declared.class.FirstClass.TheVariants.{Blank};
ghost use Rattle.lcc_text.specs.Classes.{StopsIn};
ghost use Rattle.first_form.specs.Classes.{in_first};
ghost use Rattle.first_form.specs.Tokens.{Token, starts_with_digit, starts_constant, IsNext, Begins, AreTokens};
ghost use Rattle.first_form.specs.Readings.{SkipsBlanks, NoToken, BeginWith};

use crate::class::FirstClass;
use crate::signs::sign_len;
use itoa::Buffer;
use lcc_text::{Class, decimal_value, run_len};

/// The greatest number of the form.
const MAX_NUMBER: u32 = 2_147_483_647;

/// Whether a digit stands first.
fn starts_with_digit(bytes: &[u8]) -> bool
    ensures { result ≡ starts_with_digit bytes.now }
{
    match bytes.split_first() {
        Some((first, _)) => first.is_ascii_digit(),
        None => false,
    }
}

/// Whether a digit stands first, or a `.` and then a digit.
fn starts_constant(bytes: &[u8]) -> bool
    ensures { result ≡ starts_constant bytes.now }
{
    match bytes.split_first() {
        Some((first, rest)) => {
            first.is_ascii_digit() || (*first == b'.' && starts_with_digit(rest))
        }
        None => false,
    }
}

/// How long the longest token at the front is: 0 where none begins.
fn token_len(bytes: &[u8]) -> usize
    ensures bound { result ≤ length bytes.now }
    ensures some { 1 ≤ result → IsNext bytes.now (take result bytes.now) (drop result bytes.now) }
    ensures none { result ≡ 0 → NoToken bytes.now }
{
    if starts_constant(bytes) {
        return run_len(FirstClass::Constant, bytes);
    }
    let name = run_len(Class::Name, bytes);
    if name > 0 { name } else { sign_len(bytes) }
}

/// What stands behind the blanks at the front.
#[tactic(auto, using(crate::proofs::Cut::skips))]
fn skip_blanks<'a>(bytes: &'a [u8]) -> &'a [u8]
    ensures skips { SkipsBlanks bytes.now result.now }
    ensures stops { StopsIn (in_first Blank) result.now }
    ensures shorter { length result.now ≤ length bytes.now }
{
    let (_, rest) = bytes.split_at(run_len(FirstClass::Blank, bytes));
    rest
}

/// The first token, and the bytes behind it. None where the bytes are blank, or what isn't
/// blank begins no token.
#[tactic(auto, using(crate::proofs::Cut::begins))]
pub(crate) fn next_token<'a>(bytes: &'a [u8]) -> Option<(&'a [u8], &'a [u8])>
    ensures some { IfSome result (λ x. Begins bytes.now x.0.now x.1.now) }
    ensures shorter { IfSome result (λ x. length x.1.now < length bytes.now) }
    ensures none { IfNone result ((t rest : List ℕ) → Begins bytes.now t rest → ⊥) }
{
    let behind = skip_blanks(bytes);
    let len = token_len(behind);
    if len == 0 {
        return None;
    }
    Some(behind.split_at(len))
}

/// What stands behind this token, which is the first.
pub(crate) fn after<'a>(bytes: &'a [u8], token: &[u8]) -> Option<&'a [u8]>
    ensures some { IfSome result (λ rest. Begins bytes.now token.now rest.now) }
    ensures shorter { IfSome result (λ rest. length rest.now < length bytes.now) }
    ensures none { IfNone result ((rest : List ℕ) → Begins bytes.now token.now rest → ⊥) }
{
    match next_token(bytes) {
        Some((first, rest)) if first == token => Some(rest),
        _ => None,
    }
}

/// What stands behind these tokens, which are the first.
pub(crate) fn after_all<'a>(bytes: &'a [u8], tokens: &[&[u8]]) -> Option<&'a [u8]>
    ensures some { IfSome result (λ rest. BeginWith bytes.now (map (λ t. t.now) tokens.now) rest.now) }
    ensures shorter { IfSome result (λ rest. length rest.now ≤ length bytes.now) }
    ensures none { IfNone result ((rest : List ℕ) → BeginWith bytes.now (map (λ t. t.now) tokens.now) rest → ⊥) }
{
    let mut rest = bytes;
    for token in tokens {
        let Some(behind) = after(rest, token) else {
            return None;
        };
        rest = behind;
    }
    Some(rest)
}

/// Whether no token stands in the bytes, but only blanks.
pub(crate) fn are_blank(bytes: &[u8]) -> bool
    ensures yes { IsTrue result → AreTokens [] bytes.now }
    ensures no { result ≡ false → AreTokens [] bytes.now → ⊥ }
{
    skip_blanks(bytes).is_empty()
}

/// The number whose decimal digits the token is, with no zero before them. None also where it
/// is greater than 2,147,483,647.
pub(crate) fn number(token: &[u8]) -> Option<u32>
    ensures some { IfSome result (λ n. token.now ≡ decimal n) }
    ensures limit { IfSome result (λ n. n ≤ 2147483647) }
    ensures none { IfNone result ((n : ℕ) → n ≤ 2147483647 → token.now ≡ decimal n → ⊥) }
{
    let Some(number) = decimal_value(token, MAX_NUMBER) else {
        return None;
    };
    let mut buffer = Buffer::new();
    if buffer.format(number).as_bytes() == token {
        Some(number)
    } else {
        None
    }
}
