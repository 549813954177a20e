//! Operators and punctuators, found by longest match.
ghost use Rattle.std.specs.Prelude.{◌≡◌, ◌≤◌, length, take, IfSome};
ghost use Rattle.c_lexer.specs.LongestSigns.{sign_of_length, longest_sign};

use c_ast::sign_number;

/// The first n bytes, or all.
pub(crate) fn front(bytes: &[u8], n: usize) -> &[u8]
    ensures is { result.now ≡ take n bytes.now }
    ensures bound { length result.now ≤ length bytes.now }
{
    if n < bytes.len() { &bytes[..n] } else { bytes }
}

/// The number of the sign that the text is, and its length.
fn sign_of_length(text: &[u8]) -> Option<(u8, usize)>
    ensures is { result ≡ sign_of_length text.now }
    ensures within { IfSome result (λ x. (1 ≤ x.1) × (x.1 ≤ length text.now)) }
{
    if text.is_empty() {
        return None;
    }
    match sign_number(text) {
        Some(number) => Some((number, text.len())),
        None => None,
    }
}

/// The longest sign at the front, by its number, and its length.
pub(crate) fn longest_sign(bytes: &[u8]) -> Option<(u8, usize)>
    ensures is { result ≡ longest_sign bytes.now }
    ensures within { IfSome result (λ x. (1 ≤ x.1) × (x.1 ≤ length bytes.now)) }
{
    if let Some(sign) = sign_of_length(front(bytes, 3)) {
        return Some(sign);
    }
    if let Some(sign) = sign_of_length(front(bytes, 2)) {
        return Some(sign);
    }
    sign_of_length(front(bytes, 1))
}
