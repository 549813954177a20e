//! The operators and punctuators of C, by their bytes (C89, 3.1.5 and 3.1.6).
ghost use Rattle.std.specs.Prelude.{◌≡◌, ◌≤◌, ◌++◌, ◌∷◌, [], true, List, ℕ, length, take, nat_eq};
ghost use Rattle.std.specs.List.{list_any};
ghost use Rattle.first_form.specs.Signs.{is_sign};

/// Whether the byte is one of these.
fn is_among(byte: u8, bytes: &[u8]) -> bool
    ensures { result ≡ list_any (nat_eq byte) bytes.now }
{
    bytes.iter().any(|other| byte == *other)
}

/// Whether the byte is a sign.
fn is_sign_of_one(a: u8) -> bool
    ensures { result ≡ is_sign (a ∷ []) }
{
    is_among(a, b"[](){}.&*+-~!/%<>^|?:;=,")
}

/// The bytes that make a sign behind this one.
fn second_bytes(first: u8) -> &'static [u8]
    ensures { (b : ℕ) → list_any (nat_eq b) result.now ≡ is_sign (first ∷ b ∷ []) }
{
    match first {
        b'-' => b">-=",
        b'+' => b"+=",
        b'<' => b"<=",
        b'>' => b">=",
        b'&' => b"&=",
        b'|' => b"|=",
        b'=' | b'!' | b'*' | b'/' | b'%' | b'^' => b"=",
        _ => b"",
    }
}

/// Whether the two bytes are a sign.
fn is_sign_of_two(a: u8, b: u8) -> bool
    ensures { result ≡ is_sign (a ∷ b ∷ []) }
{
    is_among(b, second_bytes(a))
}

/// Whether the three bytes are a sign.
fn is_sign_of_three(a: u8, b: u8, c: u8) -> bool
    ensures { result ≡ is_sign (a ∷ b ∷ c ∷ []) }
{
    (a == b'.' && b == b'.' && c == b'.')
        || (a == b'<' && b == b'<' && c == b'=')
        || (a == b'>' && b == b'>' && c == b'=')
}

/// How long the longest sign at the front is: 0 where there is none.
pub(crate) fn sign_len(bytes: &[u8]) -> usize
    ensures bound { result ≤ length bytes.now }
    ensures some { 1 ≤ result → is_sign (take result bytes.now) ≡ true }
    ensures longest { (u z : List ℕ) → is_sign u ≡ true → bytes.now ≡ u ++ z → length u ≤ result }
{
    if bytes.len() >= 3 && is_sign_of_three(bytes[0], bytes[1], bytes[2]) {
        return 3;
    }
    if bytes.len() >= 2 && is_sign_of_two(bytes[0], bytes[1]) {
        return 2;
    }
    if !bytes.is_empty() && is_sign_of_one(bytes[0]) {
        return 1;
    }
    0
}
