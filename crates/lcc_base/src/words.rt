//! Arithmetic of signed 32-bit words: wrapping, and C's quotient and remainder.
ghost use Rattle.std.specs.Prelude.{◌≡◌, ◌^◌, ◌⊎◌, ◌↔◌, pos, negsuc, IsNone, IfSome};
ghost use Rattle.std.specs.Int.{w32, int_wrap, int_rem_euclid};
ghost use Rattle.std.specs.Int.RustNames.{int_div, int_rem};

/// The signed number of 32 bits that is equal to `n` modulo 2^32.
pub fn wrap32(n: i64) -> i32
    ensures congruent { int_rem_euclid result (pos (2 ^ 32)) ≡ int_rem_euclid n (pos (2 ^ 32)) }
    ensures wrapped { result ≡ int_wrap w32 n }
{
    (n.rem_euclid(1 << 32) as u32).cast_signed()
}

/// The quotient of C's `/`, rounded toward zero (C99, 6.5.5). `None` exactly where `b` is 0, or `a`
/// is -2^31 and `b` is -1.
pub fn sdiv(a: i32, b: i32) -> Option<i32>
    ensures undefined { IsNone result ↔ ((b ≡ pos 0) ⊎ ((a ≡ negsuc 2147483647) × (b ≡ negsuc 0))) }
    ensures quotient { IfSome result (λ q. q ≡ int_div a b) }
{
    a.checked_div(b)
}

/// The remainder of C's `%`, with the sign of `a` (C99, 6.5.5). `None` exactly where `b` is 0, or
/// `a` is -2^31 and `b` is -1.
pub fn srem(a: i32, b: i32) -> Option<i32>
    ensures undefined { IsNone result ↔ ((b ≡ pos 0) ⊎ ((a ≡ negsuc 2147483647) × (b ≡ negsuc 0))) }
    ensures remainder { IfSome result (λ r. r ≡ int_rem a b) }
{
    a.checked_rem(b)
}
