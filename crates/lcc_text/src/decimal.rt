//! The values of decimal numerals, up to a limit.
ghost use Rattle.std.specs.Prelude.{◌≡◌, ◌<◌, ◌≤◌, IfSome, IfNone};
ghost use Rattle.lcc_text.specs.Decimal.{value_of};

/// The number that the decimal digits write, where it is at most the limit. It may begin with
/// zeros.
pub fn decimal_value(digits: &[u8], limit: u32) -> Option<u32>
    ensures some { IfSome result (λ n. (n ≡ value_of digits.now) × (n ≤ limit)) }
    ensures none { IfNone result (limit < value_of digits.now) }
{
    let most = u64::from(limit);
    let mut value: u64 = 0;
    for digit in digits {
        value = 10 * value + u64::from(digit.saturating_sub(b'0'));
        if value > most {
            return None;
        }
    }
    Some(value as u32)
}
