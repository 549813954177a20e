//! Numbers of 32 bits, read from digits in a base up to 16.
ghost use Rattle.std.specs.Prelude.{◌≡◌, ◌≤◌};
ghost use Rattle.c_lexer.specs.Numbers.{digit_value, number_in};

/// What the digit is worth.
fn digit_value(digit: u8) -> u8
    ensures { result ≡ digit_value digit }
{
    if digit.is_ascii_digit() {
        digit.saturating_sub(b'0')
    } else if b'a' <= digit {
        digit - 87
    } else {
        digit.saturating_sub(55)
    }
}

/// The number that the digits write in the base, where 32 bits hold it.
pub(crate) fn number_in(base: u8, digits: &[u8]) -> Option<u32>
    requires low { 1 ≤ base }
    requires high { base ≤ 16 }
    ensures { result ≡ number_in base digits.now }
{
    let most = u64::from(u32::MAX);
    let mut value: u64 = 0;
    for digit in digits {
        value = u64::from(base) * value + u64::from(digit_value(*digit));
        if value > most {
            return None;
        }
    }
    Some(value as u32)
}
