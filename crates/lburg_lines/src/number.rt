//! Numbers with an optional minus sign, and their values in the range that is allowed.
ghost use Rattle.std.specs.Prelude.{◌≡◌, IfSome, IfNone};
ghost use Rattle.lburg_lines.specs.Numbers.{IsNumber, number_value, written};

use lcc_text::decimal_value;

/// A number as it is written: decimal digits, or digits behind a minus sign.
#[derive(Clone, Copy, Debug)]
pub enum SignedNumber<'a> {
    /// The digits of a number that isn't negative.
    Plain(&'a [u8]),
    /// The digits behind a minus sign.
    Minus(&'a [u8]),
}

/// The greatest number.
const GREATEST: u32 = 4_294_967_295;

/// What stands behind the minus sign of the least number.
const LEAST: u32 = 2_147_483_648;

impl<'a> SignedNumber<'a> {
    /// Its value, where that lies from -2,147,483,648 to 4,294,967,295.
    pub fn value(self) -> Option<i64>
        ensures some { IfSome result (λ n. IsNumber (written self.entry) × (n ≡ number_value (written self.entry))) }
        ensures none { IfNone result (IsNumber (written self.entry) → ⊥) }
    {
        match self {
            SignedNumber::Plain(digits) => match decimal_value(digits, GREATEST) {
                Some(value) => Some(i64::from(value)),
                None => None,
            },
            SignedNumber::Minus(digits) => match decimal_value(digits, LEAST) {
                Some(value) => Some(-i64::from(value)),
                None => None,
            },
        }
    }
}
