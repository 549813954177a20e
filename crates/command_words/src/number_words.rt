//! Options whose texts write numbers.
ghost use Rattle.std.specs.Prelude.{◌≤◌, IfSome, option_map};
ghost use Rattle.command_words.specs.Found.{IsFound};
ghost use Rattle.command_words.specs.NumberWords.{IsNumberIn, GivesNumber};

use lcc_text::{Class, decimal_value, run_len};

/// The number of a range that one to ten digits write.
fn number_in(text: &str, least: u32, most: u32) -> Option<u32>
    ensures { IsFound (IsNumberIn least most text.now) result }
{
    let digits = text.as_bytes();
    if digits.is_empty() || digits.len() > 10 || run_len(Class::Digit, digits) < digits.len() {
        return None;
    }
    let number = decimal_value(digits, most)?;
    if number < least {
        return None;
    }
    Some(number)
}

/// The number of a range that an option gives, or its default.
pub(crate) fn number_of(text: Option<&str>, least: u32, most: u32, default: u32) -> Option<u32>
    requires low { least ≤ default }
    requires high { default ≤ most }
    ensures found { IsFound (GivesNumber least most default (option_map (λ s. s.now) text.entry)) result }
    ensures low { IfSome result (λ n. least ≤ n) }
    ensures high { IfSome result (λ n. n ≤ most) }
{
    match text {
        Some(text) => number_in(text, least, most),
        None => Some(default),
    }
}
