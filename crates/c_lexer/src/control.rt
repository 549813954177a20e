//! Control lines: the line number that `# n "f"` or `#line n "f"` says.
ghost use Rattle.std.specs.Prelude.{◌≡◌, ◌≤◌, ◌==◌, IfSome};
ghost use Rattle.std.specs.List.{list_any};
ghost use Rattle.c_lexer.specs.declared.class.LexClass.TheVariants.{Space};
ghost use Rattle.lcc_text.specs.declared.class.Class.TheVariants.{Digit};
ghost use Rattle.lcc_text.specs.Classes.{in_class, AllIn};
ghost use Rattle.c_lexer.specs.Classes.{in_lex};
ghost use Rattle.c_lexer.specs.Starts.{starts_with};
ghost use Rattle.c_lexer.specs.ControlLines.{spaces, starts_named, number_named, line_number, said_number, said_line};

use crate::class::LexClass;
use crate::number::number_in;
use crate::run::split_run;
use crate::sign::front;
use lcc_text::{ByteClass, Class};

/// What stands behind the spaces and tabs.
fn spaces<'a>(bytes: &'a [u8]) -> &'a [u8]
    ensures { result.now ≡ spaces bytes.now }
{
    let (_, rest) = split_run(LexClass::Space, bytes);
    rest
}

/// Whether a quote stands somewhere.
fn has_quote(bytes: &[u8]) -> bool
    ensures { result ≡ list_any (λ a. a == 34) bytes.now }
{
    bytes.iter().any(|byte| *byte == b'"')
}

/// Whether a name between quotes stands first.
fn starts_named(bytes: &[u8]) -> bool
    ensures { result ≡ starts_named bytes.now }
{
    match bytes.split_first() {
        Some((first, rest)) => *first == b'"' && has_quote(rest),
        None => false,
    }
}

/// The number of `n "f"`, whose digits stand before the other bytes.
fn number_named(digits: &[u8], after: &[u8]) -> Option<u32>
    requires { AllIn (in_class Digit) digits.now }
    ensures is { result ≡ number_named digits.now after.now }
    ensures bound { IfSome result (λ n. n ≤ 999999999) }
{
    if digits.is_empty() || digits.len() > 9 || !starts_named(spaces(after)) {
        return None;
    }
    number_in(10, digits)
}

/// The number of `n "f"`.
fn line_number(bytes: &[u8]) -> Option<u32>
    ensures is { result ≡ line_number bytes.now }
    ensures bound { IfSome result (λ n. n ≤ 999999999) }
{
    let (digits, after) = split_run(Class::Digit, bytes);
    number_named(digits, after)
}

fn starts_with_space(bytes: &[u8]) -> bool
    ensures { result ≡ starts_with (in_lex Space) bytes.now }
{
    match bytes.split_first() {
        Some((first, _)) => LexClass::Space.has(*first),
        None => false,
    }
}

/// The number of `n "f"` or `line n "f"`.
fn said_number(bytes: &[u8]) -> Option<u32>
    ensures is { result ≡ said_number bytes.now }
    ensures bound { IfSome result (λ n. n ≤ 999999999) }
{
    if front(bytes, 4) == b"line".as_slice() {
        let rest = &bytes[4..];
        if starts_with_space(rest) {
            return line_number(spaces(rest));
        }
    }
    line_number(bytes)
}

/// The next line's number that a control line says, of which these bytes stand behind the `#`.
pub(crate) fn said_line(bytes: &[u8]) -> Option<u32>
    ensures is { result ≡ said_line bytes.now }
    ensures bound { IfSome result (λ n. n ≤ 999999999) }
{
    said_number(spaces(bytes))
}
