//! What stands between tokens: blanks, comments and control lines are skipped.
ghost use Rattle.std.specs.Prelude.{◌≡◌, ◌+◌, ◌<◌, ◌≤◌, ℕ, None, length, IfSome};
ghost use Rattle.c_lexer.specs.Gaps.{behind_control, behind_comment, behind_blank, gap, IsPlace};
ghost use Rattle.c_lexer.specs.Comments.{before_close};
ghost use Rattle.c_lexer.specs.Chains.{Chain};

use crate::class::LexClass;
use crate::comment::{before_close, feeds};
use crate::control::said_line;
use crate::place::Place;
use crate::run::split_run;
use crate::sign::front;
use crate::start::starts_with_star;
use lcc_text::ByteClass;

/// The place behind a control line, of which these bytes stand behind the `#`.
fn behind_control(source: &[u8], place: Place, bytes: &[u8]) -> Place
    requires place { IsPlace source.now place }
    requires rest { length bytes.now + place.offset + 1 ≡ length source.now }
    ensures is { result ≡ behind_control bytes.now place }
    ensures place { IsPlace source.now result }
    ensures further { place.offset < result.offset }
{
    let (text, rest) = split_run(LexClass::Line, bytes);
    let line = match said_line(text) {
        Some(line) => line,
        None => place.line + 1,
    };
    Place {
        offset: place.offset + 1 + text.len() + front(rest, 1).len(),
        line,
        opens: true,
    }
}

/// The place behind a comment, of which these bytes stand behind the `/*`. None where it doesn't
/// end.
fn behind_comment(source: &[u8], place: Place, bytes: &[u8]) -> Option<Place>
    requires place { IsPlace source.now place }
    requires rest { length bytes.now + place.offset + 2 ≡ length source.now }
    ensures is { result ≡ behind_comment bytes.now (before_close bytes.now) place }
    ensures place { IfSome result (λ q. IsPlace source.now q) }
    ensures further { IfSome result (λ q. place.offset < q.offset) }
{
    let Some(n) = before_close(bytes) else {
        return None;
    };
    Some(Place {
        offset: place.offset + 2 + n + 2,
        line: place.line + feeds(&bytes[..n]) as u32,
        opens: false,
    })
}

/// The place behind a line feed or another blank. None where none is the byte.
fn behind_blank(source: &[u8], place: Place, byte: u8) -> Option<Place>
    requires place { IsPlace source.now place }
    requires inside { place.offset < length source.now }
    ensures is { result ≡ behind_blank byte place }
    ensures place { IfSome result (λ q. IsPlace source.now q) }
    ensures further { IfSome result (λ q. place.offset < q.offset) }
{
    let offset = place.offset + 1;
    let line = place.line;
    if byte == b'\n' {
        return Some(Place {
            offset,
            line: line + 1,
            opens: true,
        });
    }
    if LexClass::Space.has(byte) {
        return Some(Place {
            offset,
            line,
            opens: place.opens,
        });
    }
    if 11 <= byte && byte <= 13 {
        return Some(Place {
            offset,
            line,
            opens: false,
        });
    }
    None
}

/// The place behind the blank, the comment or the control line that begins at the place.
fn gap(source: &[u8], place: Place) -> Option<Place>
    requires { IsPlace source.now place }
    ensures is { result ≡ gap source.now place }
    ensures place { IfSome result (λ q. IsPlace source.now q) }
    ensures further { IfSome result (λ q. place.offset < q.offset) }
{
    let Some((first, rest)) = source[place.offset..].split_first() else {
        return None;
    };
    if let Some(behind) = behind_blank(source, place, *first) {
        return Some(behind);
    }
    if *first == b'#' && place.opens {
        return Some(behind_control(source, place, rest));
    }
    if *first == b'/' && starts_with_star(rest) {
        return behind_comment(source, place, &rest[1..]);
    }
    None
}

/// The place behind all that stands between tokens here.
pub(crate) fn skip_gaps(source: &[u8], place: Place) -> Place
    requires { IsPlace source.now place }
    ensures skips { (n : ℕ) × Chain (gap source.now) n place result }
    ensures ends { gap source.now result ≡ None }
    ensures further { place.offset ≤ result.offset }
    ensures place { IsPlace source.now result }
{
    let mut here = place;
    while let Some(behind) = gap(source, here) {
        here = behind;
    }
    here
}
