//! Comments: where one ends, and how many line feeds it has.
ghost use Rattle.std.specs.Prelude.{◌≡◌, ◌<◌, ◌≤◌, ◌+◌, length, IfSome};
ghost use Rattle.c_lexer.specs.Comments.{closes, before_close, feeds};

/// Whether `*/` stands first.
fn closes(bytes: &[u8]) -> bool
    ensures { result ≡ closes bytes.now }
{
    bytes.len() >= 2 && bytes[0] == b'*' && bytes[1] == b'/'
}

/// How many bytes stand before the first `*/`.
#[tactic(auto, using(crate::proofs::Comments::first_close, crate::proofs::Comments::no_close))]
pub(crate) fn before_close(bytes: &[u8]) -> Option<usize>
    ensures is { result ≡ before_close bytes.now }
    ensures bound { IfSome result (λ n. n + 2 ≤ length bytes.now) }
{
    for n in 0..bytes.len() {
        if closes(&bytes[n..]) {
            return Some(n);
        }
    }
    None
}

/// How many line feeds there are.
pub(crate) fn feeds(bytes: &[u8]) -> usize
    ensures is { result ≡ feeds bytes.now }
    ensures bound { result ≤ length bytes.now }
{
    bytes.iter().filter(|byte| **byte == b'\n').count()
}
