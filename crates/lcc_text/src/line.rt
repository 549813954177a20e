//! Cutting a text into its lines.
ghost use Rattle.std.specs.Prelude.{◌≡◌, ◌≢◌, ◌<◌, ◌≤◌, ◌∷◌, ℕ, [], length, slice_index, IfSome, IfNone};
ghost use Rattle.lcc_text.specs.Lines.{lines_of};

/// How many bytes stand before the first line feed, or before the end.
fn line_len(bytes: &[u8]) -> usize
    ensures bound { result ≤ length bytes.now }
    ensures before { (k : ℕ) → k < result → slice_index bytes.now k ≢ 10 }
    ensures at { result < length bytes.now → slice_index bytes.now result ≡ 10 }
{
    for (n, byte) in bytes.iter().enumerate() {
        if *byte == b'\n' {
            return n;
        }
    }
    bytes.len()
}

/// The first line of the text, without its line feed, and the bytes behind it. None where the
/// text is empty.
#[tactic(auto, using(crate::proofs::FirstLine::first_line, crate::proofs::FirstLine::last_line))]
pub fn next_line<'a>(bytes: &'a [u8]) -> Option<(&'a [u8], &'a [u8])>
    ensures some { IfSome result (λ x. lines_of bytes.now ≡ x.0.now ∷ lines_of x.1.now) }
    ensures shorter { IfSome result (λ x. length x.1.now < length bytes.now) }
    ensures none { IfNone result (lines_of bytes.now ≡ []) }
{
    if bytes.is_empty() {
        return None;
    }
    let (line, rest) = bytes.split_at(line_len(bytes));
    match rest.split_first() {
        None => Some((line, rest)),
        Some((_, behind)) => Some((line, behind)),
    }
}
