//! An input parted by a line `%%`.
ghost use Rattle.input_parts.specs.InputMark.{IsParted};

use lcc_text::next_line;

/// The text before the first line that is `%%`, and what stands behind that line. Without such a line all is the text.
pub fn parted<'a>(input: &'a [u8]) -> (&'a [u8], &'a [u8])
    ensures { IsParted input.now result.0.now result.1.now }
{
    let mut at = 0;
    while let Some((line, _)) = next_line(&input[at..]) {
        let behind = input.len().min(at + line.len() + 1);
        if line == b"%%".as_slice() {
            return (&input[..at], &input[behind..]);
        }
        at = behind;
    }
    (input, &[])
}
