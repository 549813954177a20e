//! Terminals that are found by the bytes of their names, taken as one number.
ghost use Rattle.std.specs.Prelude.{◌≡◌, ◌<◌, ◌≤◌, ◌+◌, ◌*◌, ◌-◌, ◌^◌, length, IfSome};
ghost use Rattle.lburg_trees.specs.Words.{word_of, IsWord};

/// A terminal whose name has at most seven bytes, and which the rules use.
#[derive(Clone, Copy)]
pub(crate) struct Known {
    /// The bytes of its name as one number, the first the lowest.
    pub(crate) word: u64,
    /// The bits that so many bytes take.
    pub(crate) mask: u64,
    /// The operator: its place in the declarations, from 1.
    pub(crate) op: u16,
    /// How many operands it has.
    pub(crate) arity: u8,
    /// How many bytes its name has.
    pub(crate) length: u8,
}

/// How many places a table of known terminals has.
pub(crate) const SLOTS: usize = 512;

/// Each of the eight bytes is 1.
const ONES: u64 = 0x0101_0101_0101_0101;

/// The place for the name that stands at the front of a word's bytes and ends at the first that is below `0`, as a
/// parenthesis or a comma is.
pub(crate) fn slot(word: u64) -> usize
    ensures { result < 512 }
{
    let ends = word.wrapping_sub(48 * ONES) & !word & (128 * ONES);
    let first = (ends & ends.wrapping_neg()) >> 7;
    let name = word & first.wrapping_sub(1);
    (name.wrapping_mul(0xD6E8_FEB8_6659_FD93) >> 55) as usize
}

/// The first eight bytes as one number, the first the lowest.
pub(crate) fn first_word(bytes: &[u8]) -> Option<u64>
    ensures { IfSome result (λ word. IsWord bytes.now word) }
{
    match bytes {
        [a, b, c, d, e, f, g, h, ..] => {
            Some(u64::from_le_bytes([*a, *b, *c, *d, *e, *f, *g, *h]))
        }
        _ => None,
    }
}

/// A few bytes as one number, the first the lowest.
pub(crate) fn word_of(bytes: &[u8]) -> u64
    requires { length bytes.now ≤ 8 }
    ensures word { result ≡ word_of bytes.now }
    ensures bound { result < 256 ^ length bytes.now }
{
    match bytes {
        [] => 0,
        [first, rest @ ..] => u64::from(*first) + 256 * word_of(rest),
    }
}
