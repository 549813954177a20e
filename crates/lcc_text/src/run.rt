//! Runs of bytes of one class at the front of a text.
ghost use Rattle.std.specs.Prelude.{◌≡◌, ◌≤◌, length, take, drop, false, IsTrue};
ghost use Rattle.lcc_text.specs.Classes.{AllIn, StartsIn, StopsIn};

use crate::class::ByteClass;

/// How many bytes at the front are in the class: all of them, or up to the first that isn't.
#[tactic(auto, using(crate::proofs::lemmas::Runs::run_more, crate::proofs::lemmas::Runs::run_stops))]
pub fn run_len<C: ByteClass>(class: C, bytes: &[u8]) -> usize
    ensures bound { result ≤ length bytes.now }
    ensures front { AllIn (C.members class) (take result bytes.now) }
    ensures behind { StopsIn (C.members class) (drop result bytes.now) }
{
    let mut n = 0;
    while n < bytes.len() && class.has(bytes[n]) {
        n += 1;
    }
    n
}

/// Whether a byte of the class stands first.
pub fn starts_in<C: ByteClass>(class: C, bytes: &[u8]) -> bool
    ensures yes { IsTrue result → StartsIn (C.members class) bytes.now }
    ensures no { result ≡ false → StartsIn (C.members class) bytes.now → ⊥ }
{
    match bytes.split_first() {
        Some((first, _)) => class.has(*first),
        None => false,
    }
}
