//! Runs: the bytes split behind the longest front of one kind.
ghost use Rattle.std.specs.Prelude.{◌≡◌, ◌≤◌, ◌+◌, length};
ghost use Rattle.lcc_text.specs.Classes.{AllIn, StartsIn};
ghost use Rattle.c_lexer.specs.Runs.{run, behind};

use lcc_text::{ByteClass, run_len};

/// The longest front that the class makes, and what stands behind it.
#[tactic(auto, using(crate::proofs::Runs::is_run, crate::proofs::Runs::is_behind, lcc_text::proofs::lemmas::Runs::run_pos))]
pub(crate) fn split_run<'a, C: ByteClass>(class: C, bytes: &'a [u8]) -> (&'a [u8], &'a [u8])
    ensures front { result.0.now ≡ run (C.members class) bytes.now }
    ensures rest { result.1.now ≡ behind (C.members class) bytes.now }
    ensures made { AllIn (C.members class) result.0.now }
    ensures some { StartsIn (C.members class) bytes.now → 1 ≤ length result.0.now }
    ensures parts { length result.0.now + length result.1.now ≡ length bytes.now }
{
    bytes.split_at(run_len(class, bytes))
}
