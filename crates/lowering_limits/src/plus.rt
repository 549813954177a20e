//! Sums of counts.
ghost use Rattle.std.specs.Prelude.{◌≡◌, ◌+◌, IfOk};

use lcc_base::Memory;

/// The sum. `Memory` where it is 2^64 or more.
pub(crate) fn plus(n: u64, m: u64) -> Result<u64, Memory>
    ensures { IfOk result (λ s. s ≡ n + m) }
{
    n.checked_add(m).ok_or(Memory)
}
