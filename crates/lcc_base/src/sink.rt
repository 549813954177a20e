//! The interface of what takes bytes: writes that may be short, and a count of faults.
ghost use Rattle.std.specs.Prelude.{ℕ, ◌-◌, ◌^◌, ◌<◌, ◌≤◌, List, length, IfOk};
ghost use Rattle.std.specs.declared.option.Option.{Option};
ghost use Rattle.std.specs.Io.{WritesAtMost};
ghost use Rattle.std.specs.Io.KnownBytes.{WriteAppends};
ghost use Rattle.lcc_base.specs.Faults.{HasCause};

use crate::Failed;

/// Where bytes go.
pub trait Sink {
    /// The bytes that were taken, where the sink tells.
    ghost taken: { Self → Option (List ℕ) };

    /// How many faults there were. It never falls, and may stand still at 2^64 - 1.
    ghost faults: { Self → ℕ };

    /// Takes the first bytes of `piece`, and gives how many: at least 1 where there are any. It
    /// fails only where the count of faults rose, and takes nothing then; else the count stays as it
    /// is.
    fn write(&mut self, piece: &[u8]) -> Result<usize, Failed>
        ensures bound { WritesAtMost result piece.now }
        ensures some { 0 < length piece.now → IfOk result (λ n. 0 < n) }
        ensures bytes { WriteAppends (taken self.old) (taken self.new) result piece.now }
        ensures cause { HasCause (faults self.old) (faults self.new) result }
        ensures capped { faults self.new ≤ 2 ^ 64 - 1 };
}
