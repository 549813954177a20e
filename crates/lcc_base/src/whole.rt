//! Reading a source to its end, and writing all of a slice to a sink.
ghost use Rattle.std.specs.Prelude.{◌≡◌, ◌≤◌, length, IfOk, OnOk, OnErr, IsErrOf};
ghost use Rattle.std.specs.Io.KnownBytes.{Consumes, IsAtEnd, Appends};
ghost use Rattle.lcc_base.specs.Faults.{Rose, HasCause};
ghost use Rattle.lcc_base.specs.Taken.{TookAtMost, TookOneMore, TookPrefix};

use crate::{Bytes, Failed, ReadEnd, Sink, Source};
use std::alloc::Global;

/// How many bytes one read asks for at most.
const PIECE: usize = 4096;

/// All bytes that the source had left, at most `limit`. After an error what was read is dropped,
/// and the source has left what comes after it.
///
/// The answers exclude one another by what came: at most `limit` bytes came with `Ok`, `Failed`
/// and `Memory`, and one more than `limit` with `TooLong`. A read that fails ends it at once: without
/// `Failed` no read failed, as the count of faults tells.
pub fn read_all<S: Source>(alloc: Global, source: &mut S, limit: usize) -> Result<Bytes, ReadEnd>
    ensures all { IfOk result (λ bytes. Consumes (S.left source.old) (S.left source.new) bytes) }
    ensures end { OnOk result (IsAtEnd (S.left source.new)) }
    ensures within { IfOk result (λ bytes. length bytes ≤ limit) }

    ensures failed { IsErrOf result ReadEnd.Failed → TookAtMost (S.left source.old) (S.left source.new) limit }
    ensures fault { IsErrOf result ReadEnd.Failed → Rose (S.faults source.old) (S.faults source.new) }
    ensures too_long { IsErrOf result ReadEnd.TooLong → TookOneMore (S.left source.old) (S.left source.new) limit }
    ensures memory { IsErrOf result ReadEnd.Memory → TookAtMost (S.left source.old) (S.left source.new) limit }
    ensures later { S.faults source.old ≤ S.faults source.new }
    ensures unbroken { (IsErrOf result ReadEnd.Failed → ⊥) → S.faults source.new ≡ S.faults source.old }
{
    let mut bytes = Vec::new(alloc);
    let mut piece = [0u8; PIECE];
    loop {
        let room = limit - bytes.len();
        let asked = if room < PIECE { room + 1 } else { PIECE };
        let n = source.read(&mut piece[..asked])?;
        if n == 0 {
            return Ok(Bytes::from(bytes));
        }
        if n > room {
            return Err(ReadEnd::TooLong);
        }
        bytes.extend_from_slice(&piece[..n])?;
    }
}

/// Hands all bytes to the sink, in order, each time all that it has not taken yet. After an error
/// the sink took some first ones of them. A write that fails ends it at once. It takes no memory.
pub fn write_all<K: Sink>(sink: &mut K, bytes: &[u8]) -> Result<(), Failed>
    ensures all { OnOk result (Appends (K.taken sink.old) (K.taken sink.new) bytes.now) }
    ensures prefix { OnErr result (TookPrefix (K.taken sink.old) (K.taken sink.new) bytes.now) }
    ensures cause { HasCause (K.faults sink.old) (K.faults sink.new) result }
{
    let mut rest = bytes;
    while !rest.is_empty() {
        let n = sink.write(rest)?;
        rest = &rest[n..];
    }
    Ok(())
}
