//! Copying between slices of different lengths.
ghost use Rattle.std.specs.Prelude.{◌≡◌, length, min, take};

/// Copies as many bytes as there are and fit, and gives how many.
pub fn copy_front(from: &[u8], into: &mut [u8]) -> usize
    ensures count { result ≡ min (length from.now) (length into.old) }
    ensures front { take result into.new ≡ take result from.now }
{
    let n = from.len().min(into.len());
    into[..n].copy_from_slice(&from[..n]);
    n
}
