//! The chunks of an arena: vectors that are never filled beyond their capacity, so that their
//! values stay where they are.
ghost use Rattle.std.specs.Prelude.{◌≡◌, ◌+◌, ◌<◌, ◌++◌, ◌∷◌, [], length, vec_len};
ghost use Rattle.node_arena.specs.Chunks.{values_of, capacity_of, IsPlace, IsCut, AreFilled, full_chunks};

/// Where a value stands: its chunk, and its place there.
#[derive(Clone, Copy)]
pub(crate) struct Place {
    pub(crate) chunk: usize,
    pub(crate) item: usize,
}

/// The place of the value with a number, counted through all chunks.
pub(crate) fn place_of<T>(chunks: &[Vec<T>], id: usize) -> Place
    requires { id < length (values_of chunks.now) }
    ensures { IsPlace chunks.now id result }
{
    let mut left = id;
    for (index, chunk) in chunks.iter().enumerate() {
        if left < chunk.len() {
            return Place {
                chunk: index,
                item: left,
            };
        }
        left -= chunk.len();
    }
    unreachable!()
}

/// Puts a value into the first chunk with room, and tells which is the first then.
pub(crate) fn put<T>(chunks: &mut Vec<Vec<T>>, current: usize, value: T) -> usize
    requires room { current < vec_len chunks.old }
    requires filled { AreFilled chunks.old.items current }
    ensures values { values_of chunks.new.items ≡ values_of chunks.old.items ++ value ∷ [] }
    ensures capacity { capacity_of chunks.new.items ≡ capacity_of chunks.old.items }
    ensures filled { AreFilled chunks.new.items result }
{
    let chunk = &mut chunks[current];
    chunk.push_reserved(value);
    if chunk.len() < chunk.capacity() {
        current
    } else {
        current + 1
    }
}

/// Keeps so many values, drops the others, and tells how many chunks are full then.
pub(crate) fn cut<T: Drop>(chunks: &mut [Vec<T>], kept: usize) -> usize
    ensures cut { IsCut kept chunks.old chunks.new }
    ensures full { result ≡ full_chunks chunks.new }
{
    let mut left = kept;
    let mut full = 0;
    for chunk in chunks.iter_mut() {
        chunk.truncate(left);
        left -= chunk.len();
        if chunk.len() == chunk.capacity() {
            full += 1;
        }
    }
    full
}
