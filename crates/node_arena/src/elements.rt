//! Two elements of a vector at once: one to be read, and a later one to be changed.
ghost use Rattle.std.specs.Prelude.{◌≡◌, ◌<◌, slice_get, Some, vec_len};
ghost use Rattle.std.specs.Borrow.{sem};
ghost use Rattle.std.specs.Vec.{vec_follows_item, vec_ptr};

use std::alloc::Allocator;

/// The element with the lower index, and the one with the higher index, to be changed.
pub(crate) fn two<T, A: Allocator>(
    elements: &mut Vec<T, A>,
    low: usize,
    high: usize,
) -> (&T, &mut T)
    requires ordered { low < high }
    requires inside { high < vec_len elements.old }
    ensures* lends { sem 𝓛 (vec_follows_item T.row A.row A.Allocator elements.entry high result.1) }
    ensures read { slice_get elements.old.items low ≡ Some result.0.now }
    ensures write { slice_get elements.old.items high ≡ Some result.1.now }
{
    let start = elements.as_mut_ptr();
    unsafe { two_from(elements, start, low, high) }
}

// The same, for elements that begin at a known address.
unsafe fn two_from<T, A: Allocator>(
    elements: &mut Vec<T, A>,
    start: *mut T,
    low: usize,
    high: usize,
) -> (&T, &mut T)
    requires start { start ≡ vec_ptr elements.old }
    requires ordered { low < high }
    requires inside { high < vec_len elements.old }
    ensures* lends { sem 𝓛 (vec_follows_item T.row A.row A.Allocator elements.entry high result.1) }
    ensures read { slice_get elements.old.items low ≡ Some result.0.now }
    ensures write { slice_get elements.old.items high ≡ Some result.1.now }
{
    (&*start.add(low), &mut *start.add(high))
}
