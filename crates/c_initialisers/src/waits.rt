//! What the parts of an aggregate still wait for while an initialiser list is read.
use crate::place::Place;
use c_types::TypeId;
use c_values::QualifiedType;

/// What waits for its initialiser (C89 3.5.7). A stack of these has the next one last, and an entry stands
/// for any number of parts of one aggregate.
#[derive(Clone, Copy)]
pub(crate) enum Waits {
    /// Nothing: the object can't be initialised.
    Nowhere,
    Whole(Place),
    /// Elements of an array that begins at an offset, from this one on: so many or, where the array's
    /// size is unknown, as many as come.
    Elements {
        of: QualifiedType,
        begin: u64,
        index: u32,
        count: Option<u32>,
    },
    /// Members of a structure or union that begins at an offset, from this one on, which it has.
    Members {
        of: TypeId,
        begin: u64,
        index: usize,
    },
}
