//! What an initialiser makes of an object: its completed type, and an expression for each place.
use c_meaning::FilledPlace;
use c_types::TypeId;
use lcc_base::Items;

/// What an initialiser makes of an object (C89 3.5.7).
#[derive(Drop)]
pub struct Filled {
    /// The object's type: an array of unknown size has its size from the initialiser.
    pub of: TypeId,
    /// Which place gets which expression, in the order of the initialiser. The offsets are counted in
    /// bytes from the object's first byte.
    pub places: Items<FilledPlace>,
}
