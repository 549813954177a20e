//! The places within an object that initialisers fill, bit-fields among them.
use c_values::QualifiedType;

/// A place in an object that is initialised. The offset, in bytes, is counted from the object's first
/// byte. While an array's size is still unknown it may be past what an object can have. `first` and
/// `width` are those of a bit-field, as a member's place has them.
#[derive(Clone, Copy)]
pub(crate) struct Place {
    pub(crate) of: QualifiedType,
    pub(crate) offset: u64,
    pub(crate) first: u8,
    pub(crate) width: u8,
}
