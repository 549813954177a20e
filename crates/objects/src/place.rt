//! The address of a byte: an object that lives and an offset into it.
/// A byte of an object that lives.
#[derive(Clone, Copy)]
pub struct Place {
    /// The object's place among those that live.
    pub object: usize,
    /// The bytes before it in the object.
    pub offset: u32,
}
