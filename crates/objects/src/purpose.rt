//! The purposes of a store, which decide whether a const object takes it.
/// What bytes of an object are written for.
/// Source: C89, 3.5.3 and 3.5.7.
#[derive(Clone, Copy, Debug, PartialEq, Eq)]
pub enum Purpose {
    /// Any store that a string literal and a const object refuse.
    Assignment,
    /// A store of the object's own initialiser, which const objects take too.
    Initialisation,
}
