//! The values of scalars: numbers, pointers into named objects, and functions.
/// The name of an object: the how-manieth made it is, where it stands among those that live, and how
/// many bytes it has. A place is used again when its object's lifetime is over; a number isn't.
#[derive(Clone, Copy, Debug, PartialEq, Eq)]
pub struct ObjectName {
    /// How many objects were made before it.
    pub made: u64,
    /// Its place among the objects that live.
    pub place: u32,
    /// Its size in bytes.
    pub size: u32,
}

/// The value of a scalar. The null pointer is the number 0.
/// Source: C89, 3.1.2.5, in the profile of this compiler.
#[derive(Clone, Copy, Debug, PartialEq, Eq)]
pub enum Value {
    /// A number modulo 2^32; a narrow or negative one is extended.
    Number(u32),
    /// A place in an object, in bytes from its start; one past its last byte at most.
    Pointer {
        /// The object.
        object: ObjectName,
        /// The bytes before it.
        offset: u32,
    },
    /// A function, by its number.
    Function(u32),
}
