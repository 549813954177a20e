//! The forms of C's types, with the enumerators and members that they are made of.
use crate::qualifiers::Qualifiers;
use lcc_base::{Bytes, Items};

/// The place of a type in its table.
pub type TypeId = usize;

/// How a type is formed from others, which are named by their places (C89 3.1.2.5).
#[derive(Debug, Drop)]
pub enum TypeForm {
    Void,
    Char,
    SignedChar,
    UnsignedChar,
    Short,
    UnsignedShort,
    Int,
    Unsigned,
    Long,
    UnsignedLong,
    Pointer {
        to: TypeId,
    },
    /// The length is None where the array's size is unknown.
    Array {
        of: TypeId,
        length: Option<u32>,
    },
    /// The parameters are None where they are open (`f()` in a declaration). `more` says that
    /// `...` stands behind them.
    Function {
        result: TypeId,
        parameters: Option<Items<TypeId>>,
        more: bool,
    },
    /// A structure, which is a type by itself. `complete` gives its members.
    Structure,
    /// A union, which is a type by itself. `complete` gives its members.
    Union,
    /// An enumeration, which is a type by itself.
    Enumeration {
        members: Items<Enumerator>,
    },
    Qualified {
        of: TypeId,
        qualifiers: Qualifiers,
    },
}

/// A name of an enumeration, and its value.
#[derive(Debug, Drop)]
pub struct Enumerator {
    pub name: Bytes,
    pub value: i32,
}

/// A member of a structure or union. It has a width, in bits, where it is a bit-field. The name
/// is empty where there is none.
#[derive(Debug, Drop)]
pub struct Member {
    pub name: Bytes,
    pub of: TypeId,
    pub width: Option<u8>,
}

/// Where a member stands. Its width is 0 where it isn't a bit-field, and the offset, in bytes,
/// then is its own. Else the offset is that of the bit-field's unit of 32 bits, and `first` is
/// the number of bits of the unit that were filled before it: counted from the most significant
/// bit where the target is big-endian, and from the least where it is little-endian.
#[derive(Clone, Copy, Debug, PartialEq, Eq)]
pub struct MemberPlace {
    pub of: TypeId,
    pub offset: u32,
    pub first: u8,
    pub width: u8,
}
