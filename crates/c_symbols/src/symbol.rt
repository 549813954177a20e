//! Symbols: what a declaration says of a name, and its storage class.
use c_types::TypeId;

/// How a name was declared (C89 3.5.1): the storage class that it has, or that it is an enumerator or a
/// tag.
#[derive(Clone, Copy, Debug, PartialEq, Eq)]
pub enum Storage {
    Typedef,
    Extern,
    Static,
    Auto,
    Register,
    Enumerator,
    Tag,
}

/// What a name was declared as: its type, the line of the declaration, the level of its scope, and the
/// value of an enumerator.
#[derive(Clone, Copy, Debug, PartialEq, Eq)]
pub struct Symbol {
    pub class: Storage,
    pub of: TypeId,
    pub line: u32,
    pub level: u32,
    pub value: Option<i64>,
}
