//! The keywords of declarations: storage classes, qualifiers, basic types, and struct or union.
/// A storage class. Source: C89 3.5.1.
#[derive(Clone, Copy, Debug, PartialEq, Eq)]
pub enum Storage {
    Typedef,
    Extern,
    Static,
    Auto,
    Register,
}

/// A type qualifier. Source: C89 3.5.3.
#[derive(Clone, Copy, Debug, PartialEq, Eq)]
pub enum Qualifier {
    Const,
    Volatile,
}

/// A type specifier that is a keyword alone. Source: C89 3.5.2.
#[derive(Clone, Copy, Debug, PartialEq, Eq)]
pub enum BasicType {
    Void,
    Char,
    Short,
    Int,
    Long,
    Signed,
    Unsigned,
    Float,
    Double,
}

/// Which of the two kinds of aggregates with members it is. Source: C89 3.5.2.1.
#[derive(Clone, Copy, Debug, PartialEq, Eq)]
pub enum RecordKind {
    Struct,
    Union,
}
