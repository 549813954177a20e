//! The types of expressions' values, with the pointers that arrays and functions become.
use c_types::{Qualifiers, TypeId};

/// A type of the table with qualifiers beside its own.
#[derive(Clone, Copy, Debug)]
pub struct QualifiedType {
    pub of: TypeId,
    pub qualifiers: Qualifiers,
}

/// The type of an expression's value: one of the table, or a pointer that perhaps isn't in it yet, to
/// what an array has as elements, or to a function (C89 3.2.2.1).
#[derive(Clone, Copy, Debug)]
pub enum ValueType {
    Own(TypeId),
    PointerTo(QualifiedType),
}
