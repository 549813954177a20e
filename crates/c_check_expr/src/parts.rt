//! What specifiers and declarators come to once they are checked: types, parameters and steps.
use c_ast::{BasicType, Qualifier, Storage};
use c_meaning::CoreExpr;
use c_symbols::Scope;
use c_types::{Qualifiers, TypeId};
use lcc_base::{Bytes, Items};

/// One specifier of a list: a storage class, a qualifier, a word, or a whole type.
#[derive(Clone, Copy, Debug)]
pub enum Part {
    Stored(Storage),
    Qualified(Qualifier),
    Word(BasicType),
    Whole(TypeId),
}

/// What specifiers say: the storage classes, and the type.
#[derive(Debug, Drop)]
pub struct Specified {
    pub classes: Items<Storage>,
    pub of: TypeId,
}

/// A parameter of a prototype: its name, if it has one, and its type, which is no array and no function.
#[derive(Debug, Drop)]
pub struct NamedParameter {
    pub name: Option<Bytes>,
    pub of: TypeId,
}

/// What a declarator makes of a type, step by step, from the type outwards (C89 3.5.4).
#[derive(Drop)]
pub enum Step {
    /// A pointer with these qualifiers.
    Pointer(Qualifiers),
    /// An array, with the expression of its size if there is any.
    Array(Option<CoreExpr>),
    /// A function with a prototype, perhaps with `...` behind its parameters, and the names that were in
    /// force at their end.
    Function {
        parameters: Items<NamedParameter>,
        more: bool,
        scope: Scope,
    },
    /// A function with the names of its parameters.
    Named(Items<Bytes>),
    /// A function of which nothing is said.
    Open,
}

/// A declarator's line and name, and its steps.
#[derive(Drop)]
pub struct Declared {
    pub line: u32,
    pub name: Option<Bytes>,
    pub steps: Items<Step>,
}

/// A name, and its type.
#[derive(Drop)]
pub struct Shaped {
    pub name: Option<Bytes>,
    pub of: TypeId,
}
