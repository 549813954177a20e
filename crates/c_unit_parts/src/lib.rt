//! What a unit of C has (C89 3.7): its functions, its objects, and each declaration of a name with linkage.
#![tactic(auto)]

use c_check_decl::{DefinedObject, LinkedName};
use c_meaning::CoreFunction;
use c_symbols::SymbolId;
use lcc_base::Items;

/// A function that is defined, with the symbol of all its declarations (C89 3.7.1).
#[derive(Drop)]
pub struct DefinedFunction {
    pub symbol: SymbolId,
    pub function: CoreFunction,
}

/// What a unit has so far, each in the order of the text. Its expressions name symbols, and have string
/// literals by themselves.
#[derive(Drop)]
pub struct UnitParts {
    pub functions: Items<DefinedFunction>,
    /// The objects with static storage that are defined, those that blocks define among them.
    pub objects: Items<DefinedObject>,
    /// Each declaration of a name with linkage.
    pub linked: Items<LinkedName>,
}
