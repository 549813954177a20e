//! The errors of declaring a name: a redeclaration in its scope, or refused memory.
use crate::scopes::SymbolId;
use thiserror::Error;

/// Why a name isn't declared.
#[derive(Clone, Copy, Debug, PartialEq, Eq, Error)]
pub enum Declare {
    /// The innermost scope has the name: as this symbol.
    #[error("the name is declared in this scope")]
    Redeclared { old: SymbolId },
    /// An allocation was refused.
    #[error("an allocation was refused")]
    Memory,
}
