//! Meanings that an inner declaration hides, kept until its scope is left.
use crate::scopes::SymbolId;

/// What a name meant before a declaration, by the name's place among the meanings.
#[derive(Clone, Copy, Debug)]
pub(crate) struct Hidden {
    pub(crate) place: usize,
    pub(crate) before: Option<SymbolId>,
}
