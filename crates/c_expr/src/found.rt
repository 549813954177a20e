//! The result of a reader of C's grammar: a tree and the tokens behind it.
use c_lexer::Token;

/// A tree that was read, its height, and the tokens behind it.
#[derive(Drop)]
pub(crate) struct Found<'t, T> {
    pub(crate) tree: T,
    pub(crate) height: u32,
    pub(crate) rest: &'t [Token],
}
