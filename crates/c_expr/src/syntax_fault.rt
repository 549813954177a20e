//! The syntax faults of C sources: no parse, tokens that can't be cut, or lack of memory.
use c_lexer::LexFault;
use thiserror::Error;

/// Why a source has no tree of the production that was asked for.
#[derive(Clone, Copy, Debug, PartialEq, Eq, Error)]
pub enum SyntaxFault {
    /// No piece of the production stands there, or what is next goes on from it.
    #[error("line {line}: no parse")]
    NoParse {
        /// The line of the token by which nothing goes on, or at the end that of the last token.
        line: u32,
    },
    /// An allocation was refused.
    #[error("an allocation was refused")]
    Memory,
    /// The source can't be cut into tokens.
    #[error("{0}")]
    Lex(LexFault),
}
