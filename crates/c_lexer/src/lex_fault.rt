//! The faults of the lexer: why a source can't be cut into tokens, and on which line.
ghost use Rattle.std.specs.Prelude.{◌≡◌};

use thiserror::Error;

/// Why a source can't be cut into tokens.
#[derive(Clone, Copy, Debug, PartialEq, Eq, Error)]
pub enum LexFaultKind {
    /// The byte begins no token.
    #[error("the byte begins no token")]
    BadByte,
    /// The constant is malformed, or greater than 4,294,967,295.
    #[error("the constant is malformed")]
    BadConstant,
    /// A comment doesn't end.
    #[error("the comment doesn't end")]
    OpenComment,
    /// The line ends within a character constant or a string literal.
    #[error("the line ends within a literal")]
    OpenText,
    /// The constant is a floating one.
    #[error("the constant is a floating one")]
    FloatConstant,
    /// The literal is one of wide characters.
    #[error("the literal is one of wide characters")]
    WideConstant,
}

/// Where a source can't be cut into tokens, and why.
#[derive(Clone, Copy, Debug, PartialEq, Eq, Error)]
#[error("line {line}: {kind}")]
pub struct LexFault {
    pub kind: LexFaultKind,
    /// The line of the place where no token can be cut; of a comment, where it begins.
    pub line: u32,
}
