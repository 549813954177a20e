//! Cases of the front end: a source, the question that is asked of it, and the answer expected.
/// A case: a source of C, what is asked of it, and what has to be told.
#[derive(Drop)]
pub struct Case {
    pub name: String,
    pub question: Question,
    pub source: Vec<u8>,
    pub told: Vec<u8>,
}

/// What is asked of a source.
#[derive(Clone, Copy, Debug, PartialEq, Eq)]
pub enum Question {
    /// Its tokens, and the fault behind them.
    Tokens,
    /// Whether such a piece stands at its beginning, and what is behind.
    Piece(Production),
    /// Whether it is a unit.
    Unit,
    /// The unit that it is, printed.
    Printed,
    /// Whether the unit that it is breaks a constraint or passes a limit.
    CheckedUnit,
    /// What its declarations declare, and what its expressions are.
    Checked,
    /// What all declarations of the name `x` in it come to.
    Linked,
}

/// A production whose pieces are read.
#[derive(Clone, Copy, Debug, PartialEq, Eq)]
pub enum Production {
    Expression,
    TypeName,
    Initialiser,
    Declaration,
    Statement,
}

/// The question that words ask, if they do.
pub fn question_of(words: &str) -> Option<Question> {
    let question = match words {
        "tokens" => Question::Tokens,
        "expression" => Question::Piece(Production::Expression),
        "type name" => Question::Piece(Production::TypeName),
        "initialiser" => Question::Piece(Production::Initialiser),
        "declaration" => Question::Piece(Production::Declaration),
        "statement" => Question::Piece(Production::Statement),
        "unit" => Question::Unit,
        "printed" => Question::Printed,
        "checked unit" => Question::CheckedUnit,
        "checked" => Question::Checked,
        "linked" => Question::Linked,
        _ => return None,
    };
    Some(question)
}
