//! Laws of how much statements and functions add.
ghost use Rattle.statement_weights.specs.Statements.{FunctionsAreSmall, FunctionsWeighLittle, StatementsAddFew};

/// The lowering of a statement adds at most `each` nodes and temporaries for each statement, expression and case in it; that of a
/// function whose jumps stay in it weighs at most so much, beside its locals' slots, 25 for each parameter, and 2.
pub fn statements_are_small()
    ensures statements { StatementsAddFew }
    ensures functions { FunctionsWeighLittle }
    ensures sizes { FunctionsAreSmall }
{}
