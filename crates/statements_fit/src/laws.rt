//! Laws of statements that fit their frames.
ghost use Rattle.statements_fit.specs.Laws.{FunctionsFit, LayoutsFit, StatementsFit};

/// What statements and functions are lowered to fits the frame.
pub fn statements_fit()
    ensures statements { StatementsFit }
    ensures layouts { LayoutsFit }
    ensures functions { FunctionsFit }
{}
