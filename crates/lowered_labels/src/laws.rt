//! Laws of the labels of lowered functions.
ghost use Rattle.lowered_labels.specs.Marks.{ExpressionsMark, FunctionsMark, StatementsMark, TestsMark};
ghost use Rattle.lowered_labels.specs.Used.{FunctionsAreKnown, StatementsKeepKnown};

/// The lowering of an expression, of a test and of a statement marks each label that it uses once, and no other ones but the
/// labels of the program that stand in it. So in the lowered body of a checked function each label stands once.
pub fn labels_are_marked()
    ensures expressions { ExpressionsMark }
    ensures tests { TestsMark }
    ensures statements { StatementsMark }
    ensures functions { FunctionsMark }
{}

/// The blocks that the lowering of a statement finishes are blocks, no root of theirs is a label, and each label that is named
/// has been used, where the statement's jumps stay in the function. So in the lowered body of such a function each label that
/// is named is one that is marked.
pub fn labels_are_used()
    ensures statements { StatementsKeepKnown }
    ensures functions { FunctionsAreKnown }
{}
