//! Laws of the sizes of lowered statements.
ghost use Rattle.statement_sizes.specs.Frames.{FunctionsStayLow, StatementsStayLow};
ghost use Rattle.statement_sizes.specs.Labels.{FunctionLabelsAreFew, LabelsAreFew};
ghost use Rattle.statement_sizes.specs.Slots.{FunctionSlotsAreFew, SlotsAreFew};

/// A statement uses at most four labels for each statement and expression in it, and two for each case.
pub fn labels_are_few()
    ensures statements { LabelsAreFew }
    ensures functions { FunctionLabelsAreFew }
{}

/// A statement takes at most two slots for each statement and expression in it, beside the temporaries of the blocks that it
/// finishes.
pub fn slots_are_few()
    ensures statements { SlotsAreFew }
    ensures functions { FunctionSlotsAreFew }
{}

/// The lowest slot falls by four bytes for each slot that a statement takes, or less.
pub fn frames_stay_low()
    ensures statements { StatementsStayLow }
    ensures functions { FunctionsStayLow }
{}
