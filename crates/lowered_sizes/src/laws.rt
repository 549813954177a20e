//! Laws of the sizes of lowered expressions.
ghost use Rattle.lowered_sizes.specs.Frames.{ExpressionsStayLow, TestsStayLow};
ghost use Rattle.lowered_sizes.specs.Labels.{LabelsAreFew, TestLabelsAreFew};
ghost use Rattle.lowered_sizes.specs.Slots.{SlotsAreFew, TestSlotsAreFew};

/// An expression uses at most two labels for each expression in it.
pub fn labels_are_few()
    ensures expressions { LabelsAreFew }
    ensures tests { TestLabelsAreFew }
{}

/// An expression takes fewer than two slots for each expression in it, beside the temporaries of the blocks that it finishes.
pub fn slots_are_few()
    ensures expressions { SlotsAreFew }
    ensures tests { TestSlotsAreFew }
{}

/// The lowest slot falls by four bytes for each slot that an expression takes, or less.
pub fn frames_stay_low()
    ensures expressions { ExpressionsStayLow }
    ensures tests { TestsStayLow }
{}
