//! Laws of the lowering of statements.
ghost use Rattle.lowered_statements.specs.Choices.{ChosenIsFound, ChosenIsLabel};
ghost use Rattle.lowered_statements.specs.Framed.{FunctionsHaveFrames, LayoutsAreFrames, StatementsKeepFrames};
ghost use Rattle.lowered_statements.specs.Later.{FunctionsAdd, StatementsAdd};
ghost use Rattle.lowered_statements.specs.Nodes.{StatementsLeaveBlocks};

/// The lowering of a statement adds pieces, slots, labels and tables; what was the open block begins the first further piece, or
/// is open still. So a function's locals have the first slots, and the labels of the program the first numbers.
pub fn statements_add()
    ensures statements { StatementsAdd }
    ensures functions { FunctionsAdd }
{}

/// Where the open block is one, it is one behind a statement.
pub fn statements_leave_blocks()
    ensures { StatementsLeaveBlocks }
{}

/// The search of a switch leads a number to the label that C chooses for it.
pub fn searches_choose()
    ensures labels { ChosenIsLabel }
    ensures found { ChosenIsFound }
{}

/// The slots of a function's locals are a frame, and so are the slots while statements are lowered. Those behind which a
/// finished block is split stand first in it, with the block's temporaries.
pub fn frames_are_kept()
    ensures layouts { LayoutsAreFrames }
    ensures statements { StatementsKeepFrames }
    ensures functions { FunctionsHaveFrames }
{}
