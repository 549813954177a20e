//! Laws of lowering: it only adds to blocks, and an expression's value is found in its block.
ghost use Rattle.lowered_forms.specs.Blocks.{AnswersAreAsked, LoneRootsAreThere, RootsAreThere, TemplatesAreThere};
ghost use Rattle.lowered_forms.specs.Handed.{ExpressionsAreNodes};
ghost use Rattle.lowered_forms.specs.Later.{FrontsGoBack, LoweringAdds, StraightGoesOn, TestingAdds};
ghost use Rattle.lowered_forms.specs.Nodes.{TestsEndBlocks, ValuesHaveNodes};
ghost use Rattle.lowered_forms.specs.Operands.{ValuesAreOperands};

/// What a block answers where it is asked for a node is what the lowering asks for. A block that is asked for a template of
/// its nodes, and one with a root more, is a block still, with the nodes that it had.
pub fn blocks_answer()
    ensures answers { AnswersAreAsked }
    ensures templates { TemplatesAreThere }
    ensures roots { RootsAreThere }
    ensures lone { LoneRootsAreThere }
{}

/// The lowering of an expression adds pieces, slots and labels; what was the open block begins the first further piece, or is
/// open still. So where the later block goes on to be one of a whole, the earlier one does. The lowering of a straight
/// expression goes on in the open block, with one root for an assignment or a change at most, and two for a call and for each
/// argument. What comes of an expression is a node, an address or a constant.
pub fn lowering_goes_on()
    ensures expressions { LoweringAdds }
    ensures tests { TestingAdds }
    ensures straight { StraightGoesOn }
    ensures operands { ValuesAreOperands }
    ensures fronts { FrontsGoBack }
{}

/// Where the open block is one, it is one behind an expression, and what comes of the expression finds nodes of the block
/// that is open then; so it is one where it is handed on as a node. Behind a test a block begins.
pub fn values_have_nodes()
    ensures nodes { ValuesHaveNodes }
    ensures ends { TestsEndBlocks }
    ensures handed { ExpressionsAreNodes }
{}
