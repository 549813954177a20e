//! Laws of the bound of what is lowered.
ghost use Rattle.expression_weights.specs.Expressions.{ExpressionsAreSmall, TestsAddFew, ValuesAddFew};
ghost use Rattle.expression_weights.specs.Weighs.{BoundsHold, EmptyWeighsNothing};

/// What weighs at most so much has at most this weight, and where nothing is lowered it weighs nothing.
pub fn weights_are_bounds()
    ensures bound { BoundsHold }
    ensures empty { EmptyWeighsNothing }
{}

/// The lowering of an expression, with one use more of its value, and of a test adds at most `each` nodes and temporaries for each
/// expression in it, and no more nodes to the open block.
pub fn expressions_are_small()
    ensures handed { ExpressionsAreSmall }
    ensures values { ValuesAddFew }
    ensures tests { TestsAddFew }
{}
