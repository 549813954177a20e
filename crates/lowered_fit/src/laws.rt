//! Laws of blocks that fit their frames.
ghost use Rattle.lowered_fit.specs.ExpressionLaws.{ExpressionsFit, TestsFit};
ghost use Rattle.lowered_fit.specs.Laws.{LoneRootsGoOn, RootsGoOn, TemplatesAreFound};

/// Blocks fit their frames where they are asked for what fits.
pub fn blocks_fit()
    ensures templates { TemplatesAreFound }
    ensures roots { RootsGoOn }
    ensures lone { LoneRootsGoOn }
{}

/// What expressions are lowered to fits the frame.
pub fn expressions_fit()
    ensures values { ExpressionsFit }
    ensures tests { TestsFit }
{}
