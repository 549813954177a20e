//! Laws of the blocks of lowered expressions.
ghost use Rattle.lowered_blocks.specs.Known.{ExpressionsKeepKnown, TestsKeepKnown};

/// The blocks that the lowering of expressions and tests finishes are blocks: operands are nodes of their own block, and no two
/// nodes are equal. No root is a label, and each label that is named or marked has been used.
pub fn blocks_are_known()
    ensures expressions { ExpressionsKeepKnown }
    ensures tests { TestsKeepKnown }
{}
