//! Laws of the runs of split bodies: how a run enters, follows and leaves each block.
ghost use Rattle.piece_runs.specs.Laws.{EntriesAreReached, FormedIsSplit, JumpIsReached, LabelIsReached, NextIsReached, NodeIsReached, OverIsReached, StartIsReached, TailsAreSame};

use dag_forest::blocks_are_split;
use dag_seam::split_trees_mean;

/// A body's run begins at its first block; what stands from an open block on doesn't depend on how far the block is.
pub fn runs_begin()
    ensures start { StartIsReached }
    ensures tails { TailsAreSame }
{}

/// With further entries of the open block a run comes to where their acts come to; a node that is no call and isn't kept takes
/// no step.
pub fn blocks_go_on_to()
    ensures entries { EntriesAreReached }
    ensures nodes { NodeIsReached }
{}

/// Blocks of which each operand is an earlier node are split in a frame with their slots.
pub fn formed_blocks_are_split()
    ensures { FormedIsSplit }
{
    blocks_are_split();
}

/// Where a block is finished the run comes to the next one, behind a label with a step for a turn; where its last entries end
/// the run, or jump, the body's run ends so, or comes to the block behind the label.
pub fn blocks_end()
    ensures over { OverIsReached }
    ensures next { NextIsReached }
    ensures labels { LabelIsReached }
    ensures jumps { JumpIsReached }
{
    split_trees_mean();
}
