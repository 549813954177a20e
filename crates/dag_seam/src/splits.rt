//! Laws of split blocks: in a frame with the new slots the trees do what the block does.
ghost use Rattle.dag_seam.specs.SplitLaws.{SplitMeans, TurnsMean};

use dag_forest::trees_do_what_blocks_do;

/// In a frame with the slots behind the split of a block, and maybe more behind them, the trees do what the block does, and go
/// on behind it. So they do for a run in which unused nodes are made, too.
pub fn split_trees_mean()
    ensures acts { SplitMeans }
    ensures turns { TurnsMean }
{
    trees_do_what_blocks_do();
}
