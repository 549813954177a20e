//! Laws of the size of split blocks, and of the weight that bounds it.
ghost use Rattle.dag_sizes.specs.Laws.{FewerWeighLess, SizeHasBound, SplitHasSize, SwapHasBound, UseHasBound};

/// The nodes of a block's trees and its rooms together are so many; and they are no more than the block's weight, which counts
/// all its nodes, used or not.
pub fn split_blocks_are_small()
    ensures size { SplitHasSize }
    ensures bound { SizeHasBound }
{}

/// One use more of a node costs at most a room, its store and two reads, and a root for it; and a block without some of its
/// unused nodes, and of its roots that end no stretch, isn't heavier. A node that is no call costs 1 where it takes the place
/// of uses of its operands that are still to come, 3 if it is unsigned; and a read what a room with its store and a read does.
pub fn weights_change_little()
    ensures uses { UseHasBound }
    ensures fewer { FewerWeighLess }
    ensures swaps { SwapHasBound }
{}
