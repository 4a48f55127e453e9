//! LSMs over runs of either kind: the blocks after each call.

mod blocks;
