//! A step of taking pointers away.

use tsd_model::BlockList;

/// Pairs to take away from one block.
#[derive(Debug, PartialEq, Eq, Drop)]
pub struct OutStep {
    /// The source of the pairs.
    pub block: u32,

    /// Their targets.
    pub targets: BlockList,

    /// Whether the block becomes free.
    pub freed: bool,
}
