//! The disk: one request at a time, crash or not.
//!
//! What it stands on: `volume` is a world on a device, and `grant_table` judges requests and holds what sessions may
//! do.
//!
//! What it promises: a request is answered by the rules of the disk, and a crash at any moment leaves the world before
//! it or the world after it. What it writes goes by the pairs that it removes, and a request that a rule refuses asks
//! nothing of the device. The laws of `seen` say why a level that is left at a free block counts in no verdict: it is
//! dropped before the block is given out again, so it never comes back with the block's number, and nothing need be
//! dropped where a deletion frees many blocks at once.
#![tactic(auto)]

mod apply;
mod blocks;
mod carry;
mod closing;
mod disk;
mod grow;
mod laws;
mod lending;
mod outcome;
mod pointers;
mod raise;
mod seen;
mod sessions;
mod settle;
mod told;

pub use disk::Core;
pub use laws::a_request_costs_by_the_pairs_that_it_removes;
pub use seen::{
    answers_keep_the_laws, replies_have_a_form, what_is_left_at_free_blocks_counts_for_nothing,
};
