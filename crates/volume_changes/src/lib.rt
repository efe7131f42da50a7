//! The changes that a volume makes of its tables, as batches, and the sectors of blocks.
//!
//! What it stands on: the tables of a disk in memory (`pointer_table`, `ref_counts`, `block_alloc`, `cap_store`), the
//! batches and the ring of `intent_journal`, and `volume_laws`, which says what a batch does to the tables of an image.
//!
//! What it promises: a step of reclamation or of a sweep, new blocks, the bytes of a block and the upgrade each change
//! the tables in memory and put into the batch exactly what turns the tables of an image into these. Nothing here
//! commits a batch: that, and the order of it all, is `volume`'s. Outside the journal it reads the sectors of a block,
//! and writes zeros: to blocks that aren't live yet, and over what the journal held.
#![tactic(auto)]

mod blocks;
mod digests;
mod erasing;
mod growing;
mod parts;
mod steps;
mod zeroing;

pub use blocks::put_block;
pub use digests::put_upgrade;
pub use erasing::erase_bodies;
pub use growing::put_new;
pub use parts::read_parts;
pub use steps::{note_step, put_step};
pub use zeroing::{holds_data, zero_blocks};
