//! What a file system reads in one walk, though it is asked for it part by part.
//!
//! What it stands on: `fs_port` for the disk as one call and for what every file system promises, `fs_trees` for paths
//! and refusals, `tsd_model` for bytes and for what a disk is at a moment.
//!
//! A file system keeps nothing of the disk between its calls: each may be given another one. Whoever asks several times
//! of one disk, and knows that nothing changed in between, holds the place that the call before came to, and gives it
//! to the next one.
//!
//! What it promises: `Walks` is the contract of such calls over any disk. They answer by the same steps of the tree as
//! `Files` has them.
#![tactic(auto)]

mod place;
mod walks;

pub use place::Place;
pub use walks::{NAMES_AT_ONCE, Walks};
