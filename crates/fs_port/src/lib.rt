//! The disk as one call, and what file systems promise over it.
//!
//! What it stands on: `tsd_model` for requests and replies, `image_device` for what a failed call is, `fs_trees` for
//! trees and asks, `plain_disk` for the disk in memory, `disk_laws` for what a request leaves.
//!
//! What it promises: `Blocks` is the whole contract of a disk as a file system sees it: each ask answers by the rules
//! of the disk, a crash inside leaves the world before or the one after, and `Failed` comes only where a count rose.
//! `Files` is the contract of a file system over any such disk: each call answers and changes the tree by `tree_step`,
//! a refusal leaves the disk, a crash inside leaves the tree before or the one after, and what its root doesn't reach
//! stays.
//! `what_is_held_stays` is a law of the requests that it may ask.
//! `PlainBlocks` is such a disk in memory, by the plain program.
#![tactic(auto)]

mod blocks;
mod files;
mod free;
mod led;
mod plain;

pub use blocks::Blocks;
pub use files::Files;
pub use free::free_blocks;
pub use fs_trees::{FsRefusal, Name, Path};
pub use led::what_is_held_stays;
pub use plain::PlainBlocks;
