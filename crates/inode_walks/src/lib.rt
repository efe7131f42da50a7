//! Reading a tree of inodes: the way to what stands at a path, and what is told of it.
//!
//! What it stands on: `fs_port` for the disk as one call and for what a file system answers, `fs_client` for single
//! requests, `inode_layout` for the bytes of inodes, `fs_trees` for trees and refusals, `fs_laws` for the tree as it is
//! read from its blocks, `tsd_model` for lists of bytes.
//!
//! What it promises: each call answers by the tree under the root: what is found at a path was read from the block of
//! what stands there, and a refusal is the first that applies. A path is walked block by block, each block on it read
//! once. The calls only look: the world stays, and a stop leaves it as it was. Nothing takes memory.
//!
//! A refusal is handed on by `match` in this crate: each answer is proved case by case, and `?` would put a conversion
//! between what was called and what is answered.
#![tactic(auto)]

mod finding;
mod reading;

pub use finding::{Found, Lookup, find_directory, find_file, look_up, read_inode, walk};
pub use reading::{name_after, read_part, size};
