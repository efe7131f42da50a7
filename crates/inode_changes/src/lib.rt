//! Changes of a tree of inodes, each decided by one write: directories made, files put, grown, copied and removed.
//!
//! What it stands on: `inode_walks` for what stands at a path, `fs_client` for requests and for what calls of either
//! layout leave, `inode_layout` and `fs_fields` for the bytes of inodes, `fs_port` for the disk as one call and for
//! what a file system answers, `fs_trees` for trees and refusals, `fs_laws`, `graph_laws` and `disk_laws` for what a
//! request leaves.
//!
//! How a change goes: a new inode is made under a directory that doesn't name it yet (`beginning`, `new_file`,
//! `directories`); that of a file gets the blocks that it shares with an old file, new ones for its bytes, and its own
//! bytes (`filling`). One write then enters it, in a new entry or in place of an old one, which is let go of
//! (`entering`). Blocks that are full are shared, never copied.
//!
//! What it promises: each call answers and changes the tree by its ask's step. A refusal leaves the disk as it was, and
//! tells the numbers of the time before. A stop leaves the tree before or the tree after. The world is tidy afterwards
//! if it was before, and what the root doesn't reach stays. Nothing takes memory.
//!
//! A refusal is handed on by `match` in this crate: each answer is proved case by case, and `?` would put a conversion
//! between what was called and what is answered.
#![tactic(auto)]

mod appending;
mod beginning;
mod blocks;
mod content;
mod copying;
mod directories;
mod entering;
mod filling;
mod new_file;
mod putting;
mod removing;
mod sharing;
mod sizes;

pub use appending::append;
pub use copying::copy;
pub use directories::make_dir;
pub use putting::put;
pub use removing::remove;
