//! Changes of a tree of chains, each decided by one write: files put, grown and removed.
//!
//! What it stands on: `chain_reading` for looking names up, for clusters as they stand and for what the deciding writes
//! leave, `fs_client` for requests and for what calls of either layout leave, `chain_layout` and `fs_fields` for the
//! bytes of clusters, `fs_port` for the disk as one call and for what a file system answers, `fs_trees` for trees and
//! refusals, `fs_laws`, `graph_laws` and `disk_laws` for what a request leaves.
//!
//! How a new file is made: new blocks hang from a block of the tree, each under the one before it, and get the bytes of
//! a file that nothing names yet; want of room refuses that and leaves the world as it was. Then one write names it.
//!
//! What it promises: each call answers and changes the tree by its ask's step; a refusal leaves the disk as it was; a
//! stop leaves the tree before or the tree after; the world is tidy afterwards if it was before, and what the root
//! doesn't reach stays. Nothing is recursive, however long a chain is, and nothing takes memory.
//!
//! A refusal is handed on by `match` in this crate: each answer is proved case by case, and `?` would put a conversion
//! between what was called and what is answered.
#![tactic(auto)]

mod appending;
mod blocks;
mod bytes;
mod file;
mod finding;
mod putting;
mod removing;

pub use appending::append;
pub use putting::put;
pub use removing::remove;
