//! A tree copied from one root of a disk to another, in either layout.
//!
//! What it stands on: `fs_port` says what a disk and a file system promise, `fs_walks` what the source reads in one
//! walk, `fs_trees` which asks make a tree again, and `fs_laws` that what one root reaches stays while another is
//! written.
//!
//! What it promises (`specs/Copies`): the target's root has the source's tree afterwards, or the tree after the steps
//! before the one that is refused. A crash at any moment leaves the source's tree, and under the target's root what was
//! there before or the tree after some of the steps.
//!
//! - `copy`: the whole.
//! - `nested`: the first directory of a tree.
//! - `walk`: the entries, depth first, without memory: where the walk is, is a path and the last name there.
//! - `ahead`: the names of a directory, of which some are read ahead: they stay while the target changes.
//! - `entry`, `pieces`, `batches`: one entry, the bytes of a file, and several pieces of it at once.
//!
//! A refusal is handed on by `match` in this crate: each answer is proved case by case, and `?` would put a conversion
//! between what was called and what is answered.
#![tactic(auto)]

mod ahead;
mod batches;
mod copied;
mod copy;
mod entry;
mod nested;
mod pieces;
mod refusal;
mod walk;

pub use copied::Copied;
pub use copy::copy_tree;
pub use refusal::CopyRefusal;
