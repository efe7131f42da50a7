//! The file system of chains: one directory and its files, each a chain of clusters, under one primary block of a disk.
//!
//! What it stands on: `fs_port` for the disk as one call and for what every file system promises, `chain_reading` for
//! what files and the directory hold, `chain_changes` for changes of the tree, `chain_layout` for the bytes of
//! clusters, `fs_client` for the client, for blocks that were seen and for deletions, `fs_trees` for paths and
//! refusals, `tsd_model` for capabilities, bytes and want of memory.
//!
//! How it keeps the tree whole: each change has one deciding write, that of the cluster of an entry, of the directory's
//! last cluster, or of a file's last one. All that the write names stands on the disk before it; until then the tree is
//! the old one, and from then on the new one. The pointer to what was named before is deleted after it, and with it
//! goes the chain that nothing leads to any more. What a stop leaves behind are pointers that no contents name, and
//! `mount` deletes them: it looks first whether a tree is there, and then reads each cluster and deletes the pairs out
//! of it that it doesn't name.
//!
//! What it promises: `ChainFs` keeps the clauses of `Files`. At every moment of a mount the tree is what it was. Only
//! `new` takes memory, and nothing is recursive, however long a chain is.
//!
//! A refusal is handed on by `match` in this crate: each answer is proved case by case, and `?` would put a conversion
//! between what was called and what is answered.
#![tactic(auto)]

mod file_system;
mod making;
mod mounting;
mod tidying;

pub use file_system::ChainFs;
