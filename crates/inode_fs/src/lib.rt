//! The file system of inodes: a tree of directories and files under one primary block of a disk.
//!
//! What it stands on: `fs_port` for the disk as one call and for what every file system promises, `inode_walks` for
//! what stands at a path, `inode_changes` for changes of the tree, `inode_layout` for the bytes of inodes, `fs_client`
//! for the client, for marks and for deletions, `fs_trees` for paths and refusals, `tsd_model` for capabilities, bytes
//! and want of memory.
//!
//! How it keeps the tree whole: each change has one deciding write. A directory's block is written last, after all that
//! its new entry names stands on the disk; until then the tree is the old one, and from then on the new one. The
//! pointer to what the entry named before is deleted after it, and with it go the blocks that nothing leads to any
//! more. What a stop leaves behind are pointers that no contents name, and `mount` deletes them.
//!
//! How mounting goes: each inode is read once, from the root on, and for each block that is named its pairs are asked
//! for once. What is named is marked, and so is what has pairs that its contents don't name. Where all is right, these
//! pairs are deleted. Of a disk that is no tree nothing is deleted.
//!
//! What it promises: `InodeFs` keeps the clauses of `Files`. Only `new` takes memory.
//!
//! A refusal is handed on by `match` in this crate: each answer is proved case by case, and `?` would put a conversion
//! between what was called and what is answered.
#![tactic(auto)]

mod file_system;
mod looking;
mod making;
mod marks;
mod mounting;

pub use file_system::InodeFs;
