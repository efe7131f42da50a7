//! The block of an inode: what it says, and what is written as one.
//!
//! What it stands on: `fs_fields` for numbers, names and entries, `fs_trees` for what an inode is, `fs_laws` for how
//! one is read back, `tsd_model` for lists of bytes.
//!
//! An inode begins with 16 bytes: `TSDINOD1`, the kind in 4 bytes (1 a directory, 2 a file), and the amount in 4. A
//! directory's amount is the number of its entries, which follow in ascending order of their names. A file's amount is
//! its size, and the numbers of its blocks follow, one for each started length of a block.
//!
//! What it promises: what is written is the inode's bytes by the definitions of `fs_trees`, and is read back as that
//! inode. A block is an inode by them exactly where `Inode::parse` gives one and `Inode::is_in_order` answers true;
//! what is told of it is what they say. Nothing takes memory.
#![tactic(auto)]

mod inode;
mod kind;
mod laws;
mod room;
mod writing;

pub use inode::Inode;
pub use kind::InodeKind;
pub use laws::{blocks_are_read_in_two_steps, what_is_written_reads_back};
pub use room::{blocks_for, data_room, entries_room};
pub use writing::{directory_with, directory_without, empty_directory, file_inode};
