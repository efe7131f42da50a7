//! The block of a cluster: what it says, and what is written as one.
//!
//! What it stands on: `fs_fields` for numbers, names and entries, `fs_trees` for what a cluster is, `fs_laws` for how
//! entries are read back, `tsd_model` for lists of bytes.
//!
//! A cluster begins with 16 bytes: `TSDCHAN1`, the block of the next cluster plus 1 in 4 bytes (0 where there is none),
//! and in 4 how many entries of the directory, or bytes of a file, follow.
//!
//! What it promises: what is written is the cluster's bytes by the definitions of `fs_trees`, and is read back as that
//! cluster. A block is a cluster by them exactly where `Cluster::parse` gives one, one of the directory where
//! `DirectoryCluster::of` does, and one that has room for its bytes where `FileCluster::of` does; what is told of it is
//! what they say. Nothing takes memory.
#![tactic(auto)]

mod cluster;
mod directory;
mod distinct;
mod file;
mod laws;
mod names;
mod room;
mod writing;

pub use cluster::Cluster;
pub use directory::DirectoryCluster;
pub use file::FileCluster;
pub use laws::what_is_written_reads_back;
pub use names::lesser;
pub use room::{bytes_room, clusters_for, entries_room};
pub use writing::{
    directory_linked, directory_of_one, directory_with, directory_without, empty_directory,
    file_part,
};
