//! Tests of mounting over a plain disk, of the file system of inodes and of the one of chains: worlds laid by hand,
//! which are a tree or none, and what is left of their pointers, also where mounting is stopped and begun again.
//!
//! They use public calls alone and show what no clause says. Two callers over a disk that tells its world are proved:
//! what is put is read back, and whatever a crash leaves is mounted. Nothing stands on this crate.
#![tactic(auto)]

mod calling;
#[cfg(test)]
mod chain_blocks;
#[cfg(test)]
mod chain_trees;
#[cfg(test)]
mod fields;
#[cfg(test)]
mod inode_blocks;
#[cfg(test)]
mod inode_trees;
#[cfg(test)]
mod laying;
#[cfg(test)]
mod mounting;

pub use calling::{mount_what_is_left, put_and_read_back};
