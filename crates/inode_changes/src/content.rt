//! What a new file is made of.

ghost use Rattle.std.specs.Prelude.{◌≡◌, ◌≤◌, ◌+◌, ◌*◌, ◌++◌, length};
ghost use Rattle.fs_trees.specs.Inode.{regular, inode_bytes};
ghost use Rattle.inode_changes.specs.Content.{shared_of, shared_count, new_count, FitsInode};

use fs_fields::{NUMBER_BYTES, number_at};
use inode_layout::{blocks_for, file_inode};
use tsd_model::Data;

/// A new file: blocks that it shares with an old one, and the bytes behind them, which get new blocks.
#[derive(Drop)]
pub struct Content<'a> {
    /// Its size in bytes.
    pub size: u32,

    /// The numbers of the shared blocks as they stand in the old inode, four bytes each.
    pub shared: &'a [u8],

    /// The bytes of the first new block that the old file has already: less than a block has.
    pub front: &'a [u8],

    /// The bytes behind those, at most 4,096.
    pub bytes: &'a [u8],

    /// How many bytes a block has.
    pub block_len: usize,
}

impl<'a> Content<'a> {
    ghost use Rattle.std.specs.Prelude.{◌<◌, slice_index};

    /// How many blocks it shares.
    pub fn shared_count(&self) -> u32
        requires { FitsInode self.now }
        ensures { result ≡ shared_count self.now }
    {
        (self.shared.len() / NUMBER_BYTES) as u32
    }

    /// How many blocks are new.
    pub fn new_count(&self) -> u32
        requires { FitsInode self.now }
        ensures { result ≡ new_count self.now }
    {
        blocks_for((self.front.len() + self.bytes.len()) as u64, self.block_len) as u32
    }

    /// The block that it shares at a position.
    pub fn shared_block(&self, position: u32) -> u32
        requires { position < length (shared_of self.now) }
        ensures { result ≡ slice_index (shared_of self.now) position }
    {
        number_at(self.shared, NUMBER_BYTES * position as usize)
    }

    /// The bytes of its inode, where these are the new blocks.
    pub fn inode_bytes(&self, blocks: &[u32]) -> Data
        requires room { FitsInode self.now }
        requires each { length blocks.now ≡ new_count self.now }
        ensures { result ≡ inode_bytes (regular self.now.size (shared_of self.now ++ blocks.now)) }
    {
        file_inode(
            self.size,
            self.shared,
            self.shared.len() / NUMBER_BYTES,
            blocks,
        )
    }
}
