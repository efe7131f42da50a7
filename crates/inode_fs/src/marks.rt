//! Marks on the blocks that a tree names.

ghost use Rattle.std.specs.Prelude.{◌≡◌, IfOk};

use fs_client::BlockSet;
use std::alloc::Global;
use tsd_model::NoMemory;

/// Marks on the blocks of a disk, however long.
#[derive(Drop)]
pub struct Marks {
    inodes: BlockSet,
    data_blocks: BlockSet,
    with_leftovers: BlockSet,
}

impl Marks {
    ghost use Rattle.inode_fs.specs.Marked.{is_inode, is_data_block, has_leftovers, MarksInode, MarksData, NoMarks};

    /// Room for marks, of which there are none.
    pub fn new(alloc: Global) -> Result<Marks, NoMemory>
        ensures { IfOk result NoMarks }
    {
        let inodes = BlockSet::new(alloc)?;
        let data_blocks = BlockSet::new(alloc)?;
        let with_leftovers = BlockSet::new(alloc)?;
        Ok(Marks {
            inodes,
            data_blocks,
            with_leftovers,
        })
    }

    /// Takes all marks away.
    pub fn clear(&mut self)
        ensures { NoMarks self.new }
    {
        self.inodes.clear();
        self.data_blocks.clear();
        self.with_leftovers.clear();
    }

    /// Whether a block is marked as an inode.
    pub fn is_inode(&self, block: u32) -> bool
        ensures { result ≡ is_inode self.now block }
    {
        self.inodes.contains(block)
    }

    /// Whether a block is marked as one of a file's bytes.
    pub fn is_data_block(&self, block: u32) -> bool
        ensures { result ≡ is_data_block self.now block }
    {
        self.data_blocks.contains(block)
    }

    /// Whether pairs out of a block lead to more than it names.
    pub fn has_leftovers(&self, block: u32) -> bool
        ensures { result ≡ has_leftovers self.now block }
    {
        self.with_leftovers.contains(block)
    }

    /// Marks an inode.
    pub fn mark_inode(&mut self, block: u32, has_leftovers: bool)
        ensures { MarksInode self.old self.new block has_leftovers }
    {
        self.inodes.insert(block);
        if has_leftovers {
            self.with_leftovers.insert(block);
        }
    }

    /// Marks a block of a file's bytes.
    pub fn mark_data_block(&mut self, block: u32, has_leftovers: bool)
        ensures { MarksData self.old self.new block has_leftovers }
    {
        self.data_blocks.insert(block);
        if has_leftovers {
            self.with_leftovers.insert(block);
        }
    }
}
