//! What an inode's block says.

ghost use Rattle.std.specs.Prelude.{◌≡◌, ◌≤◌, ◌<◌, ◌*◌, ◌+◌, length};
ghost use Rattle.fs_trees.specs.Fields.{begins_with};
ghost use Rattle.fs_trees.specs.Inode.{magic};
ghost use Rattle.inode_layout.specs.Kinds.{item_bytes, items_for};

use crate::kind::{InodeKind, item_bytes, items_for, kind_of, room_for};
use fs_fields::{are_apart, are_in_order, block_of, next_name, number_at};
use fs_trees::Name;
use tsd_model::Data;

/// What an inode begins with.
pub const MAGIC: [u8; 8] = *b"TSDINOD1";

/// How many bytes stand before the list of an inode.
pub const HEAD_BYTES: usize = 16;

const _: () = prove!(HEAD_BYTES == 16);

/// An inode as it was read from its block. Its head is right: the block has room for the items that it counts.
#[derive(Drop)]
pub struct Inode {
    kind: InodeKind,
    amount: u32,
    count: usize,
    bytes: Data,
    ghost whole: { 16 ≤ length bytes },
    ghost fits: { 16 + item_bytes kind * count ≤ length bytes },
    ghost counts: { count ≡ items_for kind amount (length bytes) },
}

/// Whether a block begins as an inode's.
fn has_magic(bytes: &[u8]) -> bool
    requires { 16 ≤ length bytes.now }
    ensures { result ≡ begins_with magic bytes.now }
{
    &bytes[..MAGIC.len()] == MAGIC.as_slice()
}

impl Inode {
    ghost use Rattle.std.specs.Prelude.{slice_index, option_map, None, IfSome};
    ghost use Rattle.tsd_model.specs.World.{has_number};
    ghost use Rattle.inode_layout.specs.Said.{said_in, is_in_order, blocks_said, is_directory, item_size, amount_said};
    ghost use Rattle.inode_layout.specs.Said.{entry_said, next_said};
    ghost use Rattle.inode_layout.specs.Block.{inode_of, bytes_of, body_of, block_len_of};

    /// The inode in a block's bytes, where its head is one's. The order of its list isn't looked at.
    #[tactic(none)]
    pub fn parse(bytes: Data) -> Option<Inode>
        /// promise (with short): What inode a block is, if it is one.
        ensures said { 16 ≤ length bytes → option_map inode_of result ≡ said_in (length bytes) bytes }
        ensures short { length bytes < 16 → result ≡ None }
        ensures kept { IfSome result (λ inode. bytes_of inode ≡ bytes) }
    {
        if bytes.len() < HEAD_BYTES {
            return None;
        }
        Inode::parse_whole(bytes)
    }

    /// The inode in the bytes of a block that has room for a head.
    #[tactic(none)]
    fn parse_whole(bytes: Data) -> Option<Inode>
        requires { 16 ≤ length bytes }
        ensures said { option_map inode_of result ≡ said_in (length bytes) bytes }
        ensures kept { IfSome result (λ inode. bytes_of inode ≡ bytes) }
    {
        if !has_magic(bytes.as_slice()) {
            return None;
        }
        let len = bytes.len();
        let kind = match kind_of(number_at(bytes.as_slice(), 8)) {
            Some(kind) => kind,
            None => return None,
        };
        let amount = number_at(bytes.as_slice(), 12);
        let count = items_for(kind, amount, len);
        if count > room_for(kind, len) {
            return None;
        }
        Some(Inode {
            kind,
            amount,
            count,
            bytes,
        })
    }

    /// Whether it is a directory's.
    pub fn is_directory(&self) -> bool
        ensures { result ≡ is_directory (inode_of self.now) }
    {
        match self.kind {
            InodeKind::Directory => true,
            InodeKind::Regular => false,
        }
    }

    /// The number of entries of a directory, or the size of a file.
    pub fn amount(&self) -> u32
        ensures { result ≡ amount_said (inode_of self.now) }
    {
        self.amount
    }

    /// How many blocks it names.
    pub fn count(&self) -> usize
        ensures value { result ≡ length (blocks_said (inode_of self.now)) }
        ensures fits { 16 + item_size (inode_of self.now) * result ≤ block_len_of self.now }
    {
        self.count
    }

    /// How many bytes its block has.
    pub fn block_len(&self) -> usize
        ensures value { result ≡ block_len_of self.now }
        ensures fits { result ≤ 4096 }
        ensures whole { 16 ≤ result }
    {
        self.bytes.len()
    }

    /// The bytes behind its head.
    pub fn body(&self) -> &[u8]
        ensures value { result.now ≡ body_of self.now }
        ensures whole { 16 + length result.now ≡ block_len_of self.now }
        ensures fits { block_len_of self.now ≤ 4096 }
    {
        &self.bytes.as_slice()[HEAD_BYTES..]
    }

    /// The block that it names at a position.
    pub fn named(&self, position: usize) -> u32
        requires { position < length (blocks_said (inode_of self.now)) }
        ensures { result ≡ slice_index (blocks_said (inode_of self.now)) position }
    {
        number_at(self.body(), item_bytes(self.kind) * position)
    }

    /// Whether it names a block.
    pub fn names(&self, block: u32) -> bool
        ensures { result ≡ has_number (blocks_said (inode_of self.now)) block }
    {
        for position in 0..self.count() {
            if self.named(position) == block {
                return true;
            }
        }
        false
    }

    /// The block that a directory names so. A file names none.
    pub fn entry(&self, name: &[u8]) -> Option<u32>
        ensures { result ≡ entry_said name.now (inode_of self.now) }
    {
        match self.kind {
            InodeKind::Directory => block_of(self.body(), self.count, name),
            InodeKind::Regular => None,
        }
    }

    /// The first name of a directory that stands above another. A file has none.
    pub fn name_after(&self, after: &[u8]) -> Option<Name>
        ensures { result ≡ next_said after.now (inode_of self.now) }
    {
        match self.kind {
            InodeKind::Directory => next_name(self.body(), self.count, after),
            InodeKind::Regular => None,
        }
    }

    /// Whether the names of a directory's entries are names and ascend, or no block of a file stands twice.
    pub fn is_in_order(&self) -> bool
        /// promise: Whether the inode's entries are in order.
        ensures { result ≡ is_in_order (inode_of self.now) }
    {
        match self.kind {
            InodeKind::Directory => are_in_order(self.body(), self.count),
            InodeKind::Regular => are_apart(self.body(), self.count),
        }
    }
}
