//! The two kinds of inodes.

ghost use Rattle.std.specs.Prelude.{◌≡◌, ◌≤◌, ◌<◌, ◌^◌};
ghost use Rattle.inode_layout.specs.Kinds.{item_bytes, kind_number, kind_of, items_for, room_for};

use crate::inode::HEAD_BYTES;
use fs_fields::{ENTRY_BYTES, NUMBER_BYTES};

/// What an inode is of.
#[derive(Clone, Copy, Debug, PartialEq, Eq)]
pub enum InodeKind {
    /// A directory.
    Directory,

    /// A file.
    Regular,
}

/// How many bytes an item of its list has: an entry, or the number of a block.
pub fn item_bytes(kind: InodeKind) -> usize
    ensures { result ≡ item_bytes kind }
{
    match kind {
        InodeKind::Directory => ENTRY_BYTES,
        InodeKind::Regular => NUMBER_BYTES,
    }
}

/// The number that is written for a kind.
pub fn kind_number(kind: InodeKind) -> u32
    ensures { result ≡ kind_number kind }
{
    match kind {
        InodeKind::Directory => 1,
        InodeKind::Regular => 2,
    }
}

/// The kind that is written so.
pub fn kind_of(number: u32) -> Option<InodeKind>
    ensures { result ≡ kind_of number }
{
    match number {
        1 => Some(InodeKind::Directory),
        2 => Some(InodeKind::Regular),
        _ => None,
    }
}

/// How many items an amount counts, in a block of this length.
pub fn items_for(kind: InodeKind, amount: u32, len: usize) -> usize
    requires { 0 < len }
    ensures { result ≡ items_for kind amount len }
{
    match kind {
        InodeKind::Directory => amount as usize,
        InodeKind::Regular => (amount as usize).div_ceil(len),
    }
}

/// How many items a block of this length has room for.
pub fn room_for(kind: InodeKind, len: usize) -> usize
    requires { 16 ≤ len }
    ensures { result ≡ room_for kind len }
{
    match kind {
        InodeKind::Directory => (len - HEAD_BYTES) / ENTRY_BYTES,
        InodeKind::Regular => (len - HEAD_BYTES) / NUMBER_BYTES,
    }
}
