//! How much a block and an inode have room for.

ghost use Rattle.std.specs.Prelude.{◌≡◌, ◌≤◌, ◌<◌};
ghost use Rattle.std.specs.Int.{div_ceil};
ghost use Rattle.fs_trees.specs.Inode.{entries_room, data_room};

use crate::kind::{InodeKind, room_for};

/// How many entries a directory has room for in a block of this length.
pub fn entries_room(len: usize) -> usize
    requires { 16 ≤ len }
    ensures { result ≡ entries_room len }
{
    room_for(InodeKind::Directory, len)
}

/// How many blocks of a file an inode has room for in a block of this length.
pub fn data_room(len: usize) -> usize
    requires { 16 ≤ len }
    ensures { result ≡ data_room len }
{
    room_for(InodeKind::Regular, len)
}

/// How many blocks of this length so many bytes take.
pub fn blocks_for(size: u64, len: usize) -> u64
    requires { 0 < len }
    ensures { result ≡ div_ceil size len }
{
    size.div_ceil(len as u64)
}
