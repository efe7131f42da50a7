//! How large a file can be.

ghost use Rattle.std.specs.Prelude.{◌≡◌, ◌≤◌, nat_lt};
ghost use Rattle.std.specs.Int.{div_ceil};
ghost use Rattle.fs_trees.specs.Inode.{data_room};

use inode_layout::{blocks_for, data_room};

/// Whether an inode can't name all blocks of a file of this size.
pub fn is_too_big(size: u64, len: usize) -> bool
    requires { 16 ≤ len }
    ensures { result ≡ nat_lt (data_room len) (div_ceil size len) }
{
    blocks_for(size, len) > data_room(len) as u64
}
