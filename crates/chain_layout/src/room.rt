//! How much a cluster has room for.

ghost use Rattle.std.specs.Prelude.{◌≡◌, ◌≤◌, ◌<◌, max};
ghost use Rattle.std.specs.Int.{div_ceil};
ghost use Rattle.fs_trees.specs.Cluster.{bytes_room, entries_room};

use crate::cluster::HEAD_BYTES;
use fs_fields::ENTRY_BYTES;

/// How many bytes of a file a cluster has room for in a block of this length.
pub fn bytes_room(len: usize) -> usize
    requires { 16 ≤ len }
    ensures { result ≡ bytes_room len }
{
    len - HEAD_BYTES
}

/// How many entries a cluster has room for in a block of this length.
pub fn entries_room(len: usize) -> usize
    requires { 16 ≤ len }
    ensures { result ≡ entries_room len }
{
    (len - HEAD_BYTES) / ENTRY_BYTES
}

/// How many clusters a file of so many bytes has in blocks of this length: at least one.
pub fn clusters_for(size: u64, len: usize) -> u64
    requires { 16 < len }
    ensures { result ≡ max 1 (div_ceil size (bytes_room len)) }
{
    size.div_ceil(bytes_room(len) as u64).max(1)
}
