//! What is written as a cluster.

ghost use Rattle.std.specs.Prelude.{◌≡◌, ◌≤◌, ◌<◌, ◌+◌, ◌*◌, ◌^◌, ◌++◌, [], ◌∷◌};
ghost use Rattle.std.specs.Prelude.{◌-◌, None, Some, length, take, drop, flat_map};
ghost use Rattle.fs_trees.specs.Fields.{entries, entry_bytes};
ghost use Rattle.fs_trees.specs.Cluster.{link_field, entries_room, cluster_bytes, directory_bytes, part_bytes};
ghost use Rattle.chain_layout.specs.Listed.{listed_at, unlisted_at};
ghost use Rattle.chain_layout.specs.Block.{cluster_of, block_len_of};
ghost use Rattle.chain_layout.specs.Held.{dir_cluster, entries_in};

use crate::cluster::MAGIC;
use crate::directory::DirectoryCluster;
use fs_fields::{ENTRY_BYTES, write_entry, write_number};
use tsd_model::Data;

/// Adds bytes for which there is room.
fn add(into: &mut Data, bytes: &[u8])
    requires { length into.old + length bytes.now ≤ 4096 }
    ensures { into.new ≡ into.old ++ bytes.now }
{
    let _ = into.extend_from_slice(bytes);
}

/// Adds an entry for which there is room.
fn add_entry(into: &mut Data, name: &[u8], block: u32)
    requires named { length name.now ≤ 28 }
    requires fits { length into.old + 32 ≤ 4096 }
    ensures { into.new ≡ into.old ++ entry_bytes (record { name = name.now; block = block }) }
{
    let _ = write_entry(into, name, block);
}

/// The field of a link to the next cluster, where there is one.
fn link_field(next: Option<u32>) -> u32
    requires { link_field next < 2 ^ 32 }
    ensures { result ≡ link_field next }
{
    match next {
        None => 0,
        Some(block) => block + 1,
    }
}

/// The head of a cluster.
fn head(next: Option<u32>, used: u32) -> Data
    requires { link_field next < 2 ^ 32 }
    ensures value { result ≡ cluster_bytes next used [] }
    ensures sized { length result ≡ 16 }
{
    let mut bytes = Data::new();
    add(&mut bytes, &MAGIC);
    let _ = write_number(&mut bytes, link_field(next));
    let _ = write_number(&mut bytes, used);
    bytes
}

/// The bytes of the entries before one position, and of those from another on.
fn parts(list: &[u8], count: usize, position: usize, behind: usize) -> (&[u8], &[u8])
    requires fits { 32 * count ≤ length list.now }
    requires first { position ≤ count }
    requires last { behind ≤ count }
    ensures before { result.0.now ≡ flat_map entry_bytes (take position (entries count list.now)) }
    ensures behind { result.1.now ≡ flat_map entry_bytes (drop behind (entries count list.now)) }
    ensures sized_before { length result.0.now ≡ 32 * position }
    ensures sized_behind { length result.1.now ≡ 32 * (count - behind) }
{
    (
        &list[..ENTRY_BYTES * position],
        &list[ENTRY_BYTES * behind..ENTRY_BYTES * count],
    )
}

/// A last cluster of the directory, without entries.
pub fn empty_directory() -> Data
    ensures { result ≡ directory_bytes None [] }
{
    head(None, 0)
}

/// A last cluster of the directory with one entry.
pub fn directory_of_one(name: &[u8], block: u32) -> Data
    requires { length name.now ≤ 28 }
    ensures { result ≡ directory_bytes None (record { name = name.now; block = block } ∷ []) }
{
    let mut bytes = head(None, 1);
    add_entry(&mut bytes, name, block);
    bytes
}

/// The cluster of the directory with an entry at a lookup: in place of the one there, or behind all.
pub fn directory_with(old: &DirectoryCluster, position: usize, name: &[u8], block: u32) -> Data
    requires named { length name.now ≤ 28 }
    requires within { position ≤ length (entries_in old.now) }
    requires fits { position < entries_room (block_len_of (dir_cluster old.now)) }
    /// promise: The bytes of a directory's cluster with the entry at its place, instead of the one there or after all.
    ensures { result ≡ directory_bytes (cluster_of (dir_cluster old.now)).next
        (listed_at position (record { name = name.now; block = block }) (entries_in old.now)) }
{
    let list = old.cluster().body();
    let count = old.count();
    let next_place = (position + 1).min(count);
    let (before, behind) = parts(list, count, position, next_place);
    let used = position + 1 + (count - next_place);
    let mut bytes = head(old.cluster().next(), used as u32);
    add(&mut bytes, before);
    add_entry(&mut bytes, name, block);
    add(&mut bytes, behind);
    bytes
}

/// The cluster of the directory without the entry at a position.
pub fn directory_without(old: &DirectoryCluster, position: usize) -> Data
    requires { position < length (entries_in old.now) }
    /// promise: The bytes of a directory's cluster without an entry.
    ensures { result ≡ directory_bytes (cluster_of (dir_cluster old.now)).next
        (unlisted_at position (entries_in old.now)) }
{
    let count = old.count();
    let (before, behind) = parts(old.cluster().body(), count, position, position + 1);
    let mut bytes = head(old.cluster().next(), count as u32 - 1);
    add(&mut bytes, before);
    add(&mut bytes, behind);
    bytes
}

/// The cluster of the directory with another next one.
pub fn directory_linked(old: &DirectoryCluster, next: u32) -> Data
    requires { next + 1 < 2 ^ 32 }
    ensures { result ≡ directory_bytes (Some next) (entries_in old.now) }
{
    let count = old.count();
    let (list, _) = parts(old.cluster().body(), count, count, count);
    let mut bytes = head(Some(next), count as u32);
    add(&mut bytes, list);
    bytes
}

/// A cluster of a file: the bytes that it has already, and more.
pub fn file_part(next: Option<u32>, front: &[u8], more: &[u8]) -> Data
    requires linked { link_field next < 2 ^ 32 }
    requires fits { 16 + length front.now + length more.now ≤ 4096 }
    /// promise: The bytes of a file's cluster: those that it has, and more.
    ensures { result ≡ part_bytes next (front.now ++ more.now) }
{
    let mut bytes = head(next, (front.len() + more.len()) as u32);
    add(&mut bytes, front);
    add(&mut bytes, more);
    bytes
}
