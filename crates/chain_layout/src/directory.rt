//! Clusters of the directory.

ghost use Rattle.std.specs.Prelude.{◌≡◌, ◌≤◌, ◌<◌, ◌*◌, ◌+◌, length};
ghost use Rattle.std.specs.List.{position_from};
ghost use Rattle.fs_trees.specs.Fields.{entries, entry_names, all_named};
ghost use Rattle.fs_trees.specs.Cluster.{entries_room};
ghost use Rattle.chain_layout.specs.Listed.{has_name, name_in, least_above};
ghost use Rattle.chain_layout.specs.Block.{cluster_of, block_len_of};

use crate::cluster::Cluster;
use crate::distinct::{are_distinct, are_shared};
use crate::names::lesser;
use crate::room::entries_room;
use fs_fields::{ENTRY_BYTES, next_name, number_at, trimmed};
use fs_trees::{Name, is_name};

/// A cluster of the directory: there is room for its entries, and each has a name.
#[derive(Drop)]
pub struct DirectoryCluster {
    cluster: Cluster,
    count: usize,
    ghost counted: { count ≡ (cluster_of cluster).used },
    ghost fits: { count ≤ entries_room (block_len_of cluster) },
    ghost few: { count ≤ 127 },
}

/// The name of one of so many entries.
pub fn name_at(list: &[u8], position: usize) -> &[u8]
    requires { 32 * position + 32 ≤ length list.now }
    ensures value { result.now ≡ name_in list.now position }
    ensures fits { length result.now ≤ 28 }
{
    let entry = &list[32 * position..32 * position + 32];
    trimmed(&entry[4..])
}

/// Whether each of so many entries has a name.
fn are_named(list: &[u8], count: usize) -> bool
    requires { 32 * count ≤ length list.now }
    ensures { result ≡ all_named (entries count list.now) }
{
    for position in 0..count {
        if !is_name(name_at(list, position)) {
            return false;
        }
    }
    true
}

/// The position of the first of so many entries that has this name.
fn position_of(list: &[u8], count: usize, name: &[u8]) -> Option<usize>
    requires { 32 * count ≤ length list.now }
    ensures { result ≡ position_from (has_name name.now) 0 (entries count list.now) }
{
    for position in 0..count {
        if name_at(list, position) == name {
            return Some(position);
        }
    }
    None
}

/// The least of the names of so many entries that stand above another.
fn least_of(list: &[u8], count: usize, after: &[u8]) -> Option<Name>
    requires { 32 * count ≤ length list.now }
    ensures { result ≡ least_above after.now (entry_names (entries count list.now)) }
{
    let mut least = None;
    for position in 0..count {
        let entry = &list[32 * position..32 * position + 32];
        least = lesser(least, next_name(entry, 1, after));
    }
    least
}

impl DirectoryCluster {
    ghost use Rattle.std.specs.Prelude.{option_map, None, IfSome, slice_index, nat_lt, slice_get, Some};
    ghost use Rattle.tsd_model.specs.World.{has_number};
    ghost use Rattle.fs_trees.specs.Cluster.{entries_of};
    ghost use Rattle.std.specs.List.{list_any};
    ghost use Rattle.fs_trees.specs.Names.{are_distinct};
    ghost use Rattle.chain_layout.specs.Listed.{entry_blocks, is_among};
    ghost use Rattle.chain_layout.specs.Held.{dir_cluster, entries_in, blocks_in};

    /// The cluster as one of the directory, where it is one.
    pub fn of(cluster: Cluster) -> Option<DirectoryCluster>
        /// promise: The cluster as one of a directory, if it is one.
        ensures value { option_map entries_in result ≡ entries_of (block_len_of cluster) (cluster_of cluster) }
        ensures kept { IfSome result (λ d. dir_cluster d ≡ cluster) }
    {
        let count = cluster.used() as usize;
        if count > entries_room(cluster.block_len()) || !are_named(cluster.body(), count) {
            return None;
        }
        Some(DirectoryCluster { cluster, count })
    }

    /// What it says as any cluster does.
    pub fn cluster(&self) -> &Cluster
        ensures { result.now ≡ dir_cluster self.now }
    {
        &self.cluster
    }

    /// How many entries it has.
    pub fn count(&self) -> usize
        ensures value { result ≡ length (entries_in self.now) }
        ensures fits { result ≤ entries_room (block_len_of (dir_cluster self.now)) }
        ensures few { result ≤ 127 }
    {
        self.count
    }

    /// Whether it has room for one entry more.
    pub fn has_room(&self) -> bool
        ensures { result ≡ nat_lt (cluster_of (dir_cluster self.now)).used
            (entries_room (block_len_of (dir_cluster self.now))) }
    {
        self.count < entries_room(self.cluster.block_len())
    }

    /// The position of the entry of a name, where there is one.
    pub fn position(&self, name: &[u8]) -> Option<usize>
        ensures { result ≡ position_from (has_name name.now) 0 (entries_in self.now) }
    {
        position_of(self.cluster.body(), self.count, name)
    }

    /// The block that the entry at a position names.
    pub fn block(&self, position: usize) -> u32
        requires { position < length (entries_in self.now) }
        ensures { result ≡ slice_index (entry_blocks (entries_in self.now)) position }
    {
        number_at(self.cluster.body(), ENTRY_BYTES * position)
    }

    /// The name of the entry at a position.
    pub fn name(&self, position: usize) -> &[u8]
        requires { position < length (entries_in self.now) }
        ensures { slice_get (entry_names (entries_in self.now)) position ≡ Some (result.now) }
    {
        name_at(self.cluster.body(), position)
    }

    /// Whether each of its names stands once.
    pub fn has_distinct_names(&self) -> bool
        ensures { result ≡ are_distinct (entry_names (entries_in self.now)) }
    {
        are_distinct(self.cluster.body(), self.count)
    }

    /// Whether one of its names stands in another cluster, too.
    pub fn shares_a_name(&self, other: &DirectoryCluster) -> bool
        ensures { result ≡ list_any (is_among (entry_names (entries_in other.now)))
            (entry_names (entries_in self.now)) }
    {
        are_shared(
            self.cluster.body(),
            self.count,
            other.cluster.body(),
            other.count,
        )
    }

    /// The least of its names that stand above another.
    pub fn least_above(&self, after: &[u8]) -> Option<Name>
        ensures { result ≡ least_above after.now (entry_names (entries_in self.now)) }
    {
        least_of(self.cluster.body(), self.count, after)
    }

    /// Whether one of its entries names a block.
    fn enters(&self, block: u32) -> bool
        ensures { result ≡ has_number (entry_blocks (entries_in self.now)) block }
    {
        for position in 0..self.count() {
            if self.block(position) == block {
                return true;
            }
        }
        false
    }

    /// Whether it names a block, as the next one or by an entry.
    pub fn names(&self, block: u32) -> bool
        ensures { result ≡ has_number (blocks_in self.now) block }
    {
        self.cluster.leads_to(block) || self.enters(block)
    }
}
