//! Clusters of files.

ghost use Rattle.std.specs.Prelude.{◌≡◌, ◌≤◌};
ghost use Rattle.fs_trees.specs.Cluster.{bytes_room};
ghost use Rattle.chain_layout.specs.Block.{cluster_of, block_len_of};

use crate::cluster::Cluster;
use crate::room::bytes_room;

/// A cluster of a file: there is room for its bytes.
#[derive(Drop)]
pub struct FileCluster {
    cluster: Cluster,
    count: usize,
    ghost counted: { count ≡ (cluster_of cluster).used },
    ghost fits: { count ≤ bytes_room (block_len_of cluster) },
}

impl FileCluster {
    ghost use Rattle.std.specs.Prelude.{◌↔◌, ◌==◌, IsSome, IfSome, length};
    ghost use Rattle.chain_layout.specs.Held.{part_cluster, part_in};

    /// The cluster as one of a file, where there is room for its bytes.
    pub fn of(cluster: Cluster) -> Option<FileCluster>
        /// promise: The cluster as one of a file, if it is one.
        ensures value { IsSome result ↔ ((cluster_of cluster).used ≤ bytes_room (block_len_of cluster)) }
        ensures kept { IfSome result (λ f. part_cluster f ≡ cluster) }
    {
        let count = cluster.used() as usize;
        if count > bytes_room(cluster.block_len()) {
            return None;
        }
        Some(FileCluster { cluster, count })
    }

    /// What it says as any cluster does.
    pub fn cluster(&self) -> &Cluster
        ensures { result.now ≡ part_cluster self.now }
    {
        &self.cluster
    }

    /// The file's bytes that stand there.
    pub fn bytes(&self) -> &[u8]
        ensures value { result.now ≡ part_in self.now }
        ensures sized { length result.now ≡ (cluster_of (part_cluster self.now)).used }
        ensures fits { length result.now ≤ bytes_room (block_len_of (part_cluster self.now)) }
        ensures small { length result.now ≤ 4080 }
    {
        &self.cluster.body()[..self.count]
    }

    /// Whether it has no room for more.
    pub fn is_full(&self) -> bool
        ensures { result ≡ ((cluster_of (part_cluster self.now)).used == bytes_room
            (block_len_of (part_cluster self.now))) }
    {
        self.count == bytes_room(self.cluster.block_len())
    }
}
