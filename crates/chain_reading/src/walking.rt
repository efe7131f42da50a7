//! Clusters as they stand on the disk.

ghost use Rattle.std.specs.Prelude.{◌≡◌, false, None, Some, is_some, nat_le, option_map, IsTrue, IfSome, IfNone};
ghost use Rattle.std.specs.Prelude.{IfOk, IfErr, OnOk};
ghost use Rattle.std.specs.Option.{option_and_then, option_map_or};
ghost use Rattle.fs_trees.specs.Cluster.{entries_of, bytes_room};
ghost use Rattle.fs_trees.specs.ChainTree.{cluster_at};
ghost use Rattle.fs_trees.specs.declared.refusal.FsRefusal.TheVariants as no;
ghost use Rattle.fs_laws.specs.Ways.{HoldsWrite};
ghost use Rattle.fs_port.specs.View.{state_of};
ghost use Rattle.fs_port.specs.Calls.{IsValidNow};
ghost use Rattle.fs_client.specs.May.{MayWrite, OnlyLooks};
ghost use Rattle.chain_layout.specs.Listed.{next_blocks};
ghost use Rattle.chain_layout.specs.Block.{cluster_of, block_len_of};
ghost use Rattle.chain_layout.specs.Held.{blocks_in, dir_cluster, entries_in, part_cluster};
ghost use Rattle.chain_reading.specs.Standing.{entries_at, has_part, IsRead, IsPage, IsPartOfRoot};

use chain_layout::{Cluster, DirectoryCluster, FileCluster};
use fs_client::{Client, Names};
use fs_port::Blocks;
use fs_trees::FsRefusal;

/// A cluster of the directory, and its block.
#[derive(Drop)]
pub struct Page {
    /// Where it stands.
    pub block: u32,

    /// What stands there.
    pub cluster: DirectoryCluster,
}

/// A cluster of a file, and its block.
#[derive(Drop)]
pub struct Part {
    /// Where it stands.
    pub block: u32,

    /// What stands there.
    pub cluster: FileCluster,
}

impl Names for Page {
    ghost blocks = { λ page. blocks_in page.cluster };

    fn names(&self, block: u32) -> bool {
        self.cluster.names(block)
    }
}

impl Names for Part {
    ghost blocks = { λ part. next_blocks (cluster_of (part_cluster part.cluster)).next };

    fn names(&self, block: u32) -> bool {
        self.cluster.cluster().leads_to(block)
    }
}

/// The cluster in a block, where it is one. Only a fault refuses it.
fn cluster_at<K: Blocks>(
    client: &Client,
    disk: &mut K,
    block: u32,
) -> Result<Option<Cluster>, FsRefusal>
    requires unspent { (K.view disk.old).spent ≡ false }
    requires valid { K.told → IsValidNow (K.view disk.old) }
    requires may { K.told → MayWrite client.now (K.view disk.old) block }
    ensures read { K.told
        → IfOk result (λ found. IfSome found (λ cluster. IsRead (K.view disk.old).world block cluster)) }
    ensures none { K.told → IfOk result (λ found. IfNone found (cluster_at (K.view disk.old).world block ≡ None)) }
    ensures held { K.told → OnOk result (HoldsWrite (state_of (K.view disk.new)) client.now.session block) }
    ensures only { K.told → IfErr result (λ e. e ≡ no.Device) }
    ensures looks { OnlyLooks K.told (K.view disk.old) (K.view disk.new) result }
{
    match client.look(disk, block) {
        Ok(bytes) => Ok(Cluster::parse(bytes)),
        Err(refusal) => Err(refusal),
    }
}

/// A cluster as one of the directory, where it is one.
fn page_of(block: u32, cluster: Option<Cluster>) -> Option<Page>
    ensures entries { option_map (λ page. entries_in page.cluster) result ≡ option_and_then
        (λ c. entries_of (block_len_of c) (cluster_of c)) cluster }
    ensures block { IfSome result (λ page. page.block ≡ block) }
    ensures kept { IfSome result (λ page. cluster ≡ Some (dir_cluster page.cluster)) }
{
    match DirectoryCluster::of(cluster?) {
        Some(cluster) => Some(Page { block, cluster }),
        None => None,
    }
}

/// A cluster as one of a file, where there is room for its bytes.
fn part_of(block: u32, cluster: Option<Cluster>) -> Option<Part>
    ensures there { is_some result ≡ option_map_or (λ c. nat_le (cluster_of c).used (bytes_room (block_len_of c)))
        cluster false }
    ensures block { IfSome result (λ part. part.block ≡ block) }
    ensures kept { IfSome result (λ part. cluster ≡ Some (part_cluster part.cluster)) }
{
    match FileCluster::of(cluster?) {
        Some(cluster) => Some(Part { block, cluster }),
        None => None,
    }
}

/// The cluster of the directory in a block, where it is one. Only a fault refuses it.
pub fn page_at<K: Blocks>(
    client: &Client,
    disk: &mut K,
    block: u32,
) -> Result<Option<Page>, FsRefusal>
    requires unspent { (K.view disk.old).spent ≡ false }
    requires valid { K.told → IsValidNow (K.view disk.old) }
    requires may { K.told → MayWrite client.now (K.view disk.old) block }
    ensures page { K.told → IfOk result (λ found. IfSome found (λ page. IsPage (K.view disk.old).world block page)) }
    ensures none { K.told → IfOk result (λ found. IfNone found (entries_at (K.view disk.old).world block ≡ None)) }
    ensures held { K.told → OnOk result (HoldsWrite (state_of (K.view disk.new)) client.now.session block) }
    ensures only { K.told → IfErr result (λ e. e ≡ no.Device) }
    ensures looks { OnlyLooks K.told (K.view disk.old) (K.view disk.new) result }
{
    match cluster_at(client, disk, block) {
        Ok(cluster) => Ok(page_of(block, cluster)),
        Err(refusal) => Err(refusal),
    }
}

/// The cluster of a file in a block, where there is one that has room for its bytes. Only a fault refuses it.
pub fn part_at<K: Blocks>(
    client: &Client,
    disk: &mut K,
    block: u32,
) -> Result<Option<Part>, FsRefusal>
    requires unspent { (K.view disk.old).spent ≡ false }
    requires valid { K.told → IsValidNow (K.view disk.old) }
    requires may { K.told → MayWrite client.now (K.view disk.old) block }
    ensures part { K.told
        → IfOk result (λ found. IfSome found (λ part. IsPartOfRoot (K.view disk.old).world block part)) }
    ensures none { K.told → IfOk result (λ found. IfNone found (has_part (K.view disk.old).world block ≡ false)) }
    ensures held { K.told → OnOk result (HoldsWrite (state_of (K.view disk.new)) client.now.session block) }
    ensures only { K.told → IfErr result (λ e. e ≡ no.Device) }
    ensures looks { OnlyLooks K.told (K.view disk.old) (K.view disk.new) result }
{
    match cluster_at(client, disk, block) {
        Ok(cluster) => Ok(part_of(block, cluster)),
        Err(refusal) => Err(refusal),
    }
}

/// Reads a cluster of the directory. Only a fault refuses it.
pub fn read_page<K: Blocks>(client: &Client, disk: &mut K, block: u32) -> Result<Page, FsRefusal>
    requires unspent { (K.view disk.old).spent ≡ false }
    requires valid { K.told → IsValidNow (K.view disk.old) }
    requires may { K.told → MayWrite client.now (K.view disk.old) block }
    requires there { K.told → IsTrue (is_some (entries_at (K.view disk.old).world block)) }
    ensures page { K.told → IfOk result (λ page. IsPage (K.view disk.old).world block page) }
    ensures held { K.told → OnOk result (HoldsWrite (state_of (K.view disk.new)) client.now.session block) }
    ensures only { K.told → IfErr result (λ e. e ≡ no.Device) }
    ensures looks { OnlyLooks K.told (K.view disk.old) (K.view disk.new) result }
{
    match page_at(client, disk, block) {
        Ok(Some(page)) => Ok(page),
        Ok(None) => Err(FsRefusal::NotThisFs),
        Err(refusal) => Err(refusal),
    }
}

/// Reads a cluster of a file. Only a fault refuses it.
pub fn read_part<K: Blocks>(client: &Client, disk: &mut K, block: u32) -> Result<Part, FsRefusal>
    requires unspent { (K.view disk.old).spent ≡ false }
    requires valid { K.told → IsValidNow (K.view disk.old) }
    requires may { K.told → MayWrite client.now (K.view disk.old) block }
    requires there { K.told → IsTrue (has_part (K.view disk.old).world block) }
    ensures part { K.told → IfOk result (λ part. IsPartOfRoot (K.view disk.old).world block part) }
    ensures held { K.told → OnOk result (HoldsWrite (state_of (K.view disk.new)) client.now.session block) }
    ensures only { K.told → IfErr result (λ e. e ≡ no.Device) }
    ensures looks { OnlyLooks K.told (K.view disk.old) (K.view disk.new) result }
{
    match part_at(client, disk, block) {
        Ok(Some(part)) => Ok(part),
        Ok(None) => Err(FsRefusal::NotThisFs),
        Err(refusal) => Err(refusal),
    }
}
