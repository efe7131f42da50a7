//! New files, also in place of old ones.

ghost use Rattle.std.specs.Prelude.{◌≡◌, ◌≢◌, ◌≤◌, ◌<◌, [], ◌∷◌, length, IsTrue};
ghost use Rattle.fs_trees.specs.Names.{is_name};
ghost use Rattle.fs_trees.specs.ChainTree.{names_max};
ghost use Rattle.fs_trees.specs.Cluster.{entries_room};
ghost use Rattle.fs_trees.specs.Answer.{done};
ghost use Rattle.fs_trees.specs.declared.ask.ShellAsk.TheVariants as ask;
ghost use Rattle.fs_port.specs.Files.{Answers};
ghost use Rattle.fs_port.specs.Runs.{Changes};
ghost use Rattle.chain_layout.specs.Block.{block_len_of};
ghost use Rattle.chain_layout.specs.Held.{dir_cluster, entries_in};
ghost use Rattle.chain_reading.specs.Asking.{MayAsk, mounted_by};
ghost use Rattle.chain_reading.specs.declared.finding.Lookup.TheVariants.{Taken, Free};
ghost use Rattle.chain_changes.specs.Lookups.{IsLookupOf};

use crate::file::new_file;
use crate::finding::look_up;
use chain_layout::{directory_linked, directory_of_one, directory_with};
use chain_reading::{Lookup, NAMES_MAX, Page};
use fs_client::{Client, drop_pointer, write_block};
use fs_port::Blocks;
use fs_trees::{FsRefusal, Name, Path};
use tsd_model::Data;

/// Puts a file of these bytes in place of the one that an entry names. The write of the entry's cluster decides; then
/// it lets go of the old file.
#[tactic(none)]
fn replace<K: Blocks>(
    client: &Client,
    disk: &mut K,
    page: &Page,
    position: usize,
    first: u32,
    name: &Name,
    bytes: &Data,
) -> Result<(), FsRefusal>
    requires may { MayAsk K.told client.now (K.view disk.old) }
    requires found { K.told → IsLookupOf client.now (K.view disk.old) name.now (Taken page.now position first) }
    requires within { position < length (entries_in page.now.cluster) }
    requires named { IsTrue (is_name name.now) }
    ensures answer { K.told → Answers (mounted_by client.now) (K.view disk.old) (K.view disk.new)
        (ask.Put (name.now ∷ []) bytes.now) result (λ _ answer. answer ≡ done) }
    ensures changes { Changes K.told (mounted_by client.now) (K.view disk.old) (K.view disk.new)
        (ask.Put (name.now ∷ []) bytes.now) result }
{
    let len = page.cluster.cluster().block_len();
    let blocks = match new_file(client, disk, page.block, 0, bytes, len) {
        Ok(blocks) => blocks,
        Err(refusal) => return Err(refusal),
    };
    let entered = directory_with(
        &page.cluster,
        position,
        name.as_slice(),
        blocks.as_slice()[0],
    );
    match write_block(client, disk, page.block, entered) {
        Ok(()) => {}
        Err(refusal) => return Err(refusal),
    }
    match drop_pointer(client, disk, page.block, first) {
        Ok(_gone) => Ok(()),
        Err(refusal) => Err(refusal),
    }
}

/// Puts a file of these bytes under a new name, in a cluster of the directory that has room. The write of that cluster
/// decides.
#[tactic(none)]
fn add<K: Blocks>(
    client: &Client,
    disk: &mut K,
    page: &Page,
    count: usize,
    name: &Name,
    bytes: &Data,
) -> Result<(), FsRefusal>
    requires may { MayAsk K.told client.now (K.view disk.old) }
    requires found { K.told → IsLookupOf client.now (K.view disk.old) name.now (Free page.now count) }
    requires few { count < names_max }
    requires room { length (entries_in page.now.cluster) < entries_room (block_len_of (dir_cluster page.now.cluster)) }
    requires named { IsTrue (is_name name.now) }
    ensures answer { K.told → Answers (mounted_by client.now) (K.view disk.old) (K.view disk.new)
        (ask.Put (name.now ∷ []) bytes.now) result (λ _ answer. answer ≡ done) }
    ensures changes { Changes K.told (mounted_by client.now) (K.view disk.old) (K.view disk.new)
        (ask.Put (name.now ∷ []) bytes.now) result }
{
    let len = page.cluster.cluster().block_len();
    let blocks = match new_file(client, disk, page.block, 0, bytes, len) {
        Ok(blocks) => blocks,
        Err(refusal) => return Err(refusal),
    };
    let behind = page.cluster.count();
    let entered = directory_with(&page.cluster, behind, name.as_slice(), blocks.as_slice()[0]);
    match write_block(client, disk, page.block, entered) {
        Ok(()) => Ok(()),
        Err(refusal) => Err(refusal),
    }
}

/// Puts a file of these bytes under a new name, in a new cluster of the directory behind the last one. The write of the
/// last one decides.
#[tactic(none)]
fn extend<K: Blocks>(
    client: &Client,
    disk: &mut K,
    page: &Page,
    count: usize,
    name: &Name,
    bytes: &Data,
) -> Result<(), FsRefusal>
    requires may { MayAsk K.told client.now (K.view disk.old) }
    requires found { K.told → IsLookupOf client.now (K.view disk.old) name.now (Free page.now count) }
    requires few { count < names_max }
    requires full { entries_room (block_len_of (dir_cluster page.now.cluster)) ≤ length (entries_in page.now.cluster) }
    requires named { IsTrue (is_name name.now) }
    ensures answer { K.told → Answers (mounted_by client.now) (K.view disk.old) (K.view disk.new)
        (ask.Put (name.now ∷ []) bytes.now) result (λ _ answer. answer ≡ done) }
    ensures changes { Changes K.told (mounted_by client.now) (K.view disk.old) (K.view disk.new)
        (ask.Put (name.now ∷ []) bytes.now) result }
{
    let len = page.cluster.cluster().block_len();
    let blocks = match new_file(client, disk, page.block, 1, bytes, len) {
        Ok(blocks) => blocks,
        Err(refusal) => return Err(refusal),
    };
    let next = blocks.as_slice()[0];
    let entered = directory_of_one(name.as_slice(), blocks.as_slice()[1]);
    match write_block(client, disk, next, entered) {
        Ok(()) => {}
        Err(refusal) => return Err(refusal),
    }
    match write_block(
        client,
        disk,
        page.block,
        directory_linked(&page.cluster, next),
    ) {
        Ok(()) => Ok(()),
        Err(refusal) => Err(refusal),
    }
}

/// Makes a file of these bytes at a path, in place of the old one.
#[tactic(none)]
pub fn put<K: Blocks>(
    client: &Client,
    disk: &mut K,
    path: &Path,
    bytes: &Data,
) -> Result<(), FsRefusal>
    requires may { MayAsk K.told client.now (K.view disk.old) }
    /// promise (with changes): The answer is the tree's step, and every stop leaves the tree before or after.
    ensures answer { K.told → Answers (mounted_by client.now) (K.view disk.old) (K.view disk.new)
        (ask.Put path.now bytes.now) result (λ _ answer. answer ≡ done) }
    ensures changes { Changes K.told (mounted_by client.now) (K.view disk.old) (K.view disk.new)
        (ask.Put path.now bytes.now) result }
{
    let (position, name) = match look_up(client, disk, path, FsRefusal::IsDir) {
        Ok(found) => found,
        Err(refusal) => return Err(refusal),
    };
    match position {
        Lookup::Taken {
            page,
            position,
            first,
        } => { replace(client, disk, &page, position, first, name, bytes) }
        Lookup::Free { page, count } => {
            if count >= NAMES_MAX {
                return Err(FsRefusal::DirFull);
            }
            if page.cluster.has_room() {
                add(client, disk, &page, count, name, bytes)
            } else {
                extend(client, disk, &page, count, name, bytes)
            }
        }
    }
}
