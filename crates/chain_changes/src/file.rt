//! A new file, which nothing names yet.

ghost use Rattle.std.specs.Prelude.{◌≡◌, ◌≢◌, ◌≤◌, ◌<◌, ◌+◌, length, max, drop, false, None};
ghost use Rattle.std.specs.Prelude.{Some, IfOk, IfErr, OnOk};
ghost use Rattle.std.specs.Int.{div_ceil};
ghost use Rattle.tsd_model.specs.Geometry.{block_len};
ghost use Rattle.fs_trees.specs.Cluster.{bytes_room};
ghost use Rattle.fs_trees.specs.Needs.{clusters_for};
ghost use Rattle.fs_trees.specs.declared.refusal.FsRefusal.TheVariants as no;
ghost use Rattle.fs_port.specs.Calls.{IsValidNow};
ghost use Rattle.fs_client.specs.May.{MayWrite};
ghost use Rattle.fs_client.specs.Steps.{no_room_in};
ghost use Rattle.fs_port.specs.Runs.{Runs};
ghost use Rattle.chain_changes.specs.Making.{Stage, IsAside};
ghost use Rattle.chain_changes.specs.Filling.{AreLinkable, NewFile};

use crate::blocks::new_chain;
use crate::bytes::write_chain;
use chain_layout::{bytes_room, clusters_for};
use fs_client::Client;
use fs_port::Blocks;
use fs_trees::FsRefusal;
use tsd_model::{BlockList, Data};

/// How many blocks a file of so many bytes takes behind others of its chain.
fn blocks_wanted(size: usize, ahead: u32, len: usize) -> u32
    requires small { size ≤ 4096 }
    requires few { ahead ≤ 1 }
    requires room { 16 < len }
    ensures { result ≡ max 1 (div_ceil size (bytes_room len)) + ahead }
{
    clusters_for(size as u64, len) as u32 + ahead
}

/// The blocks behind the first so many.
fn blocks_behind(blocks: &BlockList, ahead: u32) -> &[u32]
    requires { ahead ≤ length blocks.now }
    ensures value { result.now ≡ drop ahead blocks.now }
    ensures fits { length result.now ≤ 64 }
{
    &blocks.as_slice()[ahead as usize..]
}

/// Makes a file of these bytes in new blocks under a source, behind so many blocks of its chain that aren't written.
/// Want of room refuses it, and then nothing is left of it.
#[tactic(none)]
pub fn new_file<K: Blocks>(
    client: &Client,
    disk: &mut K,
    source: u32,
    ahead: u32,
    bytes: &Data,
    len: usize,
) -> Result<BlockList, FsRefusal>
    requires unspent { (K.view disk.old).spent ≡ false }
    requires valid { K.told → IsValidNow (K.view disk.old) }
    requires may { K.told → MayWrite client.now (K.view disk.old) source }
    requires stage { K.told → Stage client.now.root (K.view disk.old).world source }
    requires len { K.told → len ≡ block_len (K.view disk.old).world.geometry }
    requires head { 16 ≤ len }
    requires few { len ≤ 4096 }
    requires ahead { ahead ≤ 1 }
    /// promise (with room, full, same): A new file that nothing names yet; where there is no room the world is as it
    /// was.
    ensures made { K.told → IfOk result (λ blocks. NewFile client.now (K.view disk.old) (K.view disk.new) source
        ahead bytes.now blocks) }
    ensures some { IfOk result (λ blocks. ahead < length blocks) }
    ensures linkable { IfOk result (λ blocks. AreLinkable blocks) }
    ensures room { K.told
        → OnOk result (no_room_in (K.view disk.old).world (clusters_for (K.view disk.old).world.geometry
        (length bytes.now) + ahead) (clusters_for (K.view disk.old).world.geometry (length bytes.now) + ahead) ≡ None) }
    ensures full { K.told → IfErr result (λ e. e ≢ no.Device
        → no_room_in (K.view disk.old).world (clusters_for (K.view disk.old).world.geometry (length bytes.now) +
        ahead) (clusters_for (K.view disk.old).world.geometry (length bytes.now) + ahead) ≡ Some e) }
    ensures same { K.told → IfErr result (λ e. e ≢ no.Device → (K.view disk.new).world
        ≡ (K.view disk.old).world) }
    ensures runs { Runs K.told (K.view disk.old) (K.view disk.new) (IsAside client.now.root (K.view disk.old).world)
        result }
{
    if bytes_room(len) == 0 {
        return Err(FsRefusal::NotThisFs);
    }
    let wanted = blocks_wanted(bytes.len(), ahead, len);
    let blocks = match new_chain(client, disk, source, wanted) {
        Ok(blocks) => blocks,
        Err(refusal) => return Err(refusal),
    };
    match write_chain(
        client,
        disk,
        blocks_behind(&blocks, ahead),
        bytes.as_slice(),
        len,
    ) {
        Ok(()) => Ok(blocks),
        Err(refusal) => Err(refusal),
    }
}
