//! The blocks of a new file's bytes.

ghost use Rattle.std.specs.Prelude.{◌≡◌, ◌≢◌, ◌<◌, ◌≤◌, ◌-◌, ◌++◌, ℕ, length, take};
ghost use Rattle.std.specs.Prelude.{drop, false, None, Some, IsTrue, IfOk, IfErr, OnOk};
ghost use Rattle.tsd_model.specs.Geometry.{block_len};
ghost use Rattle.tsd_model.specs.World.{has_number, are_apart};
ghost use Rattle.fs_trees.specs.declared.refusal.FsRefusal.TheVariants as no;
ghost use Rattle.fs_port.specs.View.{state_of};
ghost use Rattle.fs_port.specs.Calls.{IsValidNow};
ghost use Rattle.fs_client.specs.May.{MayWrite};
ghost use Rattle.fs_client.specs.Steps.{no_room_in};
ghost use Rattle.fs_port.specs.Runs.{Runs};
ghost use Rattle.inode_changes.specs.Content.{new_bytes, new_count, FitsInode};
ghost use Rattle.inode_changes.specs.Filling.{AsideWith, Wrote, AsideTaking, Took};

use crate::content::Content;
use fs_client::{Client, take_blocks, write_block};
use fs_port::Blocks;
use fs_trees::FsRefusal;
use tsd_model::{BlockList, Data};

/// How many blocks one request takes at most.
const TAKEN_MAX: u32 = 32;

/// The first of these bytes, so many at most, which begin with those in front.
fn first_bytes(front: &[u8], bytes: &[u8], len: usize) -> Data
    requires less { length front.now ≤ len }
    requires few { len ≤ 4096 }
    ensures { result ≡ take len (front.now ++ bytes.now) }
{
    let mut data = Data::new();
    let _ = data.extend_from_slice(front);
    let _ = data.extend_from_slice(&bytes[..(len - front.len()).min(bytes.len())]);
    data
}

/// The bytes behind the first.
fn bytes_behind(bytes: &[u8], len: usize) -> &[u8]
    ensures { result.now ≡ drop len bytes.now }
{
    &bytes[len.min(bytes.len())..]
}

/// Writes the bytes of a new file into its new blocks, each its part in turn. Only a fault refuses it.
#[tactic(none)]
pub fn write_blocks<K: Blocks>(
    client: &Client,
    disk: &mut K,
    blocks: &[u32],
    content: &Content<'_>,
) -> Result<(), FsRefusal>
    requires unspent { (K.view disk.old).spent ≡ false }
    requires valid { K.told → IsValidNow (K.view disk.old) }
    requires may { K.told → (b : ℕ) → IsTrue (has_number blocks.now b)
        → MayWrite client.now (K.view disk.old) b }
    requires apart { K.told → IsTrue (are_apart blocks.now) }
    requires room { FitsInode content.now }
    requires len { K.told → content.now.block_len ≡ block_len (K.view disk.old).world.geometry }
    requires each { length blocks.now ≡ new_count content.now }
    ensures wrote { K.told → OnOk result (Wrote client.now (K.view disk.old) (K.view disk.new) blocks.now
        (new_bytes content.now)) }
    ensures only { K.told → IfErr result (λ e. e ≡ no.Device) }
    ensures runs { Runs K.told (K.view disk.old) (K.view disk.new) (AsideWith client.now.root blocks.now
        (K.view disk.old).world) result }
{
    let mut front = content.front;
    let mut rest = content.bytes;
    for block in blocks {
        let part = first_bytes(front, rest, content.block_len);
        match write_block(client, disk, *block, part) {
            Ok(()) => {}
            Err(refusal) => return Err(refusal),
        }
        rest = bytes_behind(rest, content.block_len - front.len());
        front = &[];
    }
    Ok(())
}

/// Takes blocks for the bytes of a new inode, 32 at most, and points to them from there. Want of room refuses it.
#[tactic(none)]
pub fn take_parts<K: Blocks>(
    client: &Client,
    disk: &mut K,
    inode: u32,
    count: u32,
) -> Result<BlockList, FsRefusal>
    requires unspent { (K.view disk.old).spent ≡ false }
    requires valid { K.told → IsValidNow (K.view disk.old) }
    requires may { K.told → MayWrite client.now (K.view disk.old) inode }
    requires few { K.told → count ≤ 32 }
    ensures each { IfOk result (λ blocks. length blocks ≡ count) }
    ensures took { K.told → IfOk result (λ blocks. Took client.now (K.view disk.old) (K.view disk.new) inode count
        blocks) }
    ensures room { K.told → OnOk result (no_room_in (K.view disk.old).world count count ≡ None) }
    ensures full { K.told → IfErr result (λ e. e ≢ no.Device → no_room_in (K.view disk.old).world count count
        ≡ Some e) }
    ensures same { K.told → IfErr result (λ e. e ≢ no.Device → state_of (K.view disk.new)
        ≡ state_of (K.view disk.old)) }
    ensures runs { Runs K.told (K.view disk.old) (K.view disk.new) (AsideTaking client.now.root inode
        (K.view disk.old).world) result }
{
    if count == 0 {
        return Ok(BlockList::new());
    }
    if count > TAKEN_MAX {
        return Err(FsRefusal::NotThisFs);
    }
    match take_blocks(client, disk, inode, count) {
        Ok(blocks) => {
            if blocks.len() == count as usize {
                Ok(blocks)
            } else {
                Err(FsRefusal::NotThisFs)
            }
        }
        Err(refusal) => Err(refusal),
    }
}
