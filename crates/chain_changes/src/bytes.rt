//! The bytes of a new chain.

ghost use Rattle.std.specs.Prelude.{◌≡◌, ◌≤◌, ◌<◌, ◌+◌, ◌*◌, ℕ, length, take, drop, false};
ghost use Rattle.std.specs.Prelude.{IsTrue, IfErr, OnOk};
ghost use Rattle.tsd_model.specs.Geometry.{block_len};
ghost use Rattle.tsd_model.specs.World.{has_number, are_apart};
ghost use Rattle.fs_trees.specs.Cluster.{bytes_room};
ghost use Rattle.fs_trees.specs.declared.refusal.FsRefusal.TheVariants as no;
ghost use Rattle.fs_port.specs.Calls.{IsValidNow};
ghost use Rattle.fs_client.specs.May.{MayWrite};
ghost use Rattle.fs_port.specs.Runs.{Runs};
ghost use Rattle.tsd_model.specs.Placing.{first_block};
ghost use Rattle.chain_changes.specs.Filling.{AreLinkable, AsideWith, Wrote};

use chain_layout::{bytes_room, file_part};
use fs_client::{Client, write_block};
use fs_port::Blocks;
use fs_trees::FsRefusal;

/// As many of the bytes as there is room for.
fn first_bytes(bytes: &[u8], room: usize) -> &[u8]
    ensures { result.now ≡ take room bytes.now }
{
    &bytes[..room.min(bytes.len())]
}

/// The bytes behind those.
fn bytes_behind(bytes: &[u8], room: usize) -> &[u8]
    ensures { result.now ≡ drop room bytes.now }
{
    &bytes[room.min(bytes.len())..]
}

/// The block behind the one at a position, where there is one.
fn next_block(blocks: &[u32], position: usize) -> Option<u32>
    requires { position < length blocks.now }
    ensures { result ≡ first_block (drop (position + 1) blocks.now) }
{
    match &blocks[position + 1..] {
        [] => None,
        [next, ..] => Some(*next),
    }
}

/// Writes bytes into the clusters of a new chain, each with its part of them. Only a fault refuses it.
#[tactic(none)]
pub fn write_chain<K: Blocks>(
    client: &Client,
    disk: &mut K,
    blocks: &[u32],
    bytes: &[u8],
    len: usize,
) -> Result<(), FsRefusal>
    requires unspent { (K.view disk.old).spent ≡ false }
    requires valid { K.told → IsValidNow (K.view disk.old) }
    requires may { K.told → (b : ℕ) → IsTrue (has_number blocks.now b)
        → MayWrite client.now (K.view disk.old) b }
    requires apart { K.told → IsTrue (are_apart blocks.now) }
    requires linkable { AreLinkable blocks.now }
    requires len { K.told → len ≡ block_len (K.view disk.old).world.geometry }
    requires head { 16 ≤ len }
    requires few { len ≤ 4096 }
    requires many { length blocks.now ≤ 64 }
    requires enough { K.told → length bytes.now ≤ bytes_room len * length blocks.now }
    /// promise (with only): The chain has these bytes; only a fault refuses it.
    ensures wrote { K.told → OnOk result (Wrote client.now (K.view disk.old) (K.view disk.new) blocks.now bytes.now) }
    ensures only { K.told → IfErr result (λ e. e ≡ no.Device) }
    ensures runs { Runs K.told (K.view disk.old) (K.view disk.new) (AsideWith client.now.root blocks.now
        (K.view disk.old).world) result }
{
    let room = bytes_room(len);
    let mut rest = bytes;
    for position in 0..blocks.len() {
        let next = next_block(blocks, position);
        let part = file_part(next, &[], first_bytes(rest, room));
        match write_block(client, disk, blocks[position], part) {
            Ok(()) => {}
            Err(refusal) => return Err(refusal),
        }
        rest = bytes_behind(rest, room);
    }
    Ok(())
}
