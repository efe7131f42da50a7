//! The blocks of a new chain.

ghost use Rattle.std.specs.Prelude.{◌≡◌, ◌≢◌, ◌≤◌, ◌+◌, ◌<◌, ◌^◌, ℕ, length, false};
ghost use Rattle.std.specs.Prelude.{None, Some, [], ◌∷◌, IsTrue, ◌↔◌, IfSome, IfOk, IfErr, OnOk};
ghost use Rattle.tsd_model.specs.Placing.{chosen};
ghost use Rattle.tsd_model.specs.declared.requests.Hint.TheVariants.{At};
ghost use Rattle.fs_trees.specs.declared.refusal.FsRefusal.TheVariants as no;
ghost use Rattle.fs_port.specs.Calls.{IsValidNow};
ghost use Rattle.fs_client.specs.Client.{alloc_by};
ghost use Rattle.fs_client.specs.May.{MayWrite};
ghost use Rattle.fs_client.specs.Steps.{Steps, taken, no_room_in};
ghost use Rattle.fs_port.specs.Runs.{Runs};
ghost use Rattle.chain_changes.specs.Making.{Stage, IsAside};
ghost use Rattle.chain_changes.specs.Filling.{AreLinkable, NewChain, IsInMaking, AsideOf, IsBackFrom};

use fs_client::{Client, check_free, drop_pointer, held_before, take_blocks};
use fs_port::Blocks;
use fs_trees::FsRefusal;
use tsd_model::BlockList;

/// The block, where it is one that the head of a cluster can name.
fn the_block(blocks: &BlockList) -> Option<u32>
    ensures one { IfSome result (λ b. blocks.now ≡ b ∷ []) }
    ensures linkable { IfSome result (λ b. b + 1 < 2 ^ 32) }
    ensures found { (b : ℕ) → blocks.now ≡ b ∷ [] → b + 1 < 2 ^ 32 → result ≡ Some b }
{
    match blocks.as_slice() {
        [block] if *block < u32::MAX => Some(*block),
        _ => None,
    }
}

/// Whether the disk failed, and not one of its rules refused.
fn is_fault(refusal: &FsRefusal) -> bool
    ensures { IsTrue result ↔ (refusal.now ≡ no.Device) }
{
    matches!(refusal, FsRefusal::Device)
}

/// A new block under another. Want of room refuses it.
#[tactic(none)]
fn new_block<K: Blocks>(client: &Client, disk: &mut K, source: u32) -> Result<u32, FsRefusal>
    requires unspent { (K.view disk.old).spent ≡ false }
    requires valid { K.told → IsValidNow (K.view disk.old) }
    requires may { K.told → MayWrite client.now (K.view disk.old) source }
    ensures steps { Steps K.told client.now (K.view disk.old) (K.view disk.new) (alloc_by client.now source 1) source
        (taken (K.view disk.old) source 1) result }
    ensures block { K.told → IfOk result (λ b. chosen (K.view disk.old).kind (K.view disk.old).world (At source) 1
        ≡ b ∷ []) }
    ensures linkable { IfOk result (λ b. b + 1 < 2 ^ 32) }
    ensures full { K.told → IfErr result (λ e. e ≢ no.Device → no_room_in (K.view disk.old).world 1 1 ≡ Some e) }
{
    let blocks = match take_blocks(client, disk, source, 1) {
        Ok(blocks) => blocks,
        Err(refusal) => return Err(refusal),
    };
    match the_block(&blocks) {
        Some(block) => Ok(block),
        None => Err(FsRefusal::NotThisFs),
    }
}

/// Lets go of a chain in the making under a source. Only a fault refuses it.
#[tactic(none)]
fn give_up<K: Blocks>(
    client: &Client,
    disk: &mut K,
    source: u32,
    blocks: &[u32],
) -> Result<(), FsRefusal>
    requires unspent { (K.view disk.old).spent ≡ false }
    requires valid { K.told → IsValidNow (K.view disk.old) }
    requires may { K.told → MayWrite client.now (K.view disk.old) source }
    requires making { K.told → IsInMaking client.now.root source blocks.now (K.view disk.old).world }
    ensures back { K.told → OnOk result (IsBackFrom client.now.root source blocks.now (K.view disk.old).world
        (K.view disk.new).world) }
    ensures only { K.told → IfErr result (λ e. e ≡ no.Device) }
    ensures runs { Runs K.told (K.view disk.old) (K.view disk.new) (AsideOf client.now.root source blocks.now
        (K.view disk.old).world) result }
{
    let first = match blocks {
        [] => return Ok(()),
        [first, ..] => *first,
    };
    match drop_pointer(client, disk, source, first) {
        Ok(_gone) => Ok(()),
        Err(refusal) => Err(refusal),
    }
}

/// So many new blocks, each under the one before it, the first under the source. Want of room for all of them refuses
/// it, and then nothing is left of them.
#[tactic(none)]
pub fn new_chain<K: Blocks>(
    client: &Client,
    disk: &mut K,
    source: u32,
    count: u32,
) -> Result<BlockList, FsRefusal>
    requires unspent { (K.view disk.old).spent ≡ false }
    requires valid { K.told → IsValidNow (K.view disk.old) }
    requires may { K.told → MayWrite client.now (K.view disk.old) source }
    requires stage { K.told → Stage client.now.root (K.view disk.old).world source }
    requires few { K.told → count ≤ 64 }
    /// promise (with room, full, same): A new chain that nothing names yet; where there is no room the world is as it
    /// was.
    ensures made { K.told → IfOk result (λ blocks. NewChain client.now (K.view disk.old) (K.view disk.new) source
        count blocks) }
    ensures many { IfOk result (λ blocks. length blocks ≡ count) }
    ensures linkable { IfOk result (λ blocks. AreLinkable blocks) }
    ensures room { K.told → OnOk result (no_room_in (K.view disk.old).world count count ≡ None) }
    ensures full { K.told → IfErr result (λ e. e ≢ no.Device → no_room_in (K.view disk.old).world count count
        ≡ Some e) }
    ensures same { K.told → IfErr result (λ e. e ≢ no.Device → (K.view disk.new).world
        ≡ (K.view disk.old).world) }
    ensures runs { Runs K.told (K.view disk.old) (K.view disk.new) (IsAside client.now.root (K.view disk.old).world)
        result }
{
    match check_free(disk, count) {
        Ok(()) => {}
        Err(refusal) => return Err(refusal),
    }
    let mut blocks = BlockList::new();
    let mut above = source;
    for made in 0..count {
        let block = match new_block(client, disk, above) {
            Ok(block) => block,
            Err(refusal) => {
                if is_fault(&refusal) {
                    return Err(refusal);
                }
                return match give_up(client, disk, source, blocks.as_slice()) {
                    Ok(()) => Err(held_before(refusal, made)),
                    Err(fault) => Err(fault),
                };
            }
        };
        match blocks.push(block) {
            Ok(()) => above = block,
            Err(_full) => return Err(FsRefusal::NotThisFs),
        }
    }
    Ok(blocks)
}
