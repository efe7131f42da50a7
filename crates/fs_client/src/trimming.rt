//! Pairs out of a block that its contents don't name are deleted.

ghost use Rattle.std.specs.Prelude.{◌≡◌, false, IsTrue, OnOk};
ghost use Rattle.tsd_model.specs.World.{has_number, are_apart};
ghost use Rattle.tsd_model.specs.Pairs.{holds};
ghost use Rattle.fs_trees.specs.Layouts.{Named};
ghost use Rattle.fs_client.specs.Trimming.{MayDelete, Trims, OthersHeld, AreLedTo, AreGone, OnlyNamed};

use crate::client::Client;
use crate::leftovers::{Names, next_start};
use crate::steps::drop_pointer;
use fs_port::Blocks;
use fs_trees::FsRefusal;
use tsd_model::BlockList;

/// Deletes the pair from a block to another, where it doesn't name that.
#[tactic(none)]
fn delete_unnamed<K: Blocks, N: Names>(
    client: &Client,
    disk: &mut K,
    source: u32,
    target: u32,
    namer: &N,
) -> Result<(), FsRefusal>
    ghost kept: { Named }
    requires may { MayDelete K.told client.now kept (K.view disk.old) source (N.blocks namer.now) }
    requires held { K.told → IsTrue (holds (K.view disk.old).world.pairs source target) }
    ensures trims { Trims K.told client.now kept (K.view disk.old) (K.view disk.new) result }
    ensures others { K.told → OnOk result (OthersHeld (K.view disk.old).world (K.view disk.new).world source target) }
    ensures gone { K.told → OnOk result (has_number (N.blocks namer.now) target ≡ false
        → holds (K.view disk.new).world.pairs source target ≡ false) }
{
    if namer.names(target) {
        return Ok(());
    }
    match drop_pointer(client, disk, source, target) {
        Ok(_gone) => Ok(()),
        Err(refusal) => Err(refusal),
    }
}

/// Deletes the pairs from a block to those of these that it doesn't name.
#[tactic(none)]
fn delete_page<K: Blocks, N: Names>(
    client: &Client,
    disk: &mut K,
    source: u32,
    targets: &BlockList,
    namer: &N,
) -> Result<(), FsRefusal>
    ghost kept: { Named }
    requires may { MayDelete K.told client.now kept (K.view disk.old) source (N.blocks namer.now) }
    requires held { K.told → AreLedTo (K.view disk.old).world source targets.now }
    requires apart { K.told → IsTrue (are_apart targets.now) }
    ensures trims { Trims K.told client.now kept (K.view disk.old) (K.view disk.new) result }
    ensures gone { K.told → OnOk result (AreGone (K.view disk.new).world source targets.now (N.blocks namer.now)) }
{
    let targets = targets.as_slice();
    for position in 0..targets.len() {
        match delete_unnamed(client, disk, source, targets[position], namer) {
            Ok(()) => {}
            Err(refusal) => return Err(refusal),
        }
    }
    Ok(())
}

/// Deletes the pairs out of a block that it doesn't name. Only a fault refuses it.
#[tactic(none)]
pub fn delete_others<K: Blocks, N: Names>(
    client: &Client,
    disk: &mut K,
    source: u32,
    namer: &N,
) -> Result<(), FsRefusal>
    ghost kept: { Named }
    requires { MayDelete K.told client.now kept (K.view disk.old) source (N.blocks namer.now) }
    /// promise: The pairs out of a block that its contents don't name are deleted; what a tree names stays meanwhile,
    /// in either layout.
    ensures trims { Trims K.told client.now kept (K.view disk.old) (K.view disk.new) result }
    ensures named { K.told → OnOk result (OnlyNamed (K.view disk.new).world source (N.blocks namer.now)) }
{
    let end = disk.geometry().blocks;
    let mut start = 0;
    while start < end {
        let targets = match client.targets(disk, source, start) {
            Ok(targets) => targets,
            Err(refusal) => return Err(refusal),
        };
        match delete_page(client, disk, source, &targets, namer) {
            Ok(()) => {}
            Err(refusal) => return Err(refusal),
        }
        start = next_start(&targets, start, end);
    }
    Ok(())
}
