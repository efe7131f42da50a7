//! Whether a block points to what it names.

ghost use Rattle.std.specs.Prelude.{◌≡◌, false, length, IfOk, IfErr};
ghost use Rattle.fs_trees.specs.declared.refusal.FsRefusal.TheVariants as no;
ghost use Rattle.fs_port.specs.Calls.{IsValidNow};
ghost use Rattle.fs_client.specs.May.{MayWrite, OnlyLooks};
ghost use Rattle.fs_client.specs.Held.{are_held};

use crate::client::Client;
use crate::leftovers::{Names, count_pairs};
use fs_port::Blocks;
use fs_trees::FsRefusal;

/// Whether a block points to each of the blocks that its contents name, so many, and none of them is named twice. Only
/// a fault refuses it.
#[tactic(none)]
pub fn is_held<K: Blocks, N: Names>(
    client: &Client,
    disk: &mut K,
    source: u32,
    namer: &N,
    count: usize,
) -> Result<bool, FsRefusal>
    requires unspent { (K.view disk.old).spent ≡ false }
    requires valid { K.told → IsValidNow (K.view disk.old) }
    requires may { K.told → MayWrite client.now (K.view disk.old) source }
    requires counted { count ≡ length (N.blocks namer.now) }
    /// promise (with only, looks): Whether a block points to all that its contents name; no world is changed, and only
    /// a fault refuses it.
    ensures held { K.told → IfOk result (λ held. held ≡ are_held (K.view disk.old).world source
        (N.blocks namer.now)) }
    ensures only { K.told → IfErr result (λ e. e ≡ no.Device) }
    ensures looks { OnlyLooks K.told (K.view disk.old) (K.view disk.new) result }
{
    match count_pairs(client, disk, source, namer) {
        Ok(pairs) => Ok(pairs.named == count),
        Err(refusal) => Err(refusal),
    }
}
