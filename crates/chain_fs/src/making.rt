//! An empty tree in place of what is there.

ghost use Rattle.std.specs.Prelude.{◌≡◌, IfErr, OnOk};
ghost use Rattle.fs_trees.specs.declared.ask.ShellAsk.TheVariants as ask;
ghost use Rattle.fs_trees.specs.declared.refusal.FsRefusal.TheVariants as no;
ghost use Rattle.fs_port.specs.Calls.{IsValidNow};
ghost use Rattle.fs_port.specs.Files.{IsEitherTree, IsClientReady};
ghost use Rattle.fs_port.specs.Runs.{IsMade, Runs};
ghost use Rattle.chain_reading.specs.Asking.{mounted_by};

use chain_layout::empty_directory;
use fs_client::{Client, make_empty};
use fs_port::Blocks;
use fs_trees::FsRefusal;

/// Makes an empty tree in place of what is there. Only a fault refuses it.
#[tactic(none)]
pub fn make<K: Blocks>(client: &Client, disk: &mut K) -> Result<(), FsRefusal>
    requires ready { IsClientReady (mounted_by client.now) (K.view disk.old) }
    requires valid { K.told → IsValidNow (K.view disk.old) }
    /// promise (with runs): An empty tree.
    ensures made { K.told → OnOk result (IsMade (mounted_by client.now) (K.view disk.old) (K.view disk.new)) }
    ensures only { K.told → IfErr result (λ e. e ≡ no.Device) }
    ensures runs { Runs K.told (K.view disk.old) (K.view disk.new) (IsEitherTree (mounted_by client.now)
        (K.view disk.old) ask.Make) result }
{
    make_empty(client, disk, empty_directory())
}
