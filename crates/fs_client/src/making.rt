//! An empty tree in place of what is there.

ghost use Rattle.std.specs.Prelude.{◌≡◌, IfErr, OnOk};
ghost use Rattle.fs_trees.specs.declared.ask.ShellAsk.TheVariants as ask;
ghost use Rattle.fs_trees.specs.declared.ask.ShellKind.{ShellKind};
ghost use Rattle.fs_trees.specs.declared.refusal.FsRefusal.TheVariants as no;
ghost use Rattle.fs_port.specs.Files.{IsEitherTree};
ghost use Rattle.fs_port.specs.Runs.{IsMade, Runs};
ghost use Rattle.fs_client.specs.Changing.{files_by, MayMake};

use crate::client::Client;
use crate::leftovers::NoNames;
use crate::steps::write_block;
use crate::trimming::delete_others;
use fs_port::Blocks;
use fs_trees::FsRefusal;
use tsd_model::Data;

/// Makes an empty tree in place of what is there, where these bytes of the root are one: they are written first, which
/// decides, and then the root lets go of all. Only a fault refuses it.
#[tactic(none)]
pub fn make_empty<K: Blocks>(client: &Client, disk: &mut K, bytes: Data) -> Result<(), FsRefusal>
    ghost kind: { ShellKind }
    requires { MayMake K.told kind client.now (K.view disk.old) bytes }
    /// promise (with only, runs): An empty tree, tidy; a stop leaves the tree before or the empty one, and only a fault
    /// refuses it.
    ensures made { K.told → OnOk result (IsMade (files_by kind client.now) (K.view disk.old) (K.view disk.new)) }
    ensures only { K.told → IfErr result (λ e. e ≡ no.Device) }
    ensures runs { Runs K.told (K.view disk.old) (K.view disk.new) (IsEitherTree (files_by kind client.now)
        (K.view disk.old) ask.Make) result }
{
    match write_block(client, disk, client.root, bytes) {
        Ok(()) => {}
        Err(refusal) => return Err(refusal),
    }
    match delete_others(client, disk, client.root, &NoNames) {
        Ok(()) => Ok(()),
        Err(refusal) => Err(refusal),
    }
}
