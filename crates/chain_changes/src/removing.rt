//! Entries that are taken away.

ghost use Rattle.std.specs.Prelude.{◌≡◌};
ghost use Rattle.fs_trees.specs.Answer.{done};
ghost use Rattle.fs_trees.specs.declared.ask.ShellAsk.TheVariants as ask;
ghost use Rattle.fs_port.specs.Files.{Answers};
ghost use Rattle.fs_port.specs.Runs.{Changes};
ghost use Rattle.chain_reading.specs.Asking.{MayAsk, mounted_by};

use crate::finding::look_up;
use chain_layout::directory_without;
use chain_reading::Lookup;
use fs_client::{Client, drop_pointer, write_block};
use fs_port::Blocks;
use fs_trees::{FsRefusal, Path};

/// Takes away a file: the cluster of its entry is written without it, which decides, and then lets go of it.
#[tactic(none)]
pub fn remove<K: Blocks>(client: &Client, disk: &mut K, path: &Path) -> Result<(), FsRefusal>
    requires may { MayAsk K.told client.now (K.view disk.old) }
    /// promise (with changes): The answer is the tree's step, and every stop leaves the tree before or after.
    ensures answer { K.told → Answers (mounted_by client.now) (K.view disk.old) (K.view disk.new) (ask.Rm path.now)
        result (λ _ answer. answer ≡ done) }
    ensures changes { Changes K.told (mounted_by client.now) (K.view disk.old) (K.view disk.new) (ask.Rm path.now)
        result }
{
    let (position, _name) = match look_up(client, disk, path, FsRefusal::IsDir) {
        Ok(found) => found,
        Err(refusal) => return Err(refusal),
    };
    match position {
        Lookup::Free { .. } => Err(FsRefusal::NoEntry),
        Lookup::Taken {
            page,
            position,
            first,
        } => {
            let bytes = directory_without(&page.cluster, position);
            match write_block(client, disk, page.block, bytes) {
                Ok(()) => {}
                Err(refusal) => return Err(refusal),
            }
            match drop_pointer(client, disk, page.block, first) {
                Ok(_gone) => Ok(()),
                Err(refusal) => Err(refusal),
            }
        }
    }
}
