//! The entry that a path speaks of.

ghost use Rattle.std.specs.Prelude.{◌≡◌, ◌≢◌, [], ◌∷◌, None, Some, IsTrue, IfOk, IfErr, OnOk};
ghost use Rattle.fs_trees.specs.Names.{is_path};
ghost use Rattle.fs_trees.specs.declared.refusal.FsRefusal.TheVariants as no;
ghost use Rattle.fs_client.specs.May.{OnlyLooks};
ghost use Rattle.fs_client.specs.Changing.{lookup_refusal};
ghost use Rattle.chain_reading.specs.Asking.{MayAsk, tree_under};
ghost use Rattle.chain_reading.specs.Finding.{IsLookupWithin};
ghost use Rattle.chain_changes.specs.Lookups.{IsLookupOf};

use chain_reading::{Lookup, no_way, search};
use fs_client::Client;
use fs_port::Blocks;
use fs_trees::{FsRefusal, Name, Path};

/// The entry of a path, and its name; `at_root` is answered of `/`, which is no entry.
pub fn look_up<'a, K: Blocks>(
    client: &Client,
    disk: &mut K,
    path: &'a Path,
    at_root: FsRefusal,
) -> Result<(Lookup, &'a Name), FsRefusal>
    requires may { MayAsk K.told client.now (K.view disk.old) }
    requires refusal { at_root ≢ no.Device }
    ensures named { IsTrue (is_path path.now) }
    ensures found { K.told → IfOk result (λ found. IsLookupOf client.now (K.view disk.new) found.1.now found.0) }
    ensures path { IfOk result (λ found. path.now ≡ found.1.now ∷ []) }
    ensures within { IfOk result (λ found. IsLookupWithin found.0) }
    ensures none { K.told → OnOk result (lookup_refusal (tree_under client.now (K.view disk.old)) path.now at_root
        ≡ None) }
    ensures refused { K.told → IfErr result (λ e. e ≢ no.Device
        → lookup_refusal (tree_under client.now (K.view disk.old)) path.now at_root ≡ Some e) }
    ensures looks { OnlyLooks K.told (K.view disk.old) (K.view disk.new) result }
{
    match path.as_slice() {
        [] => Err(at_root),
        [name] => match search(client, disk, name) {
            Ok(position) => Ok((position, name)),
            Err(refusal) => Err(refusal),
        },
        [name, _, ..] => match search(client, disk, name) {
            Ok(position) => Err(no_way(position)),
            Err(refusal) => Err(refusal),
        },
    }
}
