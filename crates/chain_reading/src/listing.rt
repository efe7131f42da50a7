//! The names of the directory in order, many in one pass.

ghost use Rattle.std.specs.Prelude.{◌≡◌, ◌<◌, ◌≤◌, ◌++◌, List, [], true, false, length, take, insert, map, IfErr, OnOk};
ghost use Rattle.std.specs.List.{list_all};
ghost use Rattle.fs_trees.specs.Fields.{entry_names};
ghost use Rattle.fs_trees.specs.Names.{Name, is_name};
ghost use Rattle.fs_trees.specs.declared.ask.ShellAsk.TheVariants as ask;
ghost use Rattle.fs_trees.specs.declared.refusal.FsRefusal.TheVariants as no;
ghost use Rattle.fs_port.specs.Calls.{IsValidNow};
ghost use Rattle.fs_port.specs.Files.{Answers};
ghost use Rattle.fs_walks.specs.Nexts.{TellsNames};
ghost use Rattle.fs_client.specs.May.{OnlyLooks};
ghost use Rattle.chain_layout.specs.Held.{entries_in};
ghost use Rattle.chain_reading.specs.Chained.{PlacedEntry};
ghost use Rattle.chain_reading.specs.Ahead.{IsDirectoryAhead, HasDirectory};
ghost use Rattle.chain_reading.specs.Asking.{MayAsk, mounted_by};
ghost use Rattle.chain_reading.specs.Nexts.{least_names, with_name};
ghost use Rattle.fs_trees.specs.ChainTree.{Link};

use crate::finding::find_directory;
use crate::walking::read_page;
use arrayvec::ArrayVec;
use chain_layout::DirectoryCluster;
use fs_client::Client;
use fs_fields::is_below;
use fs_port::Blocks;
use fs_trees::{FsRefusal, Name, Path};
use fs_walks::NAMES_AT_ONCE;

/// A name of these bytes, as far as a name goes.
fn name_of(bytes: &[u8]) -> Name
    ensures { length bytes.now ≤ 28 → result ≡ bytes.now }
{
    let mut name = Name::new();
    for byte in bytes {
        let _ = name.push(*byte);
    }
    name
}

/// Puts a name at a position among others. The last one goes where there is no room for it.
fn put_at(into: &mut ArrayVec<Name, NAMES_AT_ONCE>, position: usize, name: Name)
    requires { position < length into.old.items }
    ensures { into.new.items ≡ take 64 (insert into.old.items position name) }
{
    if into.is_full() {
        let _ = into.pop();
    }
    into.insert(position, name);
}

/// Puts a name among ascending ones. The greatest goes where there is no room for it.
fn put_name(into: &mut ArrayVec<Name, NAMES_AT_ONCE>, name: Name)
    ensures { into.new.items ≡ take 64 (with_name name into.old.items) }
{
    for position in 0..into.len() {
        let other = into.as_slice()[position].as_slice();
        if is_below(name.as_slice(), other) {
            put_at(into, position, name);
            return;
        }
        if !is_below(other, name.as_slice()) {
            return;
        }
    }
    if into.is_full() {
        return;
    }
    into.push(name);
}

/// Puts those names of a cluster that stand above another among the ascending ones that come after that.
fn put_names(into: &mut ArrayVec<Name, NAMES_AT_ONCE>, cluster: &DirectoryCluster, after: &Name)
    ensures { list_all is_name (entry_names (entries_in cluster.now)) ≡ true → (ns : List Name)
        → into.old.items ≡ least_names 64 after.now ns
        → into.new.items ≡ least_names 64 after.now (ns ++ entry_names (entries_in cluster.now)) }
{
    for position in 0..cluster.count() {
        let name = cluster.name(position);
        if is_below(after.as_slice(), name) {
            put_name(into, name_of(name));
        }
    }
}

/// The least names of the directory above another, each cluster read once.
fn least_names<K: Blocks>(
    client: &Client,
    disk: &mut K,
    after: &Name,
    into: &mut ArrayVec<Name, NAMES_AT_ONCE>,
) -> Result<(), FsRefusal>
    requires unspent { (K.view disk.old).spent ≡ false }
    requires valid { K.told → IsValidNow (K.view disk.old) }
    requires directory { K.told → HasDirectory client.now (K.view disk.old) }
    requires empty { into.old.items ≡ [] }
    ensures least { K.told → (ls : List Link) (ps : List PlacedEntry) → IsDirectoryAhead client.now (K.view disk.old) ls
        ps → OnOk result (into.new.items ≡ least_names 64 after.now (map (λ p. p.1.name) ps)) }
    ensures only { K.told → IfErr result (λ e. e ≡ no.Device) }
    ensures looks { OnlyLooks K.told (K.view disk.old) (K.view disk.new) result }
{
    let mut block = client.root;
    for position in 0..disk.geometry().blocks {
        let page = match read_page(client, disk, block) {
            Ok(page) => page,
            Err(refusal) => return Err(refusal),
        };
        put_names(into, &page.cluster, after);
        match page.cluster.cluster().next() {
            Some(next) => block = next,
            None => return Ok(()),
        }
    }
    Err(FsRefusal::NotThisFs)
}

/// The names in a directory that come next after another, in order: all that are left, or the first 64.
pub fn names_after<K: Blocks>(
    client: &Client,
    disk: &mut K,
    path: &Path,
    after: &Name,
    into: &mut ArrayVec<Name, NAMES_AT_ONCE>,
) -> Result<(), FsRefusal>
    requires { MayAsk K.told client.now (K.view disk.old) }
    /// promise (with looks): The directory's next names, by the tree; no world is changed.
    ensures answer { K.told → Answers (mounted_by client.now) (K.view disk.old) (K.view disk.new) (ask.Ls path.now)
        result (λ _. TellsNames after.now into.new.items) }
    ensures looks { OnlyLooks K.told (K.view disk.old) (K.view disk.new) result }
{
    into.clear();
    match find_directory(client, disk, path) {
        Ok(()) => least_names(client, disk, after, into),
        Err(refusal) => Err(refusal),
    }
}
