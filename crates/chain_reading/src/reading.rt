//! What files and the directory hold.

ghost use Rattle.std.specs.Prelude.{◌≡◌, ◌+◌, ◌++◌, ◌-◌, List, [], false, length, take, drop, map, min, IfOk};
ghost use Rattle.std.specs.Prelude.{IfErr, IfSome, OnOk};
ghost use Rattle.fs_trees.specs.ChainTree.{Link, chain_bytes};
ghost use Rattle.fs_trees.specs.declared.ask.ShellAsk.TheVariants as ask;
ghost use Rattle.fs_trees.specs.declared.refusal.FsRefusal.TheVariants as no;
ghost use Rattle.fs_port.specs.Calls.{IsValidNow};
ghost use Rattle.fs_port.specs.Files.{Answers, TellsSize, TellsPart, TellsNext};
ghost use Rattle.fs_port.specs.View.{state_of};
ghost use Rattle.fs_client.specs.May.{OnlyLooks};
ghost use Rattle.chain_layout.specs.Listed.{least_above};
ghost use Rattle.chain_reading.specs.Chained.{PlacedEntry};
ghost use Rattle.chain_reading.specs.Ahead.{IsFileAhead, HasFile, IsDirectoryAhead, HasDirectory};
ghost use Rattle.chain_reading.specs.Asking.{MayAsk, mounted_by};
ghost use Rattle.chain_reading.specs.Places.{IsPlaceIn, Leads};

use crate::finding::{find_directory, find_file};
use crate::walking::{read_page, read_part};
use chain_layout::lesser;
use fs_client::Client;
use fs_port::Blocks;
use fs_trees::{FsRefusal, Name, Path};
use fs_walks::Place;
use tsd_model::Data;
use tsd_model::lists::DATA_MAX;

/// How many bytes a chain has that begins at a block.
fn chain_size<K: Blocks>(client: &Client, disk: &mut K, first: u32) -> Result<u64, FsRefusal>
    requires unspent { (K.view disk.old).spent ≡ false }
    requires valid { K.told → IsValidNow (K.view disk.old) }
    requires file { K.told → HasFile client.now (K.view disk.old) first }
    ensures size { K.told → (ls : List Link) → IsFileAhead client.now (K.view disk.old) first ls
        → IfOk result (λ size. size ≡ length (chain_bytes ls)) }
    ensures only { K.told → IfErr result (λ e. e ≡ no.Device) }
    ensures looks { OnlyLooks K.told (K.view disk.old) (K.view disk.new) result }
{
    let mut size = 0;
    let mut block = first;
    for position in 0..disk.geometry().blocks {
        let part = match read_part(client, disk, block) {
            Ok(part) => part,
            Err(refusal) => return Err(refusal),
        };
        size += part.cluster.bytes().len() as u64;
        match part.cluster.cluster().next() {
            Some(next) => block = next,
            None => return Ok(size),
        }
    }
    Err(FsRefusal::NotThisFs)
}

/// How many bytes a file has.
pub fn size<K: Blocks>(client: &Client, disk: &mut K, path: &Path) -> Result<u64, FsRefusal>
    requires { MayAsk K.told client.now (K.view disk.old) }
    /// promise (with looks): A file's size, by the tree; no world is changed.
    ensures answer { K.told → Answers (mounted_by client.now) (K.view disk.old) (K.view disk.new) (ask.Cat path.now)
        result TellsSize }
    ensures looks { OnlyLooks K.told (K.view disk.old) (K.view disk.new) result }
{
    match find_file(client, disk, path) {
        Ok(first) => chain_size(client, disk, first),
        Err(refusal) => Err(refusal),
    }
}

/// Adds the bytes from an offset on, as far as there is room for them. So many stand before these. Tells how many of
/// these are read then.
fn add_part(into: &mut Data, bytes: &[u8], before: u64, start: u64) -> usize
    ensures added { into.new ≡ into.old ++ take (4096 - length into.old) (drop (start - before) bytes.now) }
    ensures read { result ≡ min (length bytes.now) ((start - before) + (4096 - length into.old)) }
{
    let skipped = start.saturating_sub(before).min(bytes.len() as u64) as usize;
    let rest = &bytes[skipped..];
    let count = rest.len().min(DATA_MAX - into.len());
    let _ = into.extend_from_slice(&rest[..count]);
    skipped + count
}

/// The bytes of a chain from an offset on: all that are left, or the first 4,096; none after an `Err`. Then the place
/// behind 4,096 bytes.
fn read_chain<K: Blocks>(
    client: &Client,
    disk: &mut K,
    first: u32,
    start: u64,
    into: &mut Data,
) -> Result<Place, FsRefusal>
    requires unspent { (K.view disk.old).spent ≡ false }
    requires valid { K.told → IsValidNow (K.view disk.old) }
    requires file { K.told → HasFile client.now (K.view disk.old) first }
    requires empty { into.old ≡ [] }
    ensures bytes { K.told → (ls : List Link) → IsFileAhead client.now (K.view disk.old) first ls
        → OnOk result (into.new ≡ take 4096 (drop start (chain_bytes ls))) }
    ensures place { K.told → (ls : List Link) → IsFileAhead client.now (K.view disk.old) first ls
        → IfOk result (IsPlaceIn client.now (state_of (K.view disk.new)) (chain_bytes ls) (start + 4096)) }
    ensures nothing { IfErr result (λ _. into.new ≡ []) }
    ensures only { K.told → IfErr result (λ e. e ≡ no.Device) }
    ensures looks { OnlyLooks K.told (K.view disk.old) (K.view disk.new) result }
{
    let mut before = 0;
    let mut block = first;
    for position in 0..disk.geometry().blocks {
        let part = match read_part(client, disk, block) {
            Ok(part) => part,
            Err(refusal) => {
                *into = Data::new();
                return Err(refusal);
            }
        };
        let read = add_part(into, part.cluster.bytes(), before, start) as u32;
        before += part.cluster.bytes().len() as u64;
        if into.len() == DATA_MAX {
            return Ok(Place { block, read });
        }
        match part.cluster.cluster().next() {
            Some(next) => block = next,
            None => return Ok(Place { block, read }),
        }
    }
    *into = Data::new();
    Err(FsRefusal::NotThisFs)
}

/// The bytes of a file from an offset on: all that are left, or the first 4,096; none after an `Err`. Where a place is
/// given, that is where they begin. The answer is the place behind 4,096 bytes.
pub fn read_on<K: Blocks>(
    client: &Client,
    disk: &mut K,
    path: &Path,
    start: u64,
    place: Option<Place>,
    into: &mut Data,
) -> Result<Place, FsRefusal>
    requires may { MayAsk K.told client.now (K.view disk.old) }
    requires place { K.told → IfSome place (Leads client.now (state_of (K.view disk.old)) path.now start) }
    /// promise (with place, looks): A file's bytes, by the tree, from the place where the walk before was; no world is
    /// changed.
    ensures answer { K.told → Answers (mounted_by client.now) (K.view disk.old) (K.view disk.new) (ask.Cat path.now)
        result (λ _. TellsPart start into.new) }
    ensures place { K.told
        → IfOk result (Leads client.now (state_of (K.view disk.new)) path.now (start + 4096)) }
    ensures nothing { IfErr result (λ _. into.new ≡ []) }
    ensures looks { OnlyLooks K.told (K.view disk.old) (K.view disk.new) result }
{
    *into = Data::new();
    match place {
        Some(place) => read_chain(client, disk, place.block, place.read as u64, into),
        None => match find_file(client, disk, path) {
            Ok(first) => read_chain(client, disk, first, start, into),
            Err(refusal) => Err(refusal),
        },
    }
}

/// The bytes of a file from an offset on: all that are left, or the first 4,096; none after an `Err`.
pub fn read_file<K: Blocks>(
    client: &Client,
    disk: &mut K,
    path: &Path,
    start: u64,
    into: &mut Data,
) -> Result<(), FsRefusal>
    requires { MayAsk K.told client.now (K.view disk.old) }
    /// promise (with looks): A file's bytes, by the tree; no world is changed.
    ensures answer { K.told → Answers (mounted_by client.now) (K.view disk.old) (K.view disk.new) (ask.Cat path.now)
        result (λ _. TellsPart start into.new) }
    ensures nothing { IfErr result (λ _. into.new ≡ []) }
    ensures looks { OnlyLooks K.told (K.view disk.old) (K.view disk.new) result }
{
    match read_on(client, disk, path, start, None, into) {
        Ok(_) => Ok(()),
        Err(refusal) => Err(refusal),
    }
}

/// The least name of the directory above another, each cluster read once.
fn least_above<K: Blocks>(
    client: &Client,
    disk: &mut K,
    after: &Name,
) -> Result<Option<Name>, FsRefusal>
    requires unspent { (K.view disk.old).spent ≡ false }
    requires valid { K.told → IsValidNow (K.view disk.old) }
    requires directory { K.told → HasDirectory client.now (K.view disk.old) }
    ensures least { K.told → (ls : List Link) (ps : List PlacedEntry) → IsDirectoryAhead client.now (K.view disk.old) ls
        ps → IfOk result (λ name. name ≡ least_above after.now (map (λ p. p.1.name) ps)) }
    ensures only { K.told → IfErr result (λ e. e ≡ no.Device) }
    ensures looks { OnlyLooks K.told (K.view disk.old) (K.view disk.new) result }
{
    let mut least = None;
    let mut block = client.root;
    for position in 0..disk.geometry().blocks {
        let page = match read_page(client, disk, block) {
            Ok(page) => page,
            Err(refusal) => return Err(refusal),
        };
        least = lesser(least, page.cluster.least_above(after.as_slice()));
        match page.cluster.cluster().next() {
            Some(next) => block = next,
            None => return Ok(least),
        }
    }
    Err(FsRefusal::NotThisFs)
}

/// The least name in a directory above another.
pub fn name_after<K: Blocks>(
    client: &Client,
    disk: &mut K,
    path: &Path,
    after: &Name,
) -> Result<Option<Name>, FsRefusal>
    requires { MayAsk K.told client.now (K.view disk.old) }
    /// promise (with looks): The directory's next name, by the tree; no world is changed.
    ensures answer { K.told → Answers (mounted_by client.now) (K.view disk.old) (K.view disk.new) (ask.Ls path.now)
        result (TellsNext after.now) }
    ensures looks { OnlyLooks K.told (K.view disk.old) (K.view disk.new) result }
{
    match find_directory(client, disk, path) {
        Ok(()) => least_above(client, disk, after),
        Err(refusal) => Err(refusal),
    }
}
