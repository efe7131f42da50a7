//! What files and directories hold.

ghost use Rattle.std.specs.Prelude.{◌≡◌, ◌≤◌, ◌<◌, ◌+◌, ◌++◌, [], length, false, IfOk};
ghost use Rattle.std.specs.Prelude.{IfErr, OnOk};
ghost use Rattle.fs_trees.specs.declared.ask.ShellAsk.TheVariants as ask;
ghost use Rattle.fs_trees.specs.declared.refusal.FsRefusal.TheVariants as no;
ghost use Rattle.fs_port.specs.Calls.{IsValidNow};
ghost use Rattle.fs_port.specs.Files.{Answers, TellsSize, TellsPart, TellsNext};
ghost use Rattle.fs_client.specs.May.{OnlyLooks};
ghost use Rattle.inode_layout.specs.Block.{inode_of};
ghost use Rattle.inode_layout.specs.Said.{is_directory, amount_said};
ghost use Rattle.inode_walks.specs.Asking.{MayAsk, mounted_by};
ghost use Rattle.inode_walks.specs.Finding.{IsOpenNow, IsStanding};
ghost use Rattle.inode_walks.specs.Reading.{part, bytes_said};

use crate::finding::{Found, find_directory, find_file};
use fs_client::Client;
use fs_port::Blocks;
use fs_trees::{FsRefusal, Name, Path};
use tsd_model::Data;
use tsd_model::lists::DATA_MAX;

/// How many bytes a file has.
pub fn size<K: Blocks>(client: &Client, disk: &mut K, path: &Path) -> Result<u64, FsRefusal>
    requires may { MayAsk K.told client.now (K.view disk.old) }
    /// promise (with looks): A file's size, by the tree; no world is changed.
    ensures answer { K.told → Answers (mounted_by client.now) (K.view disk.old) (K.view disk.new) (ask.Cat path.now)
        result TellsSize }
    ensures looks { OnlyLooks K.told (K.view disk.old) (K.view disk.new) result }
{
    match find_file(client, disk, path) {
        Ok(file) => Ok(file.inode.amount() as u64),
        Err(refusal) => Err(refusal),
    }
}

/// Adds what stands in a block from one offset to another, as far as it has it, and where there is room for it.
fn add_part(into: &mut Data, bytes: &Data, first: usize, last: usize)
    ensures { first ≤ last → last ≤ length bytes.now → length into.old + last ≤ 4096 + first
        → into.new ≡ into.old ++ part bytes.now first last }
{
    let end = last.min(bytes.len());
    let start = first.min(end);
    let _ = into.extend_from_slice(&bytes.as_slice()[start..end]);
}

/// Reads what stands in the block of a file in which an offset lies, from there on, but not past another.
fn read_block<K: Blocks>(
    client: &Client,
    disk: &mut K,
    file: &Found,
    at: usize,
    end: usize,
    into: &mut Data,
) -> Result<usize, FsRefusal>
    requires unspent { (K.view disk.old).spent ≡ false }
    requires valid { K.told → IsValidNow (K.view disk.old) }
    requires session { K.told → IsOpenNow client.now (K.view disk.old) }
    requires stands { K.told → IsStanding client.now (K.view disk.old) file.now }
    requires is_file { is_directory (inode_of file.now.inode) ≡ false }
    requires order { at < end }
    requires there { end ≤ amount_said (inode_of file.now.inode) }
    requires room { K.told → length into.old + end ≤ 4096 + at }
    ensures next { IfOk result (λ next. (at < next) × (next ≤ end)) }
    ensures bytes { K.told
        → IfOk result (λ next. into.new ≡ into.old ++ part (bytes_said (K.view disk.old).world
        (inode_of file.now.inode)) at next) }
    ensures only { K.told → IfErr result (λ e. e ≡ no.Device) }
    ensures looks { OnlyLooks K.told (K.view disk.old) (K.view disk.new) result }
{
    let len = file.inode.block_len();
    match client.look(disk, file.inode.named(at / len)) {
        Ok(bytes) => {
            let first = at % len;
            let last = (first + (end - at)).min(len);
            add_part(into, &bytes, first, last);
            Ok(at + (last - first))
        }
        Err(refusal) => Err(refusal),
    }
}

/// Reads the bytes of a file from one offset to another, block by block; none are left after an `Err`.
fn read_bytes<K: Blocks>(
    client: &Client,
    disk: &mut K,
    file: &Found,
    start: usize,
    end: usize,
    into: &mut Data,
) -> Result<(), FsRefusal>
    requires unspent { (K.view disk.old).spent ≡ false }
    requires valid { K.told → IsValidNow (K.view disk.old) }
    requires session { K.told → IsOpenNow client.now (K.view disk.old) }
    requires stands { K.told → IsStanding client.now (K.view disk.old) file.now }
    requires is_file { is_directory (inode_of file.now.inode) ≡ false }
    requires order { start ≤ end }
    requires there { end ≤ amount_said (inode_of file.now.inode) }
    requires room { end ≤ 4096 + start }
    requires empty { into.old ≡ [] }
    ensures bytes { K.told
        → OnOk result (into.new ≡ part (bytes_said (K.view disk.old).world (inode_of file.now.inode)) start end) }
    ensures nothing { IfErr result (λ _. into.new ≡ []) }
    ensures only { K.told → IfErr result (λ e. e ≡ no.Device) }
    ensures looks { OnlyLooks K.told (K.view disk.old) (K.view disk.new) result }
{
    let mut at = start;
    while at < end {
        at = match read_block(client, disk, file, at, end, into) {
            Ok(next) => next,
            Err(refusal) => {
                *into = Data::new();
                return Err(refusal);
            }
        };
    }
    Ok(())
}

/// The bytes of a file from an offset on: all that are left, or the first 4,096; none after an `Err`.
pub fn read_part<K: Blocks>(
    client: &Client,
    disk: &mut K,
    path: &Path,
    start: u64,
    into: &mut Data,
) -> Result<(), FsRefusal>
    requires may { MayAsk K.told client.now (K.view disk.old) }
    /// promise (with looks): A file's bytes from an offset, by the tree; no world is changed.
    ensures answer { K.told → Answers (mounted_by client.now) (K.view disk.old) (K.view disk.new) (ask.Cat path.now)
        result (λ _. TellsPart start into.new) }
    ensures nothing { IfErr result (λ _. into.new ≡ []) }
    ensures looks { OnlyLooks K.told (K.view disk.old) (K.view disk.new) result }
{
    *into = Data::new();
    let file = match find_file(client, disk, path) {
        Ok(file) => file,
        Err(refusal) => return Err(refusal),
    };
    let size = file.inode.amount() as u64;
    if start >= size {
        return Ok(());
    }
    let end = size.min(start + DATA_MAX as u64);
    read_bytes(client, disk, &file, start as usize, end as usize, into)
}

/// The least name in a directory above another.
#[tactic(none)]
pub fn name_after<K: Blocks>(
    client: &Client,
    disk: &mut K,
    path: &Path,
    after: &Name,
) -> Result<Option<Name>, FsRefusal>
    requires may { MayAsk K.told client.now (K.view disk.old) }
    /// promise (with looks): A directory's next name, by the tree; no world is changed.
    ensures answer { K.told → Answers (mounted_by client.now) (K.view disk.old) (K.view disk.new) (ask.Ls path.now)
        result (TellsNext after.now) }
    ensures looks { OnlyLooks K.told (K.view disk.old) (K.view disk.new) result }
{
    match find_directory(client, disk, path.as_slice()) {
        Ok(found) => Ok(found.inode.name_after(after.as_slice())),
        Err(refusal) => Err(refusal),
    }
}
