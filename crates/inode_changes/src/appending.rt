//! Bytes added to files.

ghost use Rattle.std.specs.Prelude.{◌≡◌, ◌<◌, ◌≤◌, ◌%◌, ◌/◌, ◌*◌, ◌+◌, [], length, false};
ghost use Rattle.std.specs.Prelude.{IfOk, IfErr, IsTrue};
ghost use Rattle.fs_trees.specs.Names.{Path, name_max};
ghost use Rattle.fs_trees.specs.Answer.{done};
ghost use Rattle.fs_trees.specs.declared.ask.ShellAsk.TheVariants as ask;
ghost use Rattle.fs_trees.specs.declared.refusal.FsRefusal.TheVariants as no;
ghost use Rattle.fs_port.specs.Calls.{IsValidNow};
ghost use Rattle.fs_port.specs.Files.{Answers};
ghost use Rattle.fs_client.specs.May.{OnlyLooks};
ghost use Rattle.fs_port.specs.Runs.{Changes};
ghost use Rattle.inode_layout.specs.Block.{inode_of, block_len_of};
ghost use Rattle.inode_layout.specs.Said.{is_directory, amount_said};
ghost use Rattle.inode_walks.specs.Asking.{MayAsk, mounted_by};
ghost use Rattle.inode_walks.specs.Finding.{IsOpenNow, IsStanding};
ghost use Rattle.inode_walks.specs.Reading.{part, bytes_said};
ghost use Rattle.inode_changes.specs.Entering.{DirectoryHasRoom};
ghost use Rattle.inode_changes.specs.Growing.{Grows, IsGrownFile};

use crate::content::Content;
use crate::entering::enter;
use crate::new_file::make_file;
use crate::sizes::is_too_big;
use fs_client::Client;
use fs_fields::NUMBER_BYTES;
use fs_port::Blocks;
use fs_trees::{FsRefusal, Path};
use inode_layout::Inode;
use inode_walks::{Found, Lookup, look_up, read_inode};
use tsd_model::Data;

/// The first of these bytes, so many at most.
fn first_bytes(bytes: &Data, len: usize) -> Data
    ensures fits { length result ≤ len }
    ensures value { len ≤ length bytes.now → result ≡ part bytes.now 0 len }
{
    let mut first = Data::new();
    let _ = first.extend_from_slice(&bytes.as_slice()[..len.min(bytes.len())]);
    first
}

/// The bytes of a file's last block where that isn't full: those behind the blocks that are.
#[tactic(none)]
fn last_bytes<K: Blocks>(client: &Client, disk: &mut K, file: &Found) -> Result<Data, FsRefusal>
    requires unspent { (K.view disk.old).spent ≡ false }
    requires valid { K.told → IsValidNow (K.view disk.old) }
    requires session { K.told → IsOpenNow client.now (K.view disk.old) }
    requires stands { K.told → IsStanding client.now (K.view disk.old) file.now }
    requires is_file { is_directory (inode_of file.now.inode) ≡ false }
    ensures few { IfOk result (λ front. length front ≤ amount_said (inode_of file.now.inode) % block_len_of
        file.now.inode) }
    ensures front { K.told
        → IfOk result (λ front. front ≡ part (bytes_said (K.view disk.old).world (inode_of file.now.inode))
        (block_len_of file.now.inode * (amount_said (inode_of file.now.inode) / block_len_of file.now.inode))
        (amount_said (inode_of file.now.inode))) }
    ensures only { K.told → IfErr result (λ e. e ≡ no.Device) }
    ensures looks { OnlyLooks K.told (K.view disk.old) (K.view disk.new) result }
{
    let inode = &file.inode;
    let len = inode.amount() as usize % inode.block_len();
    if len == 0 {
        return Ok(Data::new());
    }
    match client.look(disk, inode.named(inode.count() - 1)) {
        Ok(bytes) => Ok(first_bytes(&bytes, len)),
        Err(refusal) => Err(refusal),
    }
}

/// What a file becomes that grows by these bytes: it shares the blocks that are full, and the bytes behind them stand
/// in front of the new ones.
#[tactic(none)]
fn grown<'a>(inode: &'a Inode, front: &'a Data, bytes: &'a Data) -> Content<'a>
    requires is_file { is_directory (inode_of inode.now) ≡ false }
    requires small { amount_said (inode_of inode.now) + length bytes.now < 4294967296 }
    ensures { IsGrownFile inode.now front.now bytes.now result }
{
    let block_len = inode.block_len();
    let full = inode.amount() as usize / block_len;
    Content {
        size: inode.amount() + bytes.len() as u32,
        shared: &inode.body()[..NUMBER_BYTES * full],
        front: front.as_slice(),
        bytes: bytes.as_slice(),
        block_len,
    }
}

/// Adds these bytes, of which there are some, at the end of a file: a new inode shares the old blocks that are full,
/// and gets new ones for the bytes behind them.
#[tactic(none)]
fn grow<K: Blocks>(
    client: &Client,
    disk: &mut K,
    lookup: &Lookup<'_>,
    file: &Found,
    bytes: &Data,
) -> Result<(), FsRefusal>
    requires unspent { (K.view disk.old).spent ≡ false }
    requires valid { K.told → IsValidNow (K.view disk.old) }
    requires dir { IsTrue (is_directory (inode_of lookup.now.directory.inode)) }
    requires short { length lookup.now.name.now ≤ name_max }
    requires room { DirectoryHasRoom lookup.now.directory.inode lookup.now.name.now }
    requires is_file { is_directory (inode_of file.now.inode) ≡ false }
    requires some { 1 ≤ length bytes.now }
    requires grows { K.told → (path : Path) × Grows client.now (K.view disk.old) path lookup.now file.now }
    ensures answer { K.told → (path : Path) → Grows client.now (K.view disk.old) path lookup.now file.now
        → Answers (mounted_by client.now) (K.view disk.old) (K.view disk.new) (ask.Append path bytes.now) result
        (λ _ answer. answer ≡ done) }
    ensures changes { (path : Path) → (K.told → Grows client.now (K.view disk.old) path lookup.now file.now)
        → Changes K.told (mounted_by client.now) (K.view disk.old) (K.view disk.new) (ask.Append path bytes.now)
        result }
{
    let inode = &file.inode;
    let size = inode.amount() as u64 + bytes.len() as u64;
    if is_too_big(size, inode.block_len()) {
        return Err(FsRefusal::TooBig);
    }
    let front = match last_bytes(client, disk, file) {
        Ok(front) => front,
        Err(refusal) => return Err(refusal),
    };
    let content = grown(inode, &front, bytes);
    let new = match make_file(client, disk, lookup.directory.block, &content) {
        Ok(new) => new,
        Err(refusal) => return Err(refusal),
    };
    match enter(client, disk, lookup, new) {
        Ok(()) => Ok(()),
        Err(refusal) => Err(refusal),
    }
}

/// Adds these bytes at the end of a file. Where there are none it only looks.
#[tactic(none)]
pub fn append<K: Blocks>(
    client: &Client,
    disk: &mut K,
    path: &Path,
    bytes: &Data,
) -> Result<(), FsRefusal>
    requires may { MayAsk K.told client.now (K.view disk.old) }
    /// promise (with changes): The answer is the tree's step, and every stop leaves the tree before or after.
    ensures answer { K.told → Answers (mounted_by client.now) (K.view disk.old) (K.view disk.new)
        (ask.Append path.now bytes.now) result (λ _ answer. answer ≡ done) }
    ensures changes { Changes K.told (mounted_by client.now) (K.view disk.old) (K.view disk.new)
        (ask.Append path.now bytes.now) result }
    ensures idle { bytes.now ≡ [] → OnlyLooks K.told (K.view disk.old) (K.view disk.new) result }
{
    let lookup = match look_up(client, disk, path, FsRefusal::IsDir) {
        Ok(lookup) => lookup,
        Err(refusal) => return Err(refusal),
    };
    let block = match lookup.directory.inode.entry(lookup.name) {
        Some(block) => block,
        None => return Err(FsRefusal::NoEntry),
    };
    let file = match read_inode(client, disk, block) {
        Ok(file) => file,
        Err(refusal) => return Err(refusal),
    };
    if file.inode.is_directory() {
        return Err(FsRefusal::IsDir);
    }
    if bytes.is_empty() {
        return Ok(());
    }
    grow(client, disk, &lookup, &file, bytes)
}
