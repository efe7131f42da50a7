//! What is written as an inode.
#![tactic(none)]

ghost use Rattle.std.specs.Prelude.{◌≡◌, ◌≤◌, ◌+◌, ◌*◌, ◌++◌, [], length, flat_map, IsTrue};
ghost use Rattle.byteorder.specs.Endian.{little_bytes};
ghost use Rattle.fs_trees.specs.Inode.{directory, regular, entries_room, with_listed, without_listed, inode_bytes};
ghost use Rattle.fs_trees.specs.Fields.{numbers, entry_bytes};
ghost use Rattle.inode_layout.specs.Kinds.{kind_number};
ghost use Rattle.inode_layout.specs.Block.{inode_of, block_len_of};
ghost use Rattle.inode_layout.specs.Said.{entries_said, head_bytes, is_directory};

use crate::inode::{Inode, MAGIC};
use crate::kind::{InodeKind, kind_number};
use fs_fields::{ENTRY_BYTES, NUMBER_BYTES, around, write_entry, write_number};
use tsd_model::Data;

/// Adds bytes for which there is room.
fn add(into: &mut Data, bytes: &[u8])
    requires { length into.old + length bytes.now ≤ 4096 }
    ensures { into.new ≡ into.old ++ bytes.now }
{
    let _ = into.extend_from_slice(bytes);
}

/// Adds an entry for which there is room.
fn add_entry(into: &mut Data, name: &[u8], block: u32)
    requires named { length name.now ≤ 28 }
    requires fits { length into.old + 32 ≤ 4096 }
    ensures { into.new ≡ into.old ++ entry_bytes (record { name = name.now; block = block }) }
{
    let _ = write_entry(into, name, block);
}

/// Adds numbers for which there is room.
fn add_numbers(into: &mut Data, numbers: &[u32])
    requires { length into.old + 4 * length numbers.now ≤ 4096 }
    ensures { into.new ≡ into.old ++ flat_map (little_bytes 4) numbers.now }
{
    for number in numbers {
        let _ = write_number(into, *number);
    }
}

/// The head of an inode.
fn head(kind: InodeKind, amount: u32) -> Data
    ensures { result ≡ head_bytes (kind_number kind) amount }
{
    let mut bytes = Data::new();
    add(&mut bytes, &MAGIC);
    add_numbers(&mut bytes, &[kind_number(kind), amount]);
    bytes
}

/// A directory without entries.
pub fn empty_directory() -> Data
    ensures { result ≡ inode_bytes (directory []) }
{
    head(InodeKind::Directory, 0)
}

/// A file of this size: the numbers of the blocks that it shares with another, as they stand in a block, and those of
/// others.
pub fn file_inode(size: u32, shared: &[u8], count: usize, blocks: &[u32]) -> Data
    requires all { length shared.now ≡ 4 * count }
    requires fits { 16 + 4 * (count + length blocks.now) ≤ 4096 }
    /// promise: The bytes of a file's inode.
    ensures { result ≡ inode_bytes (regular size (numbers count shared.now ++ blocks.now)) }
{
    let mut bytes = head(InodeKind::Regular, size);
    add(&mut bytes, shared);
    add_numbers(&mut bytes, blocks);
    bytes
}

/// The directory with an entry in its place, in place of the one of its name.
pub fn directory_with(old: &Inode, name: &[u8], block: u32) -> Data
    requires dir { IsTrue (is_directory (inode_of old.now)) }
    requires named { length name.now ≤ 28 }
    requires fits { length (with_listed (record { name = name.now; block = block }) (entries_said (inode_of old.now)))
        ≤ entries_room (block_len_of old.now) }
    /// promise: The bytes of a directory with the entry in its place, instead of the one of its name.
    ensures { result ≡ inode_bytes (directory (with_listed (record { name = name.now; block = block })
        (entries_said (inode_of old.now)))) }
{
    let (before, behind) = around(old.body(), old.count(), name);
    let amount = (before.len() + behind.len()) / ENTRY_BYTES + 1;
    let mut bytes = head(InodeKind::Directory, amount as u32);
    add(&mut bytes, before);
    add_entry(&mut bytes, name, block);
    add(&mut bytes, behind);
    bytes
}

/// The directory without the entry of a name.
pub fn directory_without(old: &Inode, name: &[u8]) -> Data
    requires dir { IsTrue (is_directory (inode_of old.now)) }
    /// promise: The bytes of a directory without an entry.
    ensures { result ≡ inode_bytes (directory (without_listed name.now (entries_said (inode_of old.now)))) }
{
    let (before, behind) = around(old.body(), old.count(), name);
    let amount = (before.len() + behind.len()) / ENTRY_BYTES;
    let mut bytes = head(InodeKind::Directory, amount as u32);
    add(&mut bytes, before);
    add(&mut bytes, behind);
    bytes
}
