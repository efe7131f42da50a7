//! Entries of directories.

ghost use Rattle.std.specs.Prelude.{◌≡◌, ◌↔◌, ◌≤◌, ◌+◌, ◌*◌, ◌++◌, ◌&&◌, length};
ghost use Rattle.std.specs.Prelude.{find, flat_map, IsOk, OnOk, OnErr};
ghost use Rattle.fs_trees.specs.Names.{name_lt, are_ascending};
ghost use Rattle.fs_trees.specs.Fields.{entries, entry_names, all_named, entry_bytes};
ghost use Rattle.fs_trees.specs.Inode.{block_named};
ghost use Rattle.fs_fields.specs.Around.{place_in, behind_in, listed_before, listed_behind};

use crate::names::{is_below, trimmed};
use crate::numbers::{number_at, write_number};
use fs_trees::name::NAME_MAX;
use fs_trees::{Name, is_name};
use tsd_model::lists::DATA_MAX;
use tsd_model::{Data, ListFull};

/// How many bytes an entry has: the number of a block, and the field of a name.
pub const ENTRY_BYTES: usize = 32;

const _: () = prove!(ENTRY_BYTES == 32);

/// The block that a name stands for among so many entries, which ascend.
pub fn block_of(list: &[u8], amount: usize, name: &[u8]) -> Option<u32>
    requires { 32 * amount ≤ length list.now }
    ensures { result ≡ block_named name.now (entries amount list.now) }
{
    for i in 0..amount {
        let entry = &list[32 * i..32 * i + 32];
        let other = trimmed(&entry[4..]);
        if is_below(name, other) {
            return None;
        }
        if !is_below(other, name) {
            return Some(number_at(entry, 0));
        }
    }
    None
}

/// How many entries stand before a name.
fn position_of(list: &[u8], amount: usize, name: &[u8]) -> usize
    requires { 32 * amount ≤ length list.now }
    ensures value { result ≡ place_in name.now (entries amount list.now) }
    ensures fits { result ≤ amount }
{
    for i in 0..amount {
        let entry = &list[32 * i..32 * i + 32];
        let other = trimmed(&entry[4..]);
        if !is_below(other, name) {
            return i;
        }
    }
    amount
}

/// Where the entries behind a name begin, of which so many stand before it: behind that of the name itself, if it is
/// there.
fn behind(list: &[u8], amount: usize, position: usize, name: &[u8]) -> usize
    requires fits { 32 * amount ≤ length list.now }
    requires within { position ≤ amount }
    ensures least { position ≤ result }
    ensures most { result ≤ amount }
    ensures value { result ≡ behind_in name.now position (entries amount list.now) }
{
    if position < amount {
        let entry = &list[32 * position..32 * position + 32];
        let other = trimmed(&entry[4..]);
        if !is_below(name, other) {
            return position + 1;
        }
    }
    position
}

/// The bytes of the entries before a name, and those of the entries behind it.
pub fn around<'a>(list: &'a [u8], amount: usize, name: &[u8]) -> (&'a [u8], &'a [u8])
    requires { 32 * amount ≤ length list.now }
    ensures before { result.0.now ≡ flat_map entry_bytes (listed_before name.now (entries amount list.now)) }
    ensures behind { result.1.now ≡ flat_map entry_bytes (listed_behind name.now (entries amount list.now)) }
    ensures sized_before { length result.0.now ≡ 32 * length (listed_before name.now (entries amount list.now)) }
    ensures sized_behind { length result.1.now ≡ 32 * length (listed_behind name.now (entries amount list.now)) }
{
    let position = position_of(list, amount, name);
    let next = behind(list, amount, position, name);
    (
        &list[..ENTRY_BYTES * position],
        &list[ENTRY_BYTES * next..ENTRY_BYTES * amount],
    )
}

/// The first name above another among so many entries.
pub fn next_name(list: &[u8], amount: usize, after: &[u8]) -> Option<Name>
    requires { 32 * amount ≤ length list.now }
    /// promise: The first name above another among a directory's entries.
    ensures { result ≡ find (name_lt after.now) (entry_names (entries amount list.now)) }
{
    for i in 0..amount {
        let entry = &list[32 * i..32 * i + 32];
        let name = trimmed(&entry[4..]);
        if is_below(after, name) {
            return Some(Name::from_bytes(name));
        }
    }
    None
}

/// Whether each of so many entries has a name, and each name stands above the one before it.
pub fn are_in_order(list: &[u8], amount: usize) -> bool
    requires { 32 * amount ≤ length list.now }
    /// promise: Whether each entry of a directory has a name, and each name stands above the one before it.
    ensures { result ≡ (all_named (entries amount list.now) && are_ascending (entry_names (entries amount list.now))) }
{
    let mut last: &[u8] = &[];
    for i in 0..amount {
        let entry = &list[32 * i..32 * i + 32];
        let name = trimmed(&entry[4..]);
        if !is_name(name) || !is_below(last, name) {
            return false;
        }
        last = name;
    }
    true
}

/// Adds an entry's bytes at the end. A list without room for them stays as it is.
pub fn write_entry(into: &mut Data, name: &[u8], block: u32) -> Result<(), ListFull>
    requires { length name.now ≤ 28 }
    ensures variant { IsOk result ↔ (length into.old + 32 ≤ 4096) }
    ensures ok { OnOk result (into.new ≡ into.old ++ entry_bytes (record { name = name.now; block = block })) }
    ensures err { OnErr result (into.new ≡ into.old) }
{
    if into.len() + ENTRY_BYTES > DATA_MAX {
        return Err(ListFull);
    }
    write_number(into, block)?;
    into.extend_from_slice(name)?;
    into.extend_from_slice(&[0; NAME_MAX][name.len()..])
}
