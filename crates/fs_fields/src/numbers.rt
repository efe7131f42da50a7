//! Numbers in bytes.

ghost use Rattle.std.specs.Prelude.{◌≡◌, ◌↔◌, ◌≤◌, ◌+◌, ◌*◌, ◌++◌, length, drop, IsOk};
ghost use Rattle.std.specs.Prelude.{OnOk, OnErr};
ghost use Rattle.byteorder.specs.Endian.{little_number, little_bytes};
ghost use Rattle.tsd_model.specs.World.{has_number, are_apart};
ghost use Rattle.fs_trees.specs.Fields.{numbers};

use byteorder::{ByteOrder, LittleEndian};
use tsd_model::{Data, ListFull};

/// How many bytes a number has.
pub const NUMBER_BYTES: usize = 4;

const _: () = prove!(NUMBER_BYTES == 4);

/// The number that stands at a position of a block.
pub fn number_at(block: &[u8], position: usize) -> u32
    requires { position + 4 ≤ length block.now }
    /// promise: The number at a place of a block's bytes.
    ensures { result ≡ little_number 4 (drop position block.now) }
{
    LittleEndian::read_u32(&block[position..])
}

/// Whether a number is among so many in a row.
pub fn is_among(list: &[u8], count: usize, number: u32) -> bool
    requires { 4 * count ≤ length list.now }
    ensures { result ≡ has_number (numbers count list.now) number }
{
    for i in 0..count {
        if number_at(list, 4 * i) == number {
            return true;
        }
    }
    false
}

/// Whether none of so many numbers in a row stands twice.
pub fn are_apart(list: &[u8], count: usize) -> bool
    requires { 4 * count ≤ length list.now }
    ensures { result ≡ are_apart (numbers count list.now) }
{
    for i in 0..count {
        let number = number_at(list, 4 * i);
        if is_among(&list[4 * i + 4..], count - i - 1, number) {
            return false;
        }
    }
    true
}

/// Adds a number's bytes at the end. A list without room for them stays as it is.
pub fn write_number(into: &mut Data, number: u32) -> Result<(), ListFull>
    ensures variant { IsOk result ↔ (length into.old + 4 ≤ 4096) }
    /// promise (with err, variant): The number's bytes at the end, exactly as the definitions say; refused, with
    /// nothing changed, exactly where there is no room.
    ensures ok { OnOk result (into.new ≡ into.old ++ little_bytes 4 number) }
    ensures err { OnErr result (into.new ≡ into.old) }
{
    let mut bytes = [0; NUMBER_BYTES];
    LittleEndian::write_u32(&mut bytes, number);
    into.extend_from_slice(&bytes)
}
