//! One sector of records.

ghost use Rattle.std.specs.Prelude.{◌≡◌, ◌+◌, ◌-◌, ◌*◌, ◌<◌, ◌≤◌, ◌++◌, length, take};
ghost use Rattle.std.specs.Prelude.{drop, replicate};
ghost use Rattle.std.specs.List.{flat_map};
ghost use Rattle.image_layout.specs.Image.{kept_len};
ghost use Rattle.image_layout.specs.Header.{IsVersion};
ghost use Rattle.cap_store.specs.Store.{AreRecords, IsRecord};
ghost use Rattle.cap_store.specs.Stored.{caps_sector_bytes, kept_as, kept_bytes, per_sector, sector_record};
ghost use Rattle.cap_store.specs.Stored.{record_bytes};

use image_layout::header::DIGEST_VERSION;
use image_layout::sectors::SECTOR_BYTES;
use tsd_model::caps::CAP_BYTES;
use tsd_model::records::DIGEST_BYTES;
use tsd_model::{Cap, KeptCap, Record};

/// How many pairs of capabilities a sector has.
const CAP_PAIRS_PER_SECTOR: usize = 16;

/// How many pairs of digests a sector has.
const DIGEST_PAIRS_PER_SECTOR: usize = 8;

const _: () = prove!(CAP_PAIRS_PER_SECTOR * 2 * CAP_BYTES == SECTOR_BYTES);

const _: () = prove!(DIGEST_PAIRS_PER_SECTOR * 2 * DIGEST_BYTES == SECTOR_BYTES);

/// How many records of a version stand in a sector.
pub(crate) fn per_sector(version: u32) -> usize
    ensures { result ≡ per_sector version }
{
    if version == DIGEST_VERSION {
        DIGEST_PAIRS_PER_SECTOR
    } else {
        CAP_PAIRS_PER_SECTOR
    }
}

/// How many bytes a version keeps of a capability.
fn kept_len(version: u32) -> usize
    ensures { result ≡ kept_len version }
{
    if version == DIGEST_VERSION {
        DIGEST_BYTES
    } else {
        CAP_BYTES
    }
}

/// What is kept of a capability, from a byte of a sector on.
fn kept_in(version: u32, bytes: &[u8; SECTOR_BYTES], at: usize) -> KeptCap
    requires { at + kept_len version ≤ 512 }
    ensures { result ≡ kept_as version (take (kept_len version) (drop at bytes.now)) }
{
    if version == DIGEST_VERSION {
        let mut digest = [0; DIGEST_BYTES];
        digest.copy_from_slice(&bytes[at..at + DIGEST_BYTES]);
        KeptCap::Digested(digest)
    } else {
        let mut cap = [0; CAP_BYTES];
        cap.copy_from_slice(&bytes[at..at + CAP_BYTES]);
        KeptCap::Plain(Cap { bytes: cap })
    }
}

/// The record at a position of a sector, counted from 0.
pub(crate) fn record_in(version: u32, bytes: &[u8; SECTOR_BYTES], position: usize) -> Record
    requires version { IsVersion version }
    requires inside { position < per_sector version }
    ensures value { result ≡ sector_record version bytes.now position }
    ensures kept { IsRecord version result }
{
    let len = kept_len(version);
    let at = 2 * len * position;
    Record {
        read: kept_in(version, bytes, at),
        write: kept_in(version, bytes, at + len),
    }
}

/// The bytes of what is kept of a capability.
fn kept_slice(held: &KeptCap) -> &[u8]
    ensures { result.now ≡ kept_bytes held.now }
{
    match held {
        KeptCap::Plain(cap) => cap.bytes.as_slice(),
        KeptCap::Digested(digest) => digest.as_slice(),
    }
}

/// Writes what is kept of a capability from a byte on, and gives the byte behind it.
fn put_kept(bytes: &mut [u8; SECTOR_BYTES], at: usize, held: &KeptCap) -> usize
    requires { at + length (kept_bytes held.now) ≤ 512 }
    ensures end { result ≡ at + length (kept_bytes held.now) }
    ensures bytes { bytes.new ≡ take at bytes.old ++ kept_bytes held.now ++ drop (at + length (kept_bytes held.now))
        bytes.old }
{
    let kept = kept_slice(held);
    let end = at + kept.len();
    bytes[at..end].copy_from_slice(kept);
    end
}

/// The bytes of these records, and zeros behind them.
fn bytes_of(records: &[Record]) -> [u8; SECTOR_BYTES]
    requires { length (flat_map record_bytes records.now) ≤ 512 }
    ensures { result ≡ flat_map record_bytes records.now
        ++ replicate (512 - length (flat_map record_bytes records.now)) 0 }
{
    let mut bytes = [0; SECTOR_BYTES];
    let mut at = 0;
    for held in records {
        at = put_kept(&mut bytes, at, &held.read);
        at = put_kept(&mut bytes, at, &held.write);
    }
    bytes
}

/// The bytes of one of the two sectors of all records, by its number from 0.
pub(crate) fn bytes_of_part(version: u32, records: &[Record], part: usize) -> [u8; SECTOR_BYTES]
    requires version { IsVersion version }
    requires each { AreRecords version records.now }
    requires inside { part * per_sector version < length records.now }
    ensures { result ≡ caps_sector_bytes version records.now part }
{
    let each = per_sector(version);
    let first = part * each;
    let end = records.len().min(first + each);
    bytes_of(&records[first..end])
}
