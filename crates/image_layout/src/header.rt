//! The header: the magic, the version and the geometry.
//!
//! | bytes | content |
//! |---|---|
//! | 0 to 7 | `TSDISK01` |
//! | 8 to 11 | version |
//! | 12 to 15 | sectors per block |
//! | 16 to 19 | blocks |
//! | 20 to 23 | primary blocks |
//! | 24 to 27 | pointer slots |
//!
//! Numbers have their lowest byte first. All else is zero.

ghost use Rattle.std.specs.Prelude.{◌≡◌, ◌+◌, ◌≤◌, ◌++◌, take, drop, List, ℕ, Result, Ok};
ghost use Rattle.std.specs.Prelude.{MatchOption};
ghost use Rattle.byteorder.specs.Endian.{little_from, little_bytes};
ghost use Rattle.tsd_model.specs.Geometry.{IsLawful};
ghost use Rattle.image_layout.specs.declared.fault.HeaderFault.{HeaderFault};
ghost use Rattle.image_layout.specs.declared.header.Header.{Header};
ghost use Rattle.image_layout.specs.Header.{header_bytes, IsHeaderReading, IsVersion, IsFirstBad};

use crate::fault::HeaderFault;
use crate::sectors::SECTOR_BYTES;
use byteorder::{ByteOrder, LittleEndian};
use tsd_model::Geometry;
use tsd_model::geometry::{MAX_BLOCKS, MAX_PRIMARIES, MAX_SLOTS, MIN_BLOCKS};

/// What an image begins with.
const MAGIC: [u8; 8] = *b"TSDISK01";

/// The version that keeps capabilities as they are.
pub const PLAIN_VERSION: u32 = 1;

/// The version that keeps their digests.
pub const DIGEST_VERSION: u32 = 2;

const _: () = prove!(PLAIN_VERSION == 1 && DIGEST_VERSION == 2);

const VERSION_AT: usize = 8;

const SECTORS_AT: usize = 12;

const BLOCKS_AT: usize = 16;

const PRIMARIES_AT: usize = 20;

const SLOTS_AT: usize = 24;

/// What the header says. Not every value is right: `read_header` answers right ones alone.
#[derive(Clone, Copy, Debug, PartialEq, Eq)]
pub struct Header {
    /// 1 or 2.
    pub version: u32,

    /// The size of the disk.
    pub geometry: Geometry,
}

/// The number at a byte of a sector.
fn number_in(sector: &[u8; SECTOR_BYTES], at: usize) -> u32
    requires { at + 4 ≤ SECTOR_BYTES }
    ensures { result ≡ little_from at 4 sector.now }
{
    LittleEndian::read_u32(&sector[at..])
}

/// Sets the number at a byte of a sector.
fn put_number(sector: &mut [u8; SECTOR_BYTES], at: usize, number: u32)
    requires { at + 4 ≤ SECTOR_BYTES }
    ensures { sector.new ≡ take at sector.old ++ little_bytes 4 number ++ drop (at + 4) sector.old }
{
    LittleEndian::write_u32(&mut sector[at..at + 4], number);
}

/// The first bad field of a geometry: its number from 1, and its value.
fn first_bad_field(geometry: &Geometry) -> Option<(u32, u32)>
    ensures { MatchOption result (IsLawful geometry.now) (λ bad. IsFirstBad geometry.now bad.0 bad.1) }
{
    let Geometry {
        sectors,
        blocks,
        primaries,
        slots,
    } = *geometry;
    if !matches!(sectors, 1 | 2 | 4 | 8) {
        Some((1, sectors))
    } else if !(MIN_BLOCKS..=MAX_BLOCKS).contains(&blocks) {
        Some((2, blocks))
    } else if !(1..=MAX_PRIMARIES).contains(&primaries) || blocks <= primaries {
        Some((3, primaries))
    } else if !(1..=MAX_SLOTS).contains(&slots) {
        Some((4, slots))
    } else {
        None
    }
}

/// Reads a header, or tells the first thing that is wrong with it: the magic, then the version, then the least field of
/// the geometry. Primary blocks are a bad field also where they are not fewer than the blocks. Other bytes don't
/// matter.
pub fn read_header(sector: &[u8; SECTOR_BYTES]) -> Result<Header, HeaderFault>
    /// promise: Ok exactly where magic, version and fields are right, else the first bad one with what was found.
    ensures { IsHeaderReading sector.now result }
{
    if !sector.starts_with(&MAGIC) {
        return Err(HeaderFault::Magic);
    }
    let version = number_in(sector, VERSION_AT);
    if !matches!(version, PLAIN_VERSION | DIGEST_VERSION) {
        return Err(HeaderFault::Version(version));
    }
    let geometry = Geometry {
        sectors: number_in(sector, SECTORS_AT),
        blocks: number_in(sector, BLOCKS_AT),
        primaries: number_in(sector, PRIMARIES_AT),
        slots: number_in(sector, SLOTS_AT),
    };
    match first_bad_field(&geometry) {
        Some((number, found)) => Err(HeaderFault::Field { number, found }),
        None => Ok(Header { version, geometry }),
    }
}

/// A sector has one reading.
pub fn readings_are_one()
    /// promise: No two readings of a sector hold together.
    ensures { (bytes : List ℕ) (one other : Result Header HeaderFault) → IsHeaderReading bytes one
        → IsHeaderReading bytes other → one ≡ other }
{}

/// The sector of a header. Every value is taken, right or not; one of version 1 or 2 with a lawful geometry reads back.
pub fn write_header(header: &Header) -> [u8; SECTOR_BYTES]
    /// promise: The header, with zeros after it.
    ensures bytes { result ≡ header_bytes header.now }
    /// promise: The header reads back for lawful geometries and versions 1 and 2.
    ensures reads_back { IsVersion header.now.version → IsLawful header.now.geometry
        → IsHeaderReading result (Ok header.now) }
{
    let mut sector = [0; SECTOR_BYTES];
    sector[..VERSION_AT].copy_from_slice(&MAGIC);
    put_number(&mut sector, VERSION_AT, header.version);
    put_number(&mut sector, SECTORS_AT, header.geometry.sectors);
    put_number(&mut sector, BLOCKS_AT, header.geometry.blocks);
    put_number(&mut sector, PRIMARIES_AT, header.geometry.primaries);
    put_number(&mut sector, SLOTS_AT, header.geometry.slots);
    sector
}
