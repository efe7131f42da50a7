//! A disk made in an image, and how many bytes one has.

ghost use Rattle.std.specs.Prelude.{◌≡◌, ◌≤◌, ◌*◌, ◌+◌, length};
ghost use Rattle.tsd_model.specs.declared.geometry.Geometry.{Geometry as Size};
ghost use Rattle.image_layout.specs.Areas.{total};

use crate::number::number_of;
use embedded_disk::make_disk;
use image_layout::{Layout, read_header};
use tsd_map::MapStation;
use tsd_model::{Geometry, lawful};
use tsd_words::{Format, Status};

/// Makes a disk of this size in an image, with the capabilities that the 32 bytes of the seed give, and puts one line
/// for each primary block into the room: its number, and its capabilities to read and to write. `filled` tells how many
/// bytes they have.
///
/// The number is that of the status of `embedded_disk::make_disk`; that of Usage also where the seed has no 32 bytes.
#[unsafe(no_mangle)]
pub extern "C" fn tsd_c_format(
    image: &mut [u8],
    ask: i32,
    answer: i32,
    blocks: u32,
    sectors: u32,
    slots: u32,
    primaries: u32,
    seed: &[u8],
    lines: &mut [u8],
    filled: &mut usize,
) -> u8
    ensures filled { filled.new ≤ length lines.old }
{
    *filled = 0;
    let room = lines.len();
    let mut words = Format {
        geometry: Geometry {
            sectors,
            blocks,
            primaries,
            slots,
        },
        seed: [0; 32],
    };
    if seed.len() != words.seed.len() {
        return number_of(Status::Usage);
    }
    words.seed.copy_from_slice(seed);
    let mut station = MapStation::new(image, ask, answer, lines);
    let status = make_disk(&mut station, &words);
    *filled = station.filled().min(room);
    number_of(status)
}

/// How many bytes the image of a disk of this size has, or 0 where no disk has it.
#[unsafe(no_mangle)]
pub extern "C" fn tsd_c_disk_bytes(blocks: u32, sectors: u32, slots: u32, primaries: u32) -> u64 {
    let geometry = Geometry {
        sectors,
        blocks,
        primaries,
        slots,
    };
    if lawful(&geometry) {
        u64::from(Layout::of(&geometry).total()) * 512
    } else {
        0
    }
}

/// How many bytes the image has whose first sector this is, or 0 where it is none's.
#[unsafe(no_mangle)]
pub extern "C" fn tsd_c_image_bytes(first: &[u8]) -> u64 {
    let mut sector = [0u8; 512];
    if first.len() != sector.len() {
        return 0;
    }
    sector.copy_from_slice(first);
    match read_header(&sector) {
        Ok(header) => u64::from(Layout::of(&header.geometry).total()) * 512,
        Err(_) => 0,
    }
}
