//! Sectors that stand at the same offset on every image.

ghost use Rattle.std.specs.Prelude.{◌≡◌};
ghost use Rattle.image_layout.specs.Areas.{header_sector, format_gate, sweep_flag, caps_start, counts_start};
ghost use Rattle.image_layout.specs.Areas.{most_sectors};

pub use tsd_model::SECTOR_BYTES;

/// The header.
pub const HEADER_SECTOR: u32 = 0;

/// The format gate: open where the image was formatted to the end.
pub const FORMAT_GATE: u32 = 1;

/// The sweep flag: open where a sweep has begun and not ended.
pub const SWEEP_FLAG: u32 = 131;

/// The first of the two sectors of what primary blocks keep: capabilities, or digests.
pub const CAPS_START: u32 = 132;

/// The first sector of the counts.
pub const COUNTS_START: u32 = 134;

/// The most sectors that an image has.
pub const MOST_SECTORS: u32 = 8_462_726;

/// These sectors are those of the format, and so is the most that an image has: the whole of the largest disk.
pub fn sectors_are_the_formats()
    ensures bytes { SECTOR_BYTES ≡ 512 }
    /// promise (with bytes, format_gate, sweep_flag, caps, counts, most): The constants of sectors are those of the
    /// format.
    ensures header { HEADER_SECTOR ≡ header_sector }
    ensures format_gate { FORMAT_GATE ≡ format_gate }
    ensures sweep_flag { SWEEP_FLAG ≡ sweep_flag }
    ensures caps { CAPS_START ≡ caps_start }
    ensures counts { COUNTS_START ≡ counts_start }
    ensures most { MOST_SECTORS ≡ most_sectors }
{}
