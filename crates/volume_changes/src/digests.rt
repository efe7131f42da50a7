//! The header and the records of version 2 in a batch.

ghost use Rattle.std.specs.Prelude.{◌≡◌, ◌≢◌, ℕ, ◌+◌, ◌≤◌, [], length, Ok};
ghost use Rattle.tsd_model.specs.Geometry.{IsLawful};
ghost use Rattle.image_device.specs.Image.{Image, put_at, zeros};
ghost use Rattle.image_layout.specs.Areas.{caps_start};
ghost use Rattle.image_layout.specs.Header.{header_bytes, IsHeaderReading, IsVersion};
ghost use Rattle.intent_journal.specs.Home.{overlaid};
ghost use Rattle.cap_store.specs.Stored.{caps_sector_bytes};

use crate::growing::put_patch;
use cap_store::CapStore;
use image_layout::header::{DIGEST_VERSION, write_header};
use image_layout::sectors::{CAPS_START, HEADER_SECTOR, SECTOR_BYTES};
use image_layout::{Header, Patch};
use intent_journal::Batch;

/// How many records of version 2 a sector has.
const DIGESTS: u32 = 8;

/// The second sector of the records in version 2: zeros where the first has all.
fn second_sector(primaries: u32, caps: &CapStore) -> Patch
    requires size { primaries ≡ caps.now.geometry.primaries }
    requires version { caps.now.version ≡ 2 }
    requires empty { caps.now.geometry.primaries ≤ 8 → caps_sector_bytes 2 caps.now.records 1 ≡ zeros }
    ensures sector { result.sector ≡ caps_start + 1 }
    ensures bytes { result.bytes ≡ caps_sector_bytes 2 caps.now.records 1 }
{
    if primaries <= DIGESTS {
        Patch {
            sector: CAPS_START + 1,
            bytes: [0; SECTOR_BYTES],
        }
    } else {
        caps.patch(DIGESTS)
    }
}

/// Puts the header and the records of version 2 into an empty batch, if there was another version.
pub fn put_upgrade(batch: &mut Batch, was: u32, header: &Header, caps: &CapStore)
    requires none { batch.old ≡ [] }
    requires version { caps.now.version ≡ 2 }
    requires size { header.now.geometry ≡ caps.now.geometry }
    requires some { 1 ≤ caps.now.geometry.primaries }
    requires empty { caps.now.geometry.primaries ≤ 8 → caps_sector_bytes 2 caps.now.records 1 ≡ zeros }
    ensures none { was ≡ 2 → batch.new ≡ [] }
    ensures header { IsVersion header.now.version → IsLawful header.now.geometry
        → IsHeaderReading (header_bytes header.now) (Ok header.now) }
    ensures few { length batch.new ≤ 3 }
    ensures laid { was ≢ 2 → (x : Image) (n : ℕ) → overlaid batch.new x n ≡ put_at (caps_start + 1)
        (caps_sector_bytes 2 caps.now.records 1) (put_at caps_start (caps_sector_bytes 2 caps.now.records 0)
        (put_at 0 (header_bytes header.now) x)) n }
{
    let bytes = write_header(header);
    if was != DIGEST_VERSION {
        let first = Patch {
            sector: HEADER_SECTOR,
            bytes,
        };
        put_patch(batch, &first);
        put_patch(batch, &caps.patch(0));
        put_patch(batch, &second_sector(header.geometry.primaries, caps));
    }
}
