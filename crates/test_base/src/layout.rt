//! The format's worked places and bytes, and each fault of a header.

ghost use Rattle.std.specs.Prelude.{◌≡◌, true, false, [], ◌∷◌, replicate};
ghost use Rattle.image_layout.specs.Image.{says_open, stored_count, is_bit_set, source_field, target_field};
ghost use Rattle.image_layout.specs.Image.{kept_for_reading, kept_for_writing, data_bytes};
ghost use Rattle.image_layout.specs.Worked.{worked, worked_size};

use image_layout::ring::{body_sector, descriptor_sector, gate_sector};
use image_layout::{
    Header, HeaderFault, Layout, Offset, bit_mask, gate_bytes, read_header, write_header,
};
use tsd_model::{Geometry, lawful};

/// A least disk with 32 pointer slots.
const SMALL: Geometry = Geometry {
    sectors: 1,
    blocks: 8,
    primaries: 1,
    slots: 32,
};

/// The largest disk.
const LARGE: Geometry = Geometry {
    sectors: 8,
    blocks: 1_048_576,
    primaries: 16,
    slots: 4_194_304,
};

fn at(sector: u32, byte: u32) -> Offset {
    Offset { sector, byte }
}

#[test]
fn small_places(rt: HostRuntime) {
    assert!(rt; lawful(&SMALL));
    let layout = Layout::of(&SMALL);
    assert_eq!(rt; layout.bitmap_start(), 135);
    assert_eq!(rt; layout.slots_start(), 136);
    assert_eq!(rt; layout.data_start(), 137);
    assert_eq!(rt; layout.total(), 145);
    assert_eq!(rt; layout.count_offset(0), at(134, 0));
    assert_eq!(rt; layout.count_offset(7), at(134, 28));
    assert_eq!(rt; layout.bit_offset(7), at(135, 0));
    assert_eq!(rt; layout.slot_offset(31), at(136, 248));
    assert_eq!(rt; layout.cap_offset(0), at(132, 0));
    assert_eq!(rt; layout.digest_offset(0), at(132, 0));
    assert_eq!(rt; layout.data_sector(0, 0), 137);
    assert_eq!(rt; layout.data_sector(7, 0), 144);
}

#[test]
fn large_places(rt: HostRuntime) {
    assert!(rt; lawful(&LARGE));
    let layout = Layout::of(&LARGE);
    assert_eq!(rt; layout.bitmap_start(), 8_326);
    assert_eq!(rt; layout.slots_start(), 8_582);
    assert_eq!(rt; layout.data_start(), 74_118);
    assert_eq!(rt; layout.total(), 8_462_726);
    assert_eq!(rt; layout.count_offset(1_048_575), at(8_325, 508));
    assert_eq!(rt; layout.bit_offset(1_048_575), at(8_581, 511));
    assert_eq!(rt; layout.slot_offset(4_194_303), at(74_117, 504));
    assert_eq!(rt; layout.cap_offset(15), at(132, 480));
    assert_eq!(rt; layout.digest_offset(7), at(132, 448));
    assert_eq!(rt; layout.digest_offset(8), at(133, 0));
    assert_eq!(rt; layout.data_sector(1_048_575, 7), 8_462_725);
}

#[test]
fn fixed_places(rt: HostRuntime) {
    for (record, gate) in [(0, 2), (1, 117), (2, 119), (6, 127), (7, 129)] {
        assert_eq!(rt; gate_sector(record), gate);
        assert_eq!(rt; descriptor_sector(record), gate + 1);
    }
    assert_eq!(rt; body_sector(0), 4);
    assert_eq!(rt; body_sector(112), 116);
    for (block, mask) in [(0, 1), (3, 8), (7, 128), (8, 1), (13, 32)] {
        assert_eq!(rt; bit_mask(block), mask);
    }
    let mut open = gate_bytes(true);
    assert_eq!(rt; open[0], 1);
    open[0] = 0;
    assert_eq!(rt; open, [0; 512]);
    assert_eq!(rt; gate_bytes(false), [0; 512]);
}

#[test]
fn header_bytes(rt: HostRuntime) {
    let header = Header {
        version: 1,
        geometry: SMALL,
    };
    let mut sector = write_header(&header);
    let numbers = b"TSDISK01\x01\0\0\0\x01\0\0\0\x08\0\0\0\x01\0\0\0\x20\0\0\0";
    assert!(rt; sector.starts_with(numbers));
    assert_eq!(rt; &sector[28..], [0; 484].as_slice());
    sector[28] = 1;
    sector[511] = 255;
    assert_eq!(rt;
        read_header(&sector),
        Ok(header),
        "other bytes don't matter"
    );
    sector[7] = b'2';
    assert_eq!(rt; read_header(&sector), Err(HeaderFault::Magic));
    assert_eq!(rt; read_header(&[0; 512]), Err(HeaderFault::Magic));
}

#[test]
fn header_faults(rt: HostRuntime) {
    for (version, sectors, blocks, primaries, slots, number, found) in [
        (1, 3, 8, 1, 32, 1, 3),
        (2, 0, 8, 1, 32, 1, 0),
        (1, 1, 7, 1, 32, 2, 7),
        (1, 1, 1_048_577, 1, 32, 2, 1_048_577),
        (1, 1, 8, 0, 32, 3, 0),
        (1, 1, 8, 8, 32, 3, 8),
        (1, 1, 600, 17, 32, 3, 17),
        (1, 1, 8, 1, 0, 4, 0),
        (2, 8, 600, 16, 4_194_305, 4, 4_194_305),
        (1, 3, 7, 0, 0, 1, 3),
        (1, 2, 7, 9, 0, 2, 7),
    ] {
        let header = Header {
            version,
            geometry: Geometry {
                sectors,
                blocks,
                primaries,
                slots,
            },
        };
        assert_eq!(rt;
            read_header(&write_header(&header)),
            Err(HeaderFault::Field { number, found })
        );
    }
    for version in [0, 3, 7, 16_777_217] {
        let header = Header {
            version,
            geometry: SMALL,
        };
        assert_eq!(rt;
            read_header(&write_header(&header)),
            Err(HeaderFault::Version(version))
        );
    }
    let header = Header {
        version: 2,
        geometry: LARGE,
    };
    assert_eq!(rt; read_header(&write_header(&header)), Ok(header));
}

/// What the words for an image's bytes say of a worked one.
fn worked_words()
    ensures open_gate { says_open (worked 2) ≡ true }
    ensures closed_gate { says_open (worked 117) ≡ false }
    ensures count { stored_count worked worked_size 1 ≡ 50332161 }
    ensures live { (is_bit_set worked worked_size 3 ≡ true) × (is_bit_set worked worked_size 8 ≡ true) }
    ensures free { (is_bit_set worked worked_size 2 ≡ false) × (is_bit_set worked worked_size 4 ≡ false) }
    ensures empty_slot { source_field worked worked_size 0 ≡ 0 }
    ensures slot { (source_field worked worked_size 1 ≡ 4) × (target_field worked worked_size 1 ≡ 8) }
    ensures caps { (kept_for_reading 1 worked 0 ≡ replicate 16 161)
        × (kept_for_writing 1 worked 0 ≡ replicate 16 178) }
    ensures next_caps { kept_for_reading 1 worked 1 ≡ replicate 16 195 }
    ensures digests { (kept_for_reading 2 worked 8 ≡ replicate 32 212)
        × (kept_for_writing 2 worked 8 ≡ replicate 32 229) }
    ensures bytes { data_bytes worked worked_size 1 ≡ 17 ∷ 18 ∷ 19 ∷ [] }
{}
