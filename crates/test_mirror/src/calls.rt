// Calls of two stations in memory and what they leave.
use image_device::{Device, Failed, MemStation, Pick};
use mirror_device::{MemSides, Side, SideCounts, Sides};
use std::alloc::Global;
use std::test::Fail;

/// One call, by its side, its sector and the byte that its sector is full of.
#[derive(Clone, Copy)]
enum Call {
    Read(Side, u32, u8),
    Write(Side, u32, u8),
    Sync(Side),
    /// The end is at least this.
    End(Side, u64),
    Put(u8),
    Poke(Side, u32, u8),
}

use Side::{First, Second};

/// Makes a call, and gives whether it answered Ok, with what is wanted of its answer.
fn answers(sides: &mut MemSides, call: Call) -> bool {
    match call {
        Call::Read(side, sector, byte) => {
            let mut bytes = [255; 512];
            sides.read(side, sector, &mut bytes).is_ok() && bytes == [byte; 512]
        }
        Call::Write(side, sector, byte) => sides.write(side, sector, &[byte; 512]).is_ok(),
        Call::Sync(side) => sides.sync(side).is_ok(),
        Call::End(side, least) => match sides.end(side) {
            Ok(end) => least <= end,
            Err(_) => false,
        },
        Call::Put(byte) => sides.put(&[byte]) == Ok(1),
        Call::Poke(side, sector, byte) => sides.poke(side, sector, &[byte; 512]).is_ok(),
    }
}

fn seen(faults: u64, syncs: u64) -> SideCounts {
    SideCounts { faults, syncs }
}

#[test]
fn two_sides_are_numbered_together_and_kept_apart(rt: HostRuntime) -> Result<(), Fail> {
    let alloc = rt.alloc();
    let mut sides = MemSides::new(alloc, Vec::new(alloc));
    for (call, number) in [
        (Call::Read(First, 0, 0), 0),
        (Call::Write(First, 7, 1), 1),
        (Call::Write(Second, 7, 2), 2),
        (Call::Read(First, 7, 1), 3),
        (Call::Read(Second, 7, 2), 4),
        (Call::Sync(Second), 5),
        (Call::Put(65), 6),
        (Call::End(First, 8), 7),
        (Call::Poke(Second, 9, 3), 8),
        (Call::Read(First, 9, 0), 8),
        (Call::Read(Second, 9, 3), 9),
        (Call::End(Second, 10), 10),
        (Call::Write(First, 4_294_967_295, 5), 11),
        (Call::End(First, 4_294_967_296), 12),
        (Call::Read(First, 4_294_967_295, 5), 13),
        (Call::Put(66), 14),
    ] {
        assert_eq!(rt; sides.calls(), number);
        assert!(rt; answers(&mut sides, call), "at {number}");
    }
    assert_eq!(rt; sides.sent(), b"AB".as_slice());
    assert_eq!(rt; (sides.calls(), sides.short()), (15, 0));
    assert_eq!(rt;
        (sides.seen(First), sides.seen(Second)),
        (seen(0, 0), seen(0, 1))
    );
    Ok(())
}

#[test]
fn calls_fail_by_their_number(rt: HostRuntime) -> Result<(), Fail> {
    let alloc = rt.alloc();
    let mut sides = MemSides::new(alloc, [1, 2, 4, 6, 7].to_vec(alloc)?);
    for (call, is_ok) in [
        (Call::Write(First, 1, 9), true),
        (Call::Write(First, 1, 8), false),
        (Call::Write(Second, 1, 7), false),
        (Call::Read(First, 1, 9), true),
        (Call::Put(65), false),
        (Call::Put(66), true),
        (Call::Sync(First), false),
        (Call::End(First, 0), false),
        (Call::Sync(First), true),
        (Call::Read(Second, 1, 0), true),
    ] {
        let number = sides.calls();
        assert_eq!(rt; answers(&mut sides, call), is_ok, "at {number}");
    }
    assert_eq!(rt; sides.sent(), b"B".as_slice());
    assert_eq!(rt; (sides.calls(), sides.short()), (10, 0));
    assert_eq!(rt;
        (sides.seen(First), sides.seen(Second)),
        (seen(3, 1), seen(1, 0))
    );
    Ok(())
}

/// On the first side sector 5 is written, synced and written again, and sector 6 is written; on the second side sector
/// 5 is written.
fn half_written(alloc: Global) -> Result<MemSides, Failed> {
    let mut sides = MemSides::new(alloc, Vec::new(alloc));
    sides.write(First, 5, &[1; 512])?;
    sides.write(Second, 5, &[4; 512])?;
    sides.sync(First)?;
    sides.write(First, 5, &[2; 512])?;
    sides.write(First, 6, &[3; 512])?;
    Ok(sides)
}

/// The first bytes of the sectors 5 and 6.
fn two_bytes(station: &mut MemStation) -> Result<(u8, u8), Failed> {
    let mut bytes = [0; 512];
    station.read(5, &mut bytes)?;
    let five = bytes[0];
    station.read(6, &mut bytes)?;
    Ok((five, bytes[0]))
}

#[test]
fn each_pick_leaves_its_bytes_on_its_side(rt: HostRuntime) -> Result<(), Fail> {
    for (side, pick, wanted) in [
        (First, Pick::Old, (1, 0)),
        (First, Pick::New, (2, 3)),
        (First, Pick::Torn(9), (9, 9)),
        (Second, Pick::Old, (0, 0)),
        (Second, Pick::New, (4, 0)),
        (Second, Pick::Torn(9), (9, 0)),
    ] {
        let mut image = half_written(rt.alloc())?.into_side(side, pick);
        assert_eq!(rt; two_bytes(&mut image)?, wanted);
    }
    Ok(())
}

// With ample memory nothing is short. Under `--fail-alloc` one call is, and leaves all as it was but the counts.
#[test]
fn want_of_memory_is_counted(rt: HostRuntime) -> Result<(), Fail> {
    let alloc = rt.alloc();
    let mut sides = MemSides::new(alloc, Vec::new(alloc));
    for call in [
        Call::Write(First, 1, 1),
        Call::Sync(First),
        Call::Put(65),
        Call::Poke(Second, 2, 2),
    ] {
        let short = sides.short();
        let sent = sides.sent().len();
        if !answers(&mut sides, call) {
            assert!(rt; sides.short() > short);
            assert_eq!(rt; sides.sent().len(), sent);
            assert!(rt; answers(&mut sides, Call::Read(Second, 2, 0)));
        }
    }
    Ok(())
}
