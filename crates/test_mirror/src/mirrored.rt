// A mirror of two sides that differ at first, with each of its calls failing in turn.
ghost use Rattle.std.specs.Prelude.{◌≡◌};
ghost use Rattle.mirror_device.specs.Mirror.{start_at};
ghost use Rattle.mirror_device.specs.MemSides.{mem_view};

use image_device::{Device, Failed, Pick, Port};
use mirror_device::{Began, MemSides, Mirror, Side};
use std::alloc::Global;
use std::marker::Brand;
use std::test::Fail;

/// What a run over a mirror gave, and what it left.
#[derive(Clone, Copy, Debug, PartialEq, Eq)]
struct Run {
    /// Whether the write, the sync and the put all answered Ok.
    done: bool,
    /// The first bytes of the sectors 3, 4 and 5, as the mirror reads them. A read that fails gives 255.
    reads: (u8, u8, u8),
    lost_first: bool,
    lost_second: bool,
}

/// The first byte of a sector, or 255 where the read fails.
fn first_byte<D: Device>(dev: &mut D, sector: u32) -> u8 {
    let mut bytes = [0; 512];
    match dev.read(sector, &mut bytes) {
        Ok(()) => bytes[0],
        Err(_) => 255,
    }
}

/// Writes and syncs a sector over a mirror, puts a byte, and reads. Where no mirror begins there is no run.
fn run_over<K: Began>(sides: MemSides) -> (Option<Run>, MemSides)
    requires { K.start ≡ start_at (mem_view sides) }
{
    let mut mirror: Mirror<MemSides, K> = match Mirror::new(sides) {
        Ok(mirror) => mirror,
        Err(sides) => return (None, sides),
    };
    let wrote = mirror.write(5, &[1; 512]).is_ok();
    let synced = mirror.sync().is_ok();
    let reads = (
        first_byte(&mut mirror, 3),
        first_byte(&mut mirror, 4),
        first_byte(&mut mirror, 5),
    );
    let put = mirror.put(b"A").is_ok();
    let run = Run {
        done: wrote && synced && put,
        reads,
        lost_first: mirror.lost(Side::First),
        lost_second: mirror.lost(Side::Second),
    };
    (Some(run), mirror.into_sides())
}

/// Two sides that differ: sector 3 on the first, and sector 4 on the second, which is the longer one.
fn differing(alloc: Global, fail: Vec<u64>) -> Result<MemSides, Failed> {
    let mut sides = MemSides::new(alloc, fail);
    sides.poke(Side::First, 3, &[7; 512])?;
    sides.poke(Side::Second, 4, &[9; 512])?;
    Ok(sides)
}

/// The run over such sides.
fn run_differing(alloc: Global, fail: Vec<u64>) -> Result<(Option<Run>, MemSides), Failed> {
    Ok(run_over::<Brand>(differing(alloc, fail)?))
}

/// What the sectors 3, 4 and 5 of a side hold after a crash.
fn left_on(sides: MemSides, side: Side, pick: Pick) -> (u8, u8, u8) {
    let mut image = sides.into_side(side, pick);
    (
        first_byte(&mut image, 3),
        first_byte(&mut image, 4),
        first_byte(&mut image, 5),
    )
}

// A mirror begins with a sync and two ends, which are calls 0 to 2, and reads five sectors of both in turn. It writes
// the two that differ, in calls 11 and 14, and ends with the sync 15. Then two writes are 16 and 17, two syncs 18 and
// 19, three reads 20 to 22, and a put 23.
#[test]
fn each_call_fails_in_turn(rt: HostRuntime) -> Result<(), Fail> {
    let alloc = rt.alloc();
    for number in 0..25 {
        let (got, _) = run_differing(alloc, [number].to_vec(alloc)?)?;
        let never_begins = matches!(number, 0 | 1 | 3 | 5 | 7 | 9 | 12);
        let wanted = Run {
            done: number != 23,
            reads: (7, 0, 1),
            lost_first: matches!(number, 16 | 18 | 20 | 21 | 22),
            lost_second: matches!(number, 2 | 4 | 6 | 8 | 10 | 11 | 13 | 14 | 15 | 17 | 19),
        };
        assert_eq!(rt;
            got,
            if never_begins { None } else { Some(wanted) },
            "at {number}"
        );
    }
    Ok(())
}

// Each side that isn't lost holds all that was written and synced, whatever a crash leaves in loose sectors.
#[test]
fn sides_that_count_hold_what_was_synced(rt: HostRuntime) -> Result<(), Fail> {
    let alloc = rt.alloc();
    for number in 14..25 {
        for pick in [Pick::Old, Pick::New, Pick::Torn(9)] {
            for side in [Side::First, Side::Second] {
                let (got, sides) = run_differing(alloc, [number].to_vec(alloc)?)?;
                let lost = match got {
                    Some(run) => match side {
                        Side::First => run.lost_first,
                        Side::Second => run.lost_second,
                    },
                    None => true,
                };
                let left = left_on(sides, side, pick);
                assert!(rt; lost || left == (7, 0, 1), "at {number}");
            }
        }
    }
    Ok(())
}

// What a side held that was lost before it was written, or before its sync.
#[test]
fn a_lost_side_holds_what_it_held(rt: HostRuntime) -> Result<(), Fail> {
    let alloc = rt.alloc();
    for (number, side, pick, wanted) in [
        (2, Side::Second, Pick::New, (0, 9, 0)),
        (11, Side::Second, Pick::New, (0, 9, 0)),
        (14, Side::Second, Pick::New, (7, 9, 0)),
        (14, Side::Second, Pick::Old, (0, 9, 0)),
        (15, Side::Second, Pick::New, (7, 0, 0)),
        (16, Side::First, Pick::New, (7, 0, 0)),
        (17, Side::Second, Pick::New, (7, 0, 0)),
        (18, Side::First, Pick::Old, (7, 0, 0)),
        (18, Side::First, Pick::Torn(9), (7, 0, 9)),
        (19, Side::Second, Pick::New, (7, 0, 1)),
    ] {
        let (_, sides) = run_differing(alloc, [number].to_vec(alloc)?)?;
        assert_eq!(rt; left_on(sides, side, pick), wanted, "at {number}");
    }
    Ok(())
}

// Where the side that is left fails too, the mirror answers Failed, and goes on trying that side alone.
#[test]
fn the_side_that_is_left_is_never_lost(rt: HostRuntime) -> Result<(), Fail> {
    let alloc = rt.alloc();
    for (fail, done, reads, lost_first) in [
        ([16, 17], false, (7, 0, 0), true),
        ([16, 18], false, (7, 0, 1), true),
        ([17, 18], false, (7, 0, 1), false),
        ([16, 19], true, (255, 0, 1), true),
        ([17, 19], true, (255, 0, 1), false),
    ] {
        let (got, _) = run_differing(alloc, fail.to_vec(alloc)?)?;
        let wanted = Run {
            done,
            reads,
            lost_first,
            lost_second: !lost_first,
        };
        assert_eq!(rt; got, Some(wanted));
    }
    Ok(())
}
