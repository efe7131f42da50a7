// A program that knows only a port, over a mirror that is stopped at every call.
use crate::saving::save_both;
use image_device::{Device, Failed, Pick};
use mirror_device::{MemSides, Side, Sides};
use std::alloc::Global;
use std::test::Fail;

/// Two sides that differ and whose calls all fail from a number on, after the program has run over a mirror of them.
fn stopped(alloc: Global, number: u32) -> Result<MemSides, Fail> {
    let mut fail = Vec::new(alloc);
    for more in 0..40 {
        fail.push(u64::from(number) + more)?;
    }
    let mut sides = MemSides::new(alloc, fail);
    sides.poke(Side::First, 3, &[7; 512])?;
    sides.poke(Side::Second, 4, &[9; 512])?;
    let _ = save_both(&mut sides, 5, &[1; 512]);
    Ok(sides)
}

/// The first bytes of the sectors 3, 4 and 5 of a side after a crash.
fn left_on(sides: MemSides, side: Side, pick: Pick) -> Result<(u8, u8, u8), Failed> {
    let mut image = sides.into_side(side, pick);
    let mut bytes = [0; 512];
    image.read(3, &mut bytes)?;
    let three = bytes[0];
    image.read(4, &mut bytes)?;
    let four = bytes[0];
    image.read(5, &mut bytes)?;
    Ok((three, four, bytes[0]))
}

// The mirror begins with 16 calls; the program writes twice, syncs twice and puts. A failed call changes no side, so
// each side holds what a stop just before it left. The second one counts once it was synced.
#[test]
fn a_stop_at_each_call_leaves_what_was_promised(rt: HostRuntime) -> Result<(), Fail> {
    let alloc = rt.alloc();
    for number in 0..22 {
        for pick in [Pick::Old, Pick::New, Pick::Torn(9)] {
            for side in [Side::First, Side::Second] {
                let sides = stopped(alloc, number)?;
                let said = sides.sent() == b"ok\n".as_slice();
                assert_eq!(rt; said, number >= 21, "at {number}");
                if side == Side::Second && sides.seen(Side::Second).syncs == 0 {
                    assert!(rt; number < 16, "at {number}");
                    continue;
                }
                let (three, four, five) = left_on(sides, side, pick)?;
                assert_eq!(rt; (three, four), (7, 0), "at {number}");
                assert!(rt;
                    if said {
                        five == 1
                    } else {
                        matches!(five, 0 | 1 | 9)
                    },
                    "at {number}"
                );
            }
        }
    }
    Ok(())
}
