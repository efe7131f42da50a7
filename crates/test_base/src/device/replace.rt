// Five calls over any device, with what a crash at any moment leaves: bytes are replaced whole or not at all.
ghost use Rattle.std.specs.Prelude.{◌≡◌, OnOk, OnErr};
ghost use Rattle.image_device.specs.Calls.{Uses};
ghost use Rattle.image_device.specs.Counts.{Rose};
ghost use Rattle.image_device.specs.Runs.{IsFirm, LeavesOnly};
ghost use Rattle.image_device.specs.Image.{zeros};
ghost use Rattle.image_device.specs.MemStation.{station_view};
ghost use Rattle.test_base.specs.TwoCopies.{current, shown, spare, ShowsEither};

use image_device::{Device, Failed, FuseStation, MemStation, Pick, write_through};
use std::alloc::Global;
use std::test::Fail;

/// The sector whose first byte says which of the sectors 1 and 2 is shown.
const SELECTOR: u32 = 0;

/// The sector that isn't shown.
fn spare_sector(selector: &[u8; 512]) -> u32
    ensures { result ≡ spare selector.now }
{
    if selector[0] == 1 { 1 } else { 2 }
}

/// Makes it show the sector that was spare.
fn turn(selector: &mut [u8; 512])
    ensures { current selector.new ≡ spare selector.old }
{
    selector[0] = if selector[0] == 1 { 0 } else { 1 };
}

/// Replaces the bytes that are shown.
fn replace<D: Device>(dev: &mut D, bytes: &[u8; 512]) -> Result<(), Failed>
    requires { D.told → IsFirm (D.view dev.old) }
    ensures done { D.told → OnOk result (shown (D.view dev.new).reads ≡ bytes.now) }
    ensures firm { D.told → OnOk result (IsFirm (D.view dev.new)) }

    // A crash at any moment leaves the old bytes or the new ones.
    ensures any_moment { D.told → LeavesOnly (D.view dev.old) (D.view dev.new)
        (λ x f. ShowsEither (shown (D.view dev.old).reads) bytes.now x × (f ≡ (D.view dev.old).sent)) }

    ensures uses { Uses 2 (D.view dev.old) (D.view dev.new) }
    ensures cause { OnErr result (Rose (D.view dev.old).faults (D.view dev.new).faults) }
{
    let mut selector = [0; 512];
    dev.read(SELECTOR, &mut selector)?;
    write_through(dev, spare_sector(&selector), bytes)?;
    turn(&mut selector);
    write_through(dev, SELECTOR, &selector)
}

/// A run that is stopped at any call and opened again shows the old bytes, which are zeros, or the new ones.
fn stopped(alloc: Global, passes: u64, pick: Pick, bytes: &[u8; 512]) -> MemStation
    ensures { ShowsEither zeros bytes.now (station_view result).reads }
{
    let mut fuse = FuseStation::new(MemStation::new(alloc, Vec::new(alloc)), passes, pick);
    let _ = replace(&mut fuse, bytes);
    fuse.into_image()
}

/// The first byte that is shown.
fn first_shown(station: &mut MemStation) -> Result<u8, Failed> {
    let mut bytes = [0; 512];
    station.read(SELECTOR, &mut bytes)?;
    let shown = 3 - spare_sector(&bytes);
    station.read(shown, &mut bytes)?;
    Ok(bytes[0])
}

#[test]
fn a_stop_at_each_call_leaves_old_or_new(rt: HostRuntime) -> Result<(), Fail> {
    for passes in 0..6 {
        for pick in [Pick::Old, Pick::New, Pick::Torn(1), Pick::Torn(0)] {
            let byte = first_shown(&mut stopped(rt.alloc(), passes, pick, &[5; 512]))?;
            assert!(rt; byte == 5 || byte == 0 && passes < 5, "at {passes}");
        }
    }
    Ok(())
}
