// The images that a stop leaves.
use image_device::{Device, Failed, FuseStation, MemStation, Pick, Port};
use std::alloc::Global;
use std::test::Fail;

/// Sector 5 is written, synced and written again, sector 6 is written, sector 7 is poked.
fn half_written(alloc: Global) -> Result<MemStation, Failed> {
    let mut station = MemStation::new(alloc, Vec::new(alloc));
    station.write(5, &[1; 512])?;
    station.sync()?;
    station.write(5, &[2; 512])?;
    station.write(6, &[3; 512])?;
    station.poke(7, &[4; 512])?;
    Ok(station)
}

/// The first byte of a sector.
fn first_byte<D: Device>(dev: &mut D, sector: u32) -> Result<u8, Failed> {
    let mut bytes = [0; 512];
    dev.read(sector, &mut bytes)?;
    Ok(bytes[0])
}

#[test]
fn each_pick_leaves_its_bytes(rt: HostRuntime) -> Result<(), Fail> {
    for (pick, wanted) in [
        (Pick::Old, (1, 0, 4)),
        (Pick::New, (2, 3, 4)),
        (Pick::Torn(9), (9, 9, 4)),
    ] {
        let fuse = FuseStation::new(half_written(rt.alloc())?, 0, pick);
        let mut image = fuse.into_image();
        let left = (
            first_byte(&mut image, 5)?,
            first_byte(&mut image, 6)?,
            first_byte(&mut image, 7)?,
        );
        assert_eq!(rt; left, wanted);
        assert_eq!(rt;
            (image.calls(), image.write_calls(), image.sent().len()),
            (3, 0, 0)
        );

        // An image is firm: what it began as is what a next stop leaves.
        let mut again = FuseStation::new(image, 0, Pick::Torn(8)).into_image();
        let left = (
            first_byte(&mut again, 5)?,
            first_byte(&mut again, 6)?,
            first_byte(&mut again, 7)?,
        );
        assert_eq!(rt; left, wanted);
    }
    Ok(())
}

#[test]
fn a_failed_sync_leaves_sectors_loose(rt: HostRuntime) -> Result<(), Fail> {
    let alloc = rt.alloc();
    for (fail, wanted) in [(1, 9), (2, 1)] {
        let mut station = MemStation::new(alloc, [fail].to_vec(alloc)?);
        station.write(0, &[1; 512])?;
        let _ = station.sync();
        assert_eq!(rt;
            first_byte(
                &mut FuseStation::new(station, 0, Pick::Torn(9)).into_image(),
                0
            )?,
            wanted
        );
    }
    Ok(())
}

#[test]
fn a_fuse_stops_after_its_calls(rt: HostRuntime) -> Result<(), Fail> {
    let alloc = rt.alloc();
    for passes in 0..5 {
        let mut fuse = FuseStation::new(MemStation::new(alloc, Vec::new(alloc)), passes, Pick::Old);
        assert_eq!(rt; fuse.write(1, &[1; 512]).is_ok(), passes > 0);
        assert_eq!(rt; fuse.sync().is_ok(), passes > 1);
        assert_eq!(rt; fuse.put(b"ab").is_ok(), passes > 2);
        assert_eq!(rt; first_byte(&mut fuse, 1).is_ok(), passes > 3);
        assert_eq!(rt; fuse.sync().is_ok(), false);
        assert_eq!(rt; fuse.sent().len(), if passes > 2 { 2 } else { 0 });
        assert_eq!(rt;
            first_byte(&mut fuse.into_image(), 1)?,
            if passes > 1 { 1 } else { 0 }
        );
    }
    Ok(())
}
