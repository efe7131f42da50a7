// Calls of a station and what they leave.
use image_device::{Device, Failed, FuseStation, MemStation, Pick, Port, put_all, write_through};
use std::test::Fail;

/// One call, by its sector and the byte that its sector is full of.
#[derive(Clone, Copy)]
enum Call {
    Read(u32, u8),
    Write(u32, u8),
    Sync,
    Put(u8),
    Poke(u32, u8),
}

/// Makes a call, and gives whether it answered Ok, with the bytes wanted where it reads.
fn answers(station: &mut MemStation, call: Call) -> bool {
    match call {
        Call::Read(sector, byte) => {
            let mut bytes = [255; 512];
            station.read(sector, &mut bytes).is_ok() && bytes == [byte; 512]
        }
        Call::Write(sector, byte) => station.write(sector, &[byte; 512]).is_ok(),
        Call::Sync => station.sync().is_ok(),
        Call::Put(byte) => station.put(&[byte]) == Ok(1),
        Call::Poke(sector, byte) => station.poke(sector, &[byte; 512]).is_ok(),
    }
}

#[test]
fn a_station_keeps_what_it_is_told(rt: HostRuntime) -> Result<(), Fail> {
    let alloc = rt.alloc();
    let mut station = MemStation::new(alloc, Vec::new(alloc));
    for (call, number) in [
        (Call::Read(0, 0), 0),
        (Call::Write(7, 1), 1),
        (Call::Read(7, 1), 2),
        (Call::Write(7, 2), 3),
        (Call::Read(7, 2), 4),
        (Call::Sync, 5),
        (Call::Put(65), 6),
        (Call::Read(6, 0), 7),
        (Call::Poke(6, 3), 8),
        (Call::Read(6, 3), 8),
        (Call::Write(8_462_725, 4), 9),
        (Call::Write(4_294_967_295, 5), 10),
        (Call::Read(8_462_725, 4), 11),
        (Call::Read(4_294_967_295, 5), 12),
        (Call::Put(66), 13),
    ] {
        assert_eq!(rt; station.calls(), number);
        assert!(rt; answers(&mut station, call), "at {number}");
    }
    assert_eq!(rt; station.sent(), b"AB".as_slice());
    assert_eq!(rt;
        (station.calls(), station.write_calls(), station.short()),
        (14, 4, 0)
    );
    Ok(())
}

#[test]
fn calls_fail_by_their_number(rt: HostRuntime) -> Result<(), Fail> {
    let alloc = rt.alloc();
    let mut station = MemStation::new(alloc, [1, 3, 5, 6].to_vec(alloc)?);
    for (call, is_ok) in [
        (Call::Write(1, 9), true),
        (Call::Write(1, 8), false),
        (Call::Read(1, 9), true),
        (Call::Put(65), false),
        (Call::Put(66), true),
        (Call::Sync, false),
        (Call::Read(1, 9), false),
        (Call::Sync, true),
    ] {
        let number = station.calls();
        assert_eq!(rt; answers(&mut station, call), is_ok, "at {number}");
    }
    assert_eq!(rt; station.sent(), b"B".as_slice());
    assert_eq!(rt;
        (station.calls(), station.write_calls(), station.short()),
        (8, 2, 0)
    );
    Ok(())
}

#[test]
fn a_failed_read_leaves_the_bytes(rt: HostRuntime) -> Result<(), Fail> {
    let alloc = rt.alloc();
    let mut station = MemStation::new(alloc, [1].to_vec(alloc)?);
    station.write(3, &[1; 512])?;
    let mut bytes = [7; 512];
    assert_eq!(rt; station.read(3, &mut bytes), Err(Failed));
    assert_eq!(rt; bytes, [7; 512]);
    station.read(3, &mut bytes)?;
    assert_eq!(rt; bytes, [1; 512]);

    // A station that stops leaves them too.
    let mut fuse = FuseStation::new(station, 0, Pick::New);
    assert_eq!(rt; fuse.read(4, &mut bytes), Err(Failed));
    assert_eq!(rt; bytes, [1; 512]);
    Ok(())
}

// With ample memory nothing is short. Under `--fail-alloc` one call is, and leaves all as it was.
#[test]
fn want_of_memory_is_counted(rt: HostRuntime) -> Result<(), Fail> {
    let alloc = rt.alloc();
    let mut station = MemStation::new(alloc, Vec::new(alloc));
    for call in [
        Call::Write(1, 1),
        Call::Sync,
        Call::Put(65),
        Call::Poke(2, 2),
    ] {
        let short = station.short();
        let sent = station.sent().len();
        if !answers(&mut station, call) {
            assert!(rt; station.short() > short);
            assert_eq!(rt; station.sent().len(), sent);
            assert!(rt; answers(&mut station, call));
        }
    }
    assert!(rt; answers(&mut station, Call::Read(1, 1)));
    assert!(rt; answers(&mut station, Call::Read(2, 2)));
    assert_eq!(rt; station.sent(), b"A".as_slice());
    Ok(())
}

#[test]
fn helpers_make_their_calls(rt: HostRuntime) -> Result<(), Fail> {
    let alloc = rt.alloc();
    let mut station = MemStation::new(alloc, Vec::new(alloc));
    write_through(&mut station, 3, &[1; 512])?;
    write_through(&mut station, 4, &[2; 512])?;
    write_through(&mut station, 5, &[3; 512])?;
    put_all(&mut station, b"")?;
    put_all(&mut station, b"done\n")?;
    assert!(rt; answers(&mut station, Call::Read(3, 1)));
    assert!(rt; answers(&mut station, Call::Read(4, 2)));
    assert!(rt; answers(&mut station, Call::Read(5, 3)));
    assert_eq!(rt; station.sent(), b"done\n".as_slice());
    assert_eq!(rt; (station.calls(), station.write_calls()), (10, 3));
    Ok(())
}

/// Writes and reads sectors in turn, many times.
fn write_many(station: &mut MemStation) -> Result<u64, Failed> {
    let mut bytes = [0; 512];
    let mut sum = 0u64;
    for turn in 0..100_000u32 {
        bytes[0] = turn.to_le_bytes()[0];
        station.write(turn % 9_973, &bytes)?;
        station.read(turn % 101, &mut bytes)?;
        sum = sum.saturating_add(bytes[0] as u64);
    }
    Ok(sum)
}

#[test]
fn a_long_run_takes_no_scan_of_its_record(rt: HostRuntime) -> Result<(), Fail> {
    let alloc = rt.alloc();
    let mut station = MemStation::new(alloc, Vec::new(alloc));
    write_many(&mut station)?;
    assert_eq!(rt;
        (station.calls(), station.write_calls()),
        (200_000, 100_000)
    );
    Ok(())
}
