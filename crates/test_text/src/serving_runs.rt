//! Runs over lines and over frames, and each status.

use crate::Steady;
use image_device::{MemSource, MemStation};
use request_frames::FrameCutter;
use script_text::LineCutter;
use serving::serve;
use std::alloc::{AllocError, Global};
use std::test::Fail;
use tsd_words::Status;

/// No call fails.
const NEVER: u64 = u64::MAX;

/// Three lines; the last has no line feed.
const LINES: &[u8] = b"free\nwhat\nfree";

/// Two requests for the number of free blocks, each a code.
const FRAMES: &[u8] = b"\x01\x00\x07\x01\x00\x07";

/// What is done to a run, and how it ends.
#[derive(Clone, Copy)]
struct Case {
    limit: u64,
    call: u64,
    take: u64,
    status: Status,
    sent: &'static [u8],
}

/// Each request costs three calls: the sync that carries it out, the put of its reply, and the sync that settles. The
/// end costs one. Three bytes come at a time: takes 0 to 4 give them, take 5 finds the end, and none follows.
const LINE_CASES: [Case; 10] = [
    Case {
        limit: 14,
        call: NEVER,
        take: NEVER,
        status: Status::Done,
        sent: b"ok\nok\nok\n",
    },
    Case {
        limit: 13,
        call: NEVER,
        take: NEVER,
        status: Status::TooLong,
        sent: b"ok\nok\n",
    },
    Case {
        limit: 4,
        call: NEVER,
        take: NEVER,
        status: Status::TooLong,
        sent: b"",
    },
    Case {
        limit: 14,
        call: 0,
        take: NEVER,
        status: Status::DeviceFault,
        sent: b"",
    },
    Case {
        limit: 14,
        call: 1,
        take: NEVER,
        status: Status::PutFault,
        sent: b"",
    },
    Case {
        limit: 14,
        call: 2,
        take: NEVER,
        status: Status::DeviceFault,
        sent: b"ok\n",
    },
    Case {
        limit: 14,
        call: 9,
        take: NEVER,
        status: Status::DeviceFault,
        sent: b"ok\nok\nok\n",
    },
    Case {
        limit: 14,
        call: NEVER,
        take: 0,
        status: Status::SourceFault,
        sent: b"",
    },
    Case {
        limit: 14,
        call: NEVER,
        take: 4,
        status: Status::SourceFault,
        sent: b"ok\nok\n",
    },
    Case {
        limit: 14,
        call: NEVER,
        take: 6,
        status: Status::Done,
        sent: b"ok\nok\nok\n",
    },
];

/// One number, where it is one.
fn numbers(alloc: Global, number: u64) -> Result<Vec<u64>, AllocError> {
    let mut numbers = Vec::new(alloc);
    if number != NEVER {
        numbers.push(number)?;
    }
    Ok(numbers)
}

#[test]
fn lines_are_served(rt: HostRuntime) -> Result<(), Fail> {
    let alloc = rt.alloc();
    for case in LINE_CASES {
        let mut bytes = Vec::new(alloc);
        bytes.extend_from_slice(LINES)?;
        let mut source = MemSource::new(bytes, 3, numbers(alloc, case.take)?);
        let mut port = MemStation::new(alloc, numbers(alloc, case.call)?);
        let mut cutter = LineCutter::new();
        let status = serve(&mut Steady, &mut cutter, &mut source, &mut port, case.limit);
        assert_eq!(rt; status, case.status);
        assert_eq!(rt; port.sent(), case.sent);
    }
    Ok(())
}

#[test]
fn it_settles_after_each_reply_and_closes_once(rt: HostRuntime) -> Result<(), Fail> {
    let alloc = rt.alloc();
    let mut bytes = Vec::new(alloc);
    bytes.extend_from_slice(LINES)?;
    let mut source = MemSource::new(bytes, 512, Vec::new(alloc));
    let mut port = MemStation::new(alloc, Vec::new(alloc));
    let mut cutter = LineCutter::new();
    let status = serve(&mut Steady, &mut cutter, &mut source, &mut port, 14);
    assert_eq!(rt; status, Status::Done);
    assert_eq!(rt; port.calls(), 10);
    Ok(())
}

#[test]
fn frames_are_served(rt: HostRuntime) -> Result<(), Fail> {
    let alloc = rt.alloc();
    for (len, want) in [
        (6, Status::Done),
        (5, Status::Truncated),
        (4, Status::Truncated),
    ] {
        let mut bytes = Vec::new(alloc);
        bytes.extend_from_slice(&FRAMES[..len])?;
        let mut source = MemSource::new(bytes, 1, Vec::new(alloc));
        let mut port = MemStation::new(alloc, Vec::new(alloc));
        let mut cutter = FrameCutter::new(alloc)?;
        let status = serve(&mut Steady, &mut cutter, &mut source, &mut port, 100);
        assert_eq!(rt; status, want);
        let sent: &[u8] = if want == Status::Done {
            b"\x01\x00\x01\x01\x00\x01"
        } else {
            b"\x01\x00\x01"
        };
        assert_eq!(rt; port.sent(), sent);
    }
    Ok(())
}
