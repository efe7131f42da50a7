//! A disk that is upgraded, by the plain program. The digests were computed elsewhere.

use crate::plain_runs::{
    NEW_READ, NEW_WRITE, READ, WRITE, alloc, data, denied, eight, key, open, pair, read, run,
    set_cap, write,
};
use plain_disk::World;
use std::test::Fail;
use tsd_model::{KeptCap, Level, PlaceKind, Record, Reply};

/// The SHA-256 digest of 16 times 0xaa.
const READ_DIGEST: [u8; 32] = [
    0xbc, 0x14, 0x43, 0xa0, 0xd1, 0x7a, 0xab, 0x2d, 0xb1, 0xea, 0x03, 0x02, 0xef, 0x28, 0x07, 0x17,
    0xac, 0x9a, 0x2f, 0x23, 0x35, 0x5c, 0x5b, 0x64, 0x9e, 0xa8, 0x7d, 0x60, 0x54, 0x30, 0x45, 0x8d,
];

/// The SHA-256 digest of 16 times 0xbb.
const WRITE_DIGEST: [u8; 32] = [
    0x50, 0x96, 0xf0, 0x43, 0xe0, 0xa4, 0x47, 0x55, 0x7c, 0xd2, 0xca, 0x84, 0x3d, 0x65, 0x91, 0x1a,
    0xa6, 0x7d, 0xfd, 0xd6, 0x88, 0x3a, 0xb0, 0x3b, 0xdb, 0x66, 0x6c, 0x44, 0xa2, 0x75, 0x33, 0x65,
];

/// The SHA-256 digest of 16 times 0xcc.
const NEW_READ_DIGEST: [u8; 32] = [
    0xd5, 0x95, 0xa3, 0x16, 0x21, 0x41, 0xa5, 0x06, 0x92, 0x4b, 0xe6, 0x0c, 0x2c, 0x75, 0xb1, 0xcd,
    0x3c, 0x28, 0xef, 0x4d, 0x4b, 0x7f, 0x44, 0x18, 0x70, 0x56, 0x77, 0x27, 0x0e, 0x54, 0xae, 0xdf,
];

/// The SHA-256 digest of 16 times 0xdd.
const NEW_WRITE_DIGEST: [u8; 32] = [
    0x20, 0x22, 0xa1, 0x66, 0xff, 0xc3, 0x5b, 0x0c, 0xd2, 0xea, 0xd0, 0xd2, 0x88, 0xc2, 0xd9, 0x78,
    0x22, 0x94, 0x57, 0x19, 0xde, 0x7a, 0x76, 0x60, 0x88, 0x2a, 0x42, 0x71, 0xd0, 0xdd, 0x9e, 0x09,
];

fn digests(read: [u8; 32], write: [u8; 32]) -> [Record; 1] {
    [Record {
        read: KeptCap::Digested(read),
        write: KeptCap::Digested(write),
    }]
}

#[test]
fn a_disk_may_be_upgraded_twice(rt: HostRuntime) -> Result<(), Fail> {
    let first = eight(&rt, rt.alloc());
    let once = World::upgraded(rt.alloc(), &first)?;
    let twice = World::upgraded(rt.alloc(), &once)?;
    assert_eq!(rt; twice.version(), 2);
    assert_eq!(rt;
        twice.records(),
        digests(READ_DIGEST, WRITE_DIGEST).as_slice()
    );
    let hi = Reply::Bytes(data(&rt, b"hi", 512));
    let rows = [
        (open(1), Reply::Done),
        (
            write(&rt, 1, 0, key(READ), b"hi"),
            denied(Level::Read, Level::Write),
        ),
        (write(&rt, 1, 0, key(WRITE), b"hi"), Reply::Done),
        (
            set_cap(1, 0, key(WRITE), pair(NEW_READ, NEW_WRITE)),
            Reply::Done,
        ),
        (read(1, 0, key(READ)), denied(Level::Bare, Level::Read)),
        (read(1, 0, key(NEW_READ)), hi),
    ];
    let after = run(&rt, rt.alloc(), PlaceKind::Near, twice, rows.as_slice());
    assert_eq!(rt; after.version(), 2);
    assert_eq!(rt;
        after.records(),
        digests(NEW_READ_DIGEST, NEW_WRITE_DIGEST).as_slice()
    );
    Ok(())
}
