//! The requests of seeds, against those that another program computed.

ghost use Rattle.tsd_model.specs.Geometry.{IsLawful};

use crate::drawn_lines::{COUNTING, MIXED, ONES, ZERO};
use load_gen::{DRAWS_MAX, LoadGen};
use script_text::{OutBuf, print_request};
use std::process::Abort;
use tsd_model::geometry::{MAX_BLOCKS, MAX_SLOTS};
use tsd_model::{Geometry, Request, lawful};

/// A seed with nothing regular in it.
const MIXED_SEED: [u8; 32] = [
    0xb4, 0xd5, 0xd5, 0x17, 0x67, 0xbb, 0x21, 0x1d, 0xec, 0xa5, 0xb1, 0x05, 0x77, 0x23, 0xca, 0xde,
    0xd0, 0x40, 0x81, 0x63, 0x8d, 0x68, 0x36, 0x83, 0x32, 0xfe, 0xa6, 0x96, 0xfe, 0x2d, 0x04, 0x19,
];

/// A size with so many blocks and primary blocks.
fn size(rt: &impl Abort, blocks: u32, primaries: u32, slots: u32) -> Geometry
    ensures { IsLawful result }
{
    let geometry = Geometry {
        sectors: 1,
        blocks,
        primaries,
        slots,
    };
    assert!(rt; lawful(&geometry));
    geometry
}

/// The next request, where there is one more.
fn draw(rt: &impl Abort, load: &mut LoadGen) -> Request {
    assert!(rt; load.drawn() < DRAWS_MAX);
    load.next_request()
}

/// Asserts that the bytes are this text and a line feed.
fn is_line(rt: &impl Abort, line: &OutBuf, text: &str) {
    assert_eq!(rt;
        line.as_slice().split_last(),
        Some((&b'\n', text.as_bytes())),
        "{text}"
    );
}

/// Asserts that the next request is this line.
fn draws_line(rt: &impl Abort, load: &mut LoadGen, text: &str) {
    let request = draw(rt, load);
    let mut line = OutBuf::new();
    assert!(rt; request != Request::Bad);
    print_request(&request, &mut line);
    is_line(rt, &line, text);
}

/// Asserts that the first requests of a seed are these lines.
fn draws(rt: &impl Abort, seed: &[u8; 32], geometry: &Geometry, lines: &[&str])
    requires { IsLawful geometry.now }
{
    let mut load = LoadGen::new(seed, geometry);
    for text in lines.iter() {
        draws_line(rt, &mut load, text);
    }
}

/// Requests of each kind are among them.
#[test]
fn the_seed_of_zeros(rt: HostRuntime) {
    draws(&rt, &[0; 32], &size(&rt, 8, 1, 256), &ZERO);
}

#[test]
fn a_seed_that_counts(rt: HostRuntime) {
    let seed = [
        0, 1, 2, 3, 4, 5, 6, 7, 8, 9, 10, 11, 12, 13, 14, 15, 16, 17, 18, 19, 20, 21, 22, 23, 24,
        25, 26, 27, 28, 29, 30, 31,
    ];
    draws(&rt, &seed, &size(&rt, 64, 2, 256), &COUNTING);
}

#[test]
fn sixteen_primary_blocks(rt: HostRuntime) {
    draws(&rt, &[255; 32], &size(&rt, 4096, 16, 256), &ONES);
}

#[test]
fn the_largest_disk(rt: HostRuntime) {
    let geometry = size(&rt, MAX_BLOCKS, 3, MAX_SLOTS);
    draws(&rt, &MIXED_SEED, &geometry, &MIXED);
}

/// How many forms of request a load has, the first one included.
const FORMS: usize = 9;

/// Which form a request has.
fn form_of(rt: &impl Abort, request: &Request) -> usize {
    match request {
        Request::Begin { .. } => 0,
        Request::Read { .. } => 1,
        Request::Write { .. } => 2,
        Request::Alloc { .. } => 3,
        Request::Contig { .. } => 4,
        Request::Create { .. } => 5,
        Request::Delete { .. } => 6,
        Request::GetFree => 7,
        Request::List { .. } => 8,
        _ => panic!(rt; "a load has no such request"),
    }
}

/// All that a generator draws: each form occurs, the first one once, and late requests name blocks that early ones
/// cannot.
#[test]
fn the_longest_load(rt: HostRuntime) {
    let mut load = LoadGen::new(&MIXED_SEED, &size(&rt, MAX_BLOCKS, 3, MAX_SLOTS));
    let mut counts = [0_u32; FORMS];
    let mut highest = 0;
    for _ in 0..DRAWS_MAX {
        let request = draw(&rt, &mut load);
        let form = form_of(&rt, &request);
        assert!(rt; form < FORMS);
        counts[form] = counts[form].wrapping_add(1);
        if let Request::Read { block, .. } = request {
            highest = highest.max(block);
        }
    }
    assert_eq!(rt; load.drawn(), DRAWS_MAX);
    assert_eq!(rt; counts[0], 1);
    assert!(rt; counts.iter().all(|count| *count > 0));
    assert!(rt; highest > 40_000 && highest <= 50_000, "{highest}");
}
