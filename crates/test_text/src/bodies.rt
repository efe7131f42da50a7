//! Bodies: that the spellings of requests and replies are the ones that we mean, by examples.

use request_frames::{
    FrameBuf, ShortFrame, decode_body, decode_reply, encode_reply, encode_request, put_short_frame,
};
use std::process::Abort;
use tsd_model::{BlockList, Cap, CapPair, Data, Hint, Level, Reply, Request, Rule, Shown};

/// The capability of 16 bytes 0xbb.
const W: Cap = Cap { bytes: [0xbb; 16] };

/// The capability of 16 bytes 0x0c.
const C: Cap = Cap { bytes: [0x0c; 16] };

/// Bytes as a list.
fn data(bytes: &[u8]) -> Data {
    let mut all = Data::new();
    let _fit = all.extend_from_slice(bytes);
    all
}

/// Blocks as a list.
fn blocks(numbers: &[u32]) -> BlockList {
    let mut all = BlockList::new();
    let _fit = all.extend_from_slice(numbers);
    all
}

/// The request that a body spells, put where another one stood.
fn decoded(body: &[u8]) -> Request {
    let mut request = Request::End { session: 7 };
    decode_body(body, &mut request);
    request
}

/// Asserts that a request's frame is this length and body, and that the body reads as the request.
fn is_request(rt: &impl Abort, length: &[u8], body: &[u8], request: &Request) {
    let mut frame = FrameBuf::new();
    assert!(rt; *request != Request::Bad);
    encode_request(request, &mut frame);
    assert!(rt; frame.as_slice().starts_with(length));
    assert_eq!(rt; frame.as_slice().get(2..), Some(body));
    assert_eq!(rt; decoded(body), *request);
}

/// Asserts the same of a request whose body has no byte to spare, and that a byte less and a byte more make it none.
fn is_exactly(rt: &impl Abort, length: u8, body: &[u8], request: &Request) {
    is_request(rt, [length, 0].as_slice(), body, request);
    assert!(rt; 0 < body.len() && body.len() < 64);
    let mut longer = [0; 64];
    longer[..body.len()].copy_from_slice(body);
    assert_eq!(rt; decoded(&longer[..body.len() - 1]), Request::Bad);
    assert_eq!(rt; decoded(&longer[..body.len() + 1]), Request::Bad);
}

/// The requests of the worked example and a body of each other code.
#[test]
fn requests_and_their_bodies(rt: HostRuntime) {
    let w = Shown::Key(W);
    let none = Shown::Nothing;
    let table: [(u8, &[u8], Request); 12] = [
        (5, b"\x01\x01\0\0\0", Request::Begin { session: 1 }),
        (5, b"\x02\x40\0\0\0", Request::End { session: 64 }),
        (
            10,
            b"\x03\x01\0\0\0\xff\xff\xff\xff\0",
            Request::Read {
                session: 1,
                block: 4294967295,
                shown: none,
            },
        ),
        (
            31,
            b"\x05\x01\0\0\0\0\0\0\0\x01\xbb\xbb\xbb\xbb\xbb\xbb\xbb\xbb\xbb\xbb\xbb\xbb\xbb\xbb\xbb\xbb\0\x03\0\0\0",
            Request::Alloc {
                session: 1,
                source: 0,
                shown: w,
                hint: Hint::Null,
                count: 3,
            },
        ),
        (
            19,
            b"\x06\x02\0\0\0\x0a\0\0\0\0\x01\x05\x01\0\0\x20\0\0\0",
            Request::Contig {
                session: 2,
                source: 10,
                shown: none,
                hint: Hint::At(261),
                count: 32,
            },
        ),
        (1, b"\x07", Request::GetFree),
        (
            14,
            b"\x08\x01\0\0\0\x02\0\0\0\0\x03\0\0\0",
            Request::Create {
                session: 1,
                source: 2,
                shown: none,
                target: 3,
            },
        ),
        (
            14,
            b"\x09\x01\0\0\0\x02\0\0\0\0\x03\0\0\0",
            Request::Delete {
                session: 1,
                source: 2,
                shown: none,
                target: 3,
            },
        ),
        (
            42,
            b"\x0a\x01\0\0\0\0\0\0\0\0\
                \xbb\xbb\xbb\xbb\xbb\xbb\xbb\xbb\xbb\xbb\xbb\xbb\xbb\xbb\xbb\xbb\
                \x0c\x0c\x0c\x0c\x0c\x0c\x0c\x0c\x0c\x0c\x0c\x0c\x0c\x0c\x0c\x0c",
            Request::SetCap {
                session: 1,
                block: 0,
                shown: none,
                caps: CapPair { read: W, write: C },
            },
        ),
        (
            22,
            b"\x0b\x01\0\0\0\x01\xbb\xbb\xbb\xbb\xbb\xbb\xbb\xbb\xbb\xbb\xbb\xbb\xbb\xbb\xbb\xbb",
            Request::Sweep {
                session: 1,
                shown: w,
            },
        ),
        (
            6,
            b"\x0b\x01\0\0\0\0",
            Request::Sweep {
                session: 1,
                shown: none,
            },
        ),
        (
            14,
            b"\x0c\x01\0\0\0\0\0\0\0\0\x07\0\0\0",
            Request::List {
                session: 1,
                source: 0,
                shown: none,
                start: 7,
            },
        ),
    ];
    for (length, body, request) in table.iter() {
        is_exactly(&rt, *length, body, request);
    }
}

/// A write takes all bytes that are left, as many as a block has.
#[test]
fn writes_and_their_bodies(rt: HostRuntime) {
    let none = Shown::Nothing;
    let table: [(&[u8], &[u8], &[u8]); 2] = [
        (b"\x0a\0", b"\x04\x01\0\0\0\x02\0\0\0\0", b""),
        (b"\x0d\0", b"\x04\x01\0\0\0\x02\0\0\0\0hi\0", b"hi\0"),
    ];
    for (length, body, bytes) in table.iter() {
        let request = Request::Write {
            session: 1,
            block: 2,
            shown: none,
            bytes: data(bytes),
        };
        is_request(&rt, length, body, &request);
    }
    assert_eq!(rt; decoded(b"\x04\x01\0\0\0\x02\0\0\0"), Request::Bad);
    let mut longest = [4; 4107];
    longest[9] = 0;
    let request = Request::Write {
        session: 67372036,
        block: 67372036,
        shown: none,
        bytes: data([4; 4096].as_slice()),
    };
    is_request(&rt, b"\x0a\x10", &longest[..4106], &request);
    assert_eq!(rt; decoded(longest.as_slice()), Request::Bad);
}

/// Asserts that a body reads as a reply, and that the reply's frame is its length and the body.
fn is_reply(rt: &impl Abort, length: u8, body: &[u8], reply: &Reply) {
    match decode_reply(body) {
        Some(read) => {
            assert_eq!(rt; read, *reply);
            let mut frame = FrameBuf::new();
            encode_reply(&read, &mut frame);
            assert_eq!(rt; frame.as_slice().get(..2), Some([length, 0].as_slice()));
            assert_eq!(rt; frame.as_slice().get(2..), Some(body));
        }
        None => assert!(rt; false, "{body:?}"),
    }
}

/// The bytes of a block have a short frame where they are at most 1,024, and it is their frame.
#[test]
fn short_frames_end_at_1024_bytes(rt: HostRuntime) {
    match decode_reply([2; 1025].as_slice()) {
        Some(most) => {
            let mut frame = FrameBuf::new();
            encode_reply(&most, &mut frame);
            let mut short = ShortFrame::new();
            assert!(rt; put_short_frame(&most, &mut short));
            assert_eq!(rt; short.as_slice(), frame.as_slice());
        }
        None => assert!(rt; false, "1,024 bytes are a reply"),
    }
    let more = Reply::Bytes(data([7; 1025].as_slice()));
    assert!(rt; !put_short_frame(&more, &mut ShortFrame::new()));
}

/// The replies of the worked example and each other one that isn't a refusal.
#[test]
fn replies_and_their_bodies(rt: HostRuntime) {
    let table: [(u8, &[u8], Reply); 7] = [
        (1, b"\x01", Reply::Done),
        (
            13,
            b"\x03\x01\0\0\0\x02\0\0\0\x03\0\0\0",
            Reply::Blocks(blocks(&[1, 2, 3])),
        ),
        (5, b"\x04\x04\0\0\0", Reply::Free(4)),
        (5, b"\x05\xff\xff\xff\xff", Reply::Gone(4294967295)),
        (1, b"\x06", Reply::Targets(blocks(&[]))),
        (
            9,
            b"\x06\x0a\0\0\0\0\x01\0\0",
            Reply::Targets(blocks(&[10, 256])),
        ),
        (1, b"\x07", Reply::NoMemory),
    ];
    for (length, body, reply) in table.iter() {
        is_reply(&rt, *length, body, reply);
    }
}

/// Each refusal.
#[test]
fn refusals_and_their_bodies(rt: HostRuntime) {
    let table: [(u8, &[u8], Rule); 17] = [
        (2, b"\x08\x00", Rule::BadRequest),
        (2, b"\x08\x01", Rule::BadSession),
        (2, b"\x08\x02", Rule::NotOpen),
        (2, b"\x08\x03", Rule::AlreadyOpen),
        (2, b"\x08\x04", Rule::BadCount),
        (2, b"\x08\x05", Rule::BadSize),
        (2, b"\x08\x06", Rule::NoSuchBlock),
        (2, b"\x08\x07", Rule::FreeBlock),
        (2, b"\x08\x08", Rule::NotPrimary),
        (2, b"\x08\x09", Rule::IsPrimary),
        (
            4,
            b"\x08\x0a\x00\x01",
            Rule::Denied {
                attained: Level::Bare,
                needed: Level::Read,
            },
        ),
        (
            4,
            b"\x08\x0a\x01\x02",
            Rule::Denied {
                attained: Level::Read,
                needed: Level::Write,
            },
        ),
        (2, b"\x08\x0b", Rule::PointerExists),
        (2, b"\x08\x0c", Rule::NoPointer),
        (
            10,
            b"\x08\x0d\x04\0\0\0\x05\0\0\0",
            Rule::Full { free: 4, wanted: 5 },
        ),
        (
            10,
            b"\x08\x0e\x03\0\0\0\x02\0\0\0",
            Rule::NoRun { free: 3, wanted: 2 },
        ),
        (
            10,
            b"\x08\x0f\x07\0\0\0\x08\0\0\0",
            Rule::PointersFull { held: 7, max: 8 },
        ),
    ];
    for (length, body, rule) in table.iter() {
        is_reply(&rt, *length, body, &Reply::Refused(*rule));
    }
}

/// Bodies that are no reply's.
#[test]
fn malformed_replies(rt: HostRuntime) {
    let table: [&[u8]; 14] = [
        b"",
        b"\0",
        b"\x09",
        b"\x01\0",
        b"\x02",
        b"\x03",
        b"\x04\x04\0\0",
        b"\x04\x04\0\0\0\0",
        b"\x06\x0a\0\0",
        b"\x08",
        b"\x08\x10",
        b"\x08\0\0",
        b"\x08\x0a\0\x03",
        b"\x08\x0d\x04\0\0\0\x05\0\0",
    ];
    for body in table {
        assert_eq!(rt; decode_reply(body), None, "{body:?}");
    }
}

/// Whether a code that is repeated to a length is a reply's body.
#[test]
fn lengths_of_replies(rt: HostRuntime) {
    let table = [
        (2, 512, false),
        (2, 513, true),
        (2, 514, false),
        (2, 1025, true),
        (2, 2049, true),
        (2, 4097, true),
        (2, 4098, false),
        (3, 5, true),
        (3, 129, true),
        (3, 133, false),
        (6, 257, true),
        (6, 261, false),
    ];
    for (code, length, is_body) in table {
        let body = [code; 4098];
        let read = match body.get(..length) {
            Some(bytes) => decode_reply(bytes),
            None => None,
        };
        assert_eq!(rt; read.is_some(), is_body, "{code} {length}");
    }
}
