//! Lines: that the grammar and the texts are the ones that we mean, by examples.

ghost use Rattle.std.specs.Prelude.{◌<◌};

use script_text::{LineCutter, OutBuf, parse_line, print_reply, print_request};
use std::process::Abort;
use tsd_model::{BlockList, Cap, CapPair, Data, Hint, Level, Reply, Request, Rule, Shown};

/// The capability of 16 bytes 0xbb.
const W: Cap = Cap { bytes: [0xbb; 16] };

/// The capability of 16 bytes 0x0c.
const C: Cap = Cap { bytes: [0x0c; 16] };

/// Bytes as a list.
fn data(bytes: &[u8]) -> Data {
    let mut all = Data::new();
    let _fit = all.extend_from_slice(bytes);
    all
}

/// Blocks as a list.
fn blocks(numbers: &[u32]) -> BlockList {
    let mut all = BlockList::new();
    for n in numbers {
        let _fit = all.push(*n);
    }
    all
}

/// Asserts that the bytes are this text and a line feed.
fn is_line(rt: &impl Abort, line: &OutBuf, text: &str) {
    assert_eq!(rt;
        line.as_slice().split_last(),
        Some((&b'\n', text.as_bytes())),
        "{text}"
    );
}

/// The request that a line spells, put where another one stood.
fn parsed(line: &[u8]) -> Request {
    let mut request = Request::End { session: 7 };
    parse_line(line, &mut request);
    request
}

/// Asserts that a request is printed as this line, and read from it.
fn is_spelled(rt: &impl Abort, text: &str, request: &Request) {
    let mut line = OutBuf::new();
    assert!(rt; *request != Request::Bad);
    print_request(request, &mut line);
    is_line(rt, &line, text);
    assert_eq!(rt; parsed(text.as_bytes()), *request, "{text}");
}

/// Each form of request.
#[test]
fn requests_and_their_lines(rt: HostRuntime) {
    let w = Shown::Key(W);
    let none = Shown::Nothing;
    let table = [
        ("open 1", Request::Begin { session: 1 }),
        ("close 64", Request::End { session: 64 }),
        (
            "read 1 0 -",
            Request::Read {
                session: 1,
                block: 0,
                shown: none,
            },
        ),
        (
            "write 1 4294967295 bbbbbbbbbbbbbbbbbbbbbbbbbbbbbbbb 6869000a",
            Request::Write {
                session: 1,
                block: 4294967295,
                shown: w,
                bytes: data(b"hi\0\n"),
            },
        ),
        (
            "write 1 0 - -",
            Request::Write {
                session: 1,
                block: 0,
                shown: none,
                bytes: data(b""),
            },
        ),
        (
            "alloc 1 0 - - 3",
            Request::Alloc {
                session: 1,
                source: 0,
                shown: none,
                hint: Hint::Null,
                count: 3,
            },
        ),
        (
            "contig 2 10 - 5 32",
            Request::Contig {
                session: 2,
                source: 10,
                shown: none,
                hint: Hint::At(5),
                count: 32,
            },
        ),
        ("free", Request::GetFree),
        (
            "create 1 2 - 3",
            Request::Create {
                session: 1,
                source: 2,
                shown: none,
                target: 3,
            },
        ),
        (
            "delete 1 2 - 3",
            Request::Delete {
                session: 1,
                source: 2,
                shown: none,
                target: 3,
            },
        ),
        (
            "setcap 1 0 - bbbbbbbbbbbbbbbbbbbbbbbbbbbbbbbb 0c0c0c0c0c0c0c0c0c0c0c0c0c0c0c0c",
            Request::SetCap {
                session: 1,
                block: 0,
                shown: none,
                caps: CapPair { read: W, write: C },
            },
        ),
        (
            "sweep 1 bbbbbbbbbbbbbbbbbbbbbbbbbbbbbbbb",
            Request::Sweep {
                session: 1,
                shown: w,
            },
        ),
        (
            "list 1 0 - 0",
            Request::List {
                session: 1,
                source: 0,
                shown: none,
                start: 0,
            },
        ),
    ];
    for (text, request) in table.iter() {
        is_spelled(&rt, text, request);
    }
}

/// Each reply that isn't a refusal.
#[test]
fn replies_and_their_lines(rt: HostRuntime) {
    let table = [
        ("ok", Reply::Done),
        ("data 6869", Reply::Bytes(data(b"hi\0\0"))),
        ("data 00ff", Reply::Bytes(data(b"\0\xff\0"))),
        ("data -", Reply::Bytes(data(b"\0\0\0\0"))),
        ("blocks 1 2 3", Reply::Blocks(blocks(&[1, 2, 3]))),
        ("free 4", Reply::Free(4)),
        ("gone 4294967295", Reply::Gone(4294967295)),
        ("list 10 20", Reply::Targets(blocks(&[10, 20]))),
        ("list -", Reply::Targets(blocks(&[]))),
        ("no memory", Reply::NoMemory),
    ];
    for (text, reply) in table.iter() {
        let mut line = OutBuf::new();
        print_reply(reply, &mut line);
        is_line(&rt, &line, text);
    }
}

/// Each refusal.
#[test]
fn refusals_and_their_lines(rt: HostRuntime) {
    let table = [
        ("no bad-request", Rule::BadRequest),
        ("no bad-session", Rule::BadSession),
        ("no not-open", Rule::NotOpen),
        ("no already-open", Rule::AlreadyOpen),
        ("no bad-count", Rule::BadCount),
        ("no bad-size", Rule::BadSize),
        ("no no-such-block", Rule::NoSuchBlock),
        ("no free-block", Rule::FreeBlock),
        ("no not-primary", Rule::NotPrimary),
        ("no is-primary", Rule::IsPrimary),
        (
            "no denied none read",
            Rule::Denied {
                attained: Level::Bare,
                needed: Level::Read,
            },
        ),
        (
            "no denied read write",
            Rule::Denied {
                attained: Level::Read,
                needed: Level::Write,
            },
        ),
        ("no pointer-exists", Rule::PointerExists),
        ("no no-pointer", Rule::NoPointer),
        ("no full 4 5", Rule::Full { free: 4, wanted: 5 }),
        ("no run 3 2", Rule::NoRun { free: 3, wanted: 2 }),
        (
            "no pointers-full 7 8",
            Rule::PointersFull { held: 7, max: 8 },
        ),
    ];
    for (text, rule) in table.iter() {
        let mut line = OutBuf::new();
        print_reply(&Reply::Refused(*rule), &mut line);
        is_line(&rt, &line, text);
    }
}

/// The lines of a text that comes in pieces of one size, a bar after each, and what stands after the last.
fn barred(text: &[u8], size: usize) -> OutBuf
    requires { 0 < size }
{
    let mut cutter = LineCutter::new();
    let mut all = OutBuf::new();
    for piece in text.chunks(size) {
        feed_all(&mut cutter, piece, &mut all);
    }
    append(&mut all, cutter.rest());
    all
}

/// Adds what there is room for.
fn append(all: &mut OutBuf, bytes: &[u8]) {
    for b in bytes {
        let _fit = all.push(*b);
    }
}

/// Feeds a piece, and puts down each line that is whole, with a bar.
fn feed_all(cutter: &mut LineCutter, piece: &[u8], all: &mut OutBuf) {
    let mut left = piece;
    while !left.is_empty() {
        let fed = cutter.feed(left);
        left = &left[fed.used..];
        if fed.whole {
            append(all, cutter.line());
            append(all, b"|".as_slice());
        }
    }
}

/// The same lines, in pieces of 1 to 17 bytes.
#[test]
fn cut_at_every_size(rt: HostRuntime) {
    for size in 1..18 {
        let all = barred(b"open 1\n\nread 1 0 -\n\n\nfree\nlast", size);
        assert_eq!(rt;
            all.as_slice(),
            b"open 1||read 1 0 -|||free|last".as_slice(),
            "{size}"
        );
    }
}

/// A line that is too long is held cut, and the next one is whole.
#[test]
fn long_line(rt: HostRuntime) {
    let mut cutter = LineCutter::new();
    cutter.feed([b'a'; 8300].as_slice());
    assert_eq!(rt; cutter.line().len(), 8300);
    cutter.feed([b'a'; 200].as_slice());
    assert_eq!(rt; cutter.rest().len(), 8401);
    let fed = cutter.feed(b"a\nfree\n");
    assert_eq!(rt; (fed.used, fed.whole, cutter.line().len()), (2, true, 8401));
    cutter.feed(b"free\n");
    assert_eq!(rt; parsed(cutter.line()), Request::GetFree);
}

/// A full buffer takes no more.
#[test]
fn full_buffer(rt: HostRuntime) {
    let mut line = OutBuf::new();
    for _ in 0..8400 {
        assert!(rt; line.push(b'a').is_ok());
    }
    assert!(rt; line.push(b'b').is_err());
    assert_eq!(rt; line.as_slice(), [b'a'; 8400].as_slice());
    line.clear();
    assert_eq!(rt; line.as_slice().len(), 0);
}
