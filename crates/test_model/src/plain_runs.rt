//! Requests in short, and runs of them through the plain program.

use plain_disk::{Sessions, World, plain_step};
use std::alloc::Global;
use std::process::Abort;
use tsd_model::{
    BlockList, Cap, CapList, CapPair, Data, Geometry, Hint, Level, PlaceKind, Reply, Request, Rule,
    Shown, lawful,
};

/// A capability of one byte, 16 times.
pub fn cap(byte: u8) -> Cap {
    Cap { bytes: [byte; 16] }
}

/// The two capabilities of a primary block.
pub fn pair(read: u8, write: u8) -> CapPair {
    CapPair {
        read: cap(read),
        write: cap(write),
    }
}

/// A capability that is shown.
pub fn key(byte: u8) -> Shown {
    Shown::Key(cap(byte))
}

pub const READ: u8 = 0xaa;

pub const WRITE: u8 = 0xbb;

pub const NEW_READ: u8 = 0xcc;

pub const NEW_WRITE: u8 = 0xdd;

/// A disk of blocks of one sector.
pub fn geometry(blocks: u32, primaries: u32, slots: u32) -> Geometry {
    Geometry {
        sectors: 1,
        blocks,
        primaries,
        slots,
    }
}

/// A disk that was just formatted.
pub fn fresh(rt: &impl Abort, alloc: Global, geometry: &Geometry, pairs: &[CapPair]) -> World {
    let mut caps = CapList::new();
    for each in pairs {
        assert!(rt; caps.push(*each).is_ok());
    }
    assert!(rt; lawful(geometry));
    assert_eq!(rt; caps.len(), geometry.primaries as usize);
    World::fresh(alloc, geometry, &caps).expect(rt, "ample memory")
}

/// Eight blocks, of which one is primary.
pub fn eight(rt: &impl Abort, alloc: Global) -> World {
    fresh(rt, alloc, &geometry(8, 1, 32), &[pair(READ, WRITE)])
}

/// These bytes, and zeros up to a length.
pub fn data(rt: &impl Abort, bytes: &[u8], len: usize) -> Data {
    let mut all = Data::new();
    assert!(rt; all.extend_from_slice(bytes).is_ok());
    for _ in bytes.len()..len {
        assert!(rt; all.push(0).is_ok());
    }
    all
}

/// A block of zeros as a reply.
pub fn zeros(rt: &impl Abort) -> Reply {
    Reply::Bytes(data(rt, &[], 512))
}

/// New blocks as a reply.
pub fn blocks(rt: &impl Abort, numbers: &[u32]) -> Reply {
    let mut list = BlockList::new();
    assert!(rt; list.extend_from_slice(numbers).is_ok());
    Reply::Blocks(list)
}

pub fn open(session: u32) -> Request {
    Request::Begin { session }
}

pub fn read(session: u32, block: u32, shown: Shown) -> Request {
    Request::Read {
        session,
        block,
        shown,
    }
}

pub fn write(rt: &impl Abort, session: u32, block: u32, shown: Shown, bytes: &[u8]) -> Request {
    Request::Write {
        session,
        block,
        shown,
        bytes: data(rt, bytes, 0),
    }
}

pub fn alloc_near(session: u32, source: u32, shown: Shown, hint: Hint, count: u32) -> Request {
    Request::Alloc {
        session,
        source,
        shown,
        hint,
        count,
    }
}

pub fn alloc(session: u32, source: u32, shown: Shown, count: u32) -> Request {
    alloc_near(session, source, shown, Hint::Null, count)
}

pub fn contig(session: u32, source: u32, shown: Shown, hint: Hint, count: u32) -> Request {
    Request::Contig {
        session,
        source,
        shown,
        hint,
        count,
    }
}

pub fn create(session: u32, source: u32, shown: Shown, target: u32) -> Request {
    Request::Create {
        session,
        source,
        shown,
        target,
    }
}

pub fn delete(session: u32, source: u32, shown: Shown, target: u32) -> Request {
    Request::Delete {
        session,
        source,
        shown,
        target,
    }
}

pub fn set_cap(session: u32, block: u32, shown: Shown, caps: CapPair) -> Request {
    Request::SetCap {
        session,
        block,
        shown,
        caps,
    }
}

/// A refusal.
pub fn no(rule: Rule) -> Reply {
    Reply::Refused(rule)
}

/// A refusal for want of a level.
pub fn denied(attained: Level, needed: Level) -> Reply {
    Reply::Refused(Rule::Denied { attained, needed })
}

/// Asks one request after the other, and compares each reply. Gives the world afterwards.
pub fn run(
    rt: &impl Abort,
    alloc: Global,
    kind: PlaceKind,
    start: World,
    rows: &[(Request, Reply)],
) -> World {
    let mut world = start;
    let mut sessions = Sessions::none(alloc);
    for (request, wanted) in rows {
        let (next, held, reply) = plain_step(alloc, kind, &world, &sessions, request).expect(
            rt,
            "ample memory",
        );
        assert_eq!(rt; reply, *wanted, "{request:?}");
        world = next;
        sessions = held;
    }
    world
}
