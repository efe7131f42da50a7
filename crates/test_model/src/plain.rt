//! Some worked runs of the plain program; the checker computes all of them from the definitions.

use crate::plain_runs::{
    READ, WRITE, alloc, alloc_near, blocks, contig, create, data, delete, denied, eight, fresh,
    geometry, key, no, open, pair, read, run, write, zeros,
};
use plain_disk::{Sessions, plain_doomed, plain_reach, plain_step};
use std::test::Fail;
use tsd_model::{Hint, Level, PlaceKind, Reply, Request, Rule, Shown};

#[test]
fn bytes_are_written_and_read(rt: HostRuntime) -> Result<(), Fail> {
    let world = eight(&rt, rt.alloc());
    let rows = [
        (open(1), Reply::Done),
        (read(1, 0, key(READ)), zeros(&rt)),
        (
            write(&rt, 1, 0, key(READ), b"hi"),
            denied(Level::Read, Level::Write),
        ),
        (read(1, 0, key(READ)), zeros(&rt)),
        (write(&rt, 1, 0, key(WRITE), b"hi\0"), Reply::Done),
        (read(1, 0, key(READ)), Reply::Bytes(data(&rt, b"hi", 512))),
    ];
    let _after = run(&rt, rt.alloc(), PlaceKind::Near, world, rows.as_slice());
    Ok(())
}

#[test]
fn a_run_needs_blocks_in_a_row(rt: HostRuntime) -> Result<(), Fail> {
    let world = eight(&rt, rt.alloc());
    let no_run = Rule::NoRun { free: 3, wanted: 2 };
    let rows = [
        (open(1), Reply::Done),
        (
            alloc(1, 0, key(WRITE), 7),
            blocks(&rt, &[1, 2, 3, 4, 5, 6, 7]),
        ),
        (delete(1, 0, key(WRITE), 2), Reply::Gone(1)),
        (delete(1, 0, key(WRITE), 4), Reply::Gone(1)),
        (delete(1, 0, key(WRITE), 6), Reply::Gone(1)),
        (contig(1, 0, key(WRITE), Hint::Null, 2), no(no_run)),
        (
            alloc_near(1, 0, key(WRITE), Hint::At(5), 2),
            blocks(&rt, &[6, 4]),
        ),
        (Request::GetFree, Reply::Free(1)),
    ];
    let _after = run(&rt, rt.alloc(), PlaceKind::Near, world, rows.as_slice());
    Ok(())
}

#[test]
fn a_cycle_is_neither_reached_nor_doomed(rt: HostRuntime) -> Result<(), Fail> {
    let world = eight(&rt, rt.alloc());
    let rows = [
        (open(1), Reply::Done),
        (alloc(1, 0, key(WRITE), 1), blocks(&rt, &[1])),
        (alloc(1, 1, Shown::Nothing, 1), blocks(&rt, &[2])),
        (create(1, 2, Shown::Nothing, 1), Reply::Done),
        (delete(1, 0, key(WRITE), 1), Reply::Gone(0)),
    ];
    let held = run(&rt, rt.alloc(), PlaceKind::Near, world, rows.as_slice());
    let reached = plain_reach(rt.alloc(), &held)?;
    assert_eq!(rt; reached.as_slice(), [0].as_slice());
    let doomed = plain_doomed(rt.alloc(), &held)?;
    assert!(rt; doomed.is_empty());
    Ok(())
}

#[test]
fn a_fresh_world_of_the_most_blocks_is_made(rt: HostRuntime) -> Result<(), Fail> {
    let world = fresh(
        &rt,
        rt.alloc(),
        &geometry(1_048_576, 1, 4_194_304),
        &[pair(READ, WRITE)],
    );
    assert_eq!(rt; world.free_count(), 1_048_575);
    Ok(())
}

#[test]
fn no_session_has_number_0(rt: HostRuntime) -> Result<(), Fail> {
    let world = eight(&rt, rt.alloc());
    let none = Sessions::none(rt.alloc());
    let (world, sessions, reply) = plain_step(
        rt.alloc(),
        PlaceKind::Near,
        &world,
        &none,
        &open(1),
    )?;
    assert_eq!(rt; reply, Reply::Done);
    assert!(rt; sessions.is_open(1));
    assert!(rt; !sessions.is_open(0));
    let (_world, sessions, reply) = plain_step(
        rt.alloc(),
        PlaceKind::Near,
        &world,
        &sessions,
        &read(1, 0, key(READ)),
    )?;
    assert_eq!(rt; reply, zeros(&rt));
    assert_eq!(rt; sessions.level_from(1, 0, 0), Level::Read);
    assert_eq!(rt; sessions.level_from(0, 0, 0), Level::Bare);
    Ok(())
}
