//! What is told of long work, over a clock that goes on by so much at each look.

use crate::progress::Progress;
use image_device::WorkDone;
use std::cell::Cell;
use std::io;
use std::test::Fail;
use std::time::{Clock, Duration};

/// A clock that goes on by so many milliseconds at each look, or fails from one look on.
#[derive(Drop)]
struct Steps {
    looks: Cell<u64>,
    millis: u64,
    fails_from: u64,
}

impl Steps {
    fn of(millis: u64, fails_from: u64) -> Steps {
        Steps {
            looks: Cell::new(0),
            millis,
            fails_from,
        }
    }
}

impl Clock for Steps {
    fn monotonic(&self) -> io::Result<Duration> {
        let look = self.looks.get();
        self.looks.set(look.saturating_add(1));
        if look >= self.fails_from {
            return Err(io::Error::from(io::ErrorKind::Other));
        }
        Ok(Duration::from_millis(look.saturating_mul(self.millis)))
    }

    fn since_1970(&self) -> io::Result<Duration> {
        Err(io::Error::from(io::ErrorKind::Unsupported))
    }
}

/// A look that never comes.
const NEVER: u64 = u64::MAX;

/// Spaces over the whole line.
const WIPE: &str =
    "\r                                                                               \r";

/// What a terminal got after so many sectors were read.
fn told(rt: &HostRuntime, clock: Steps, reads: u32) -> Progress<Steps, Vec<u8>> {
    let mut progress = Progress::new(clock, Some(Vec::new(rt.alloc())));
    for _ in 0..reads {
        progress.count_read();
    }
    progress
}

/// What its terminal got.
fn text(progress: &Progress<Steps, Vec<u8>>) -> &[u8] {
    match progress.terminal() {
        Some(terminal) => terminal.as_slice(),
        None => b"none".as_slice(),
    }
}

/// Where there is no terminal the clock isn't looked at.
#[test]
fn without_a_terminal_nothing_is_done(rt: HostRuntime) {
    let clock = Steps::of(2_000, NEVER);
    let mut progress: Progress<&Steps, Vec<u8>> = Progress::new(&clock, None);
    for _ in 0..1_000 {
        progress.count_read();
        progress.note_sync();
    }
    progress.wipe();
    assert!(rt; progress.terminal().is_none());
    assert_eq!(rt; clock.looks.get(), 0);
}

/// The clock is looked at in the first read, the 65th, the 129th, and so on.
#[test]
fn two_seconds_go_before_anything_is_told(rt: HostRuntime) {
    for (millis, reads, wanted) in [
        (1_999, 65, ""),
        (2_000, 64, ""),
        (
            2_000,
            65,
            "\rtsd: 65 sectors read, 0 written, 32 a second      ",
        ),
        (1_000, 128, ""),
        (
            1_000,
            129,
            "\rtsd: 129 sectors read, 0 written, 64 a second      ",
        ),
    ] {
        let progress = told(&rt, Steps::of(millis, NEVER), reads);
        assert_eq!(rt; text(&progress), wanted.as_bytes(), "{millis} {reads}");
    }
}

/// A line stands for a quarter of a second.
#[test]
fn the_line_is_written_anew(rt: HostRuntime) {
    for (millis, reads, lines) in [
        (100, 65 + 64 * 19, 1),
        (100, 65 + 64 * 22, 2),
        (249, 65 + 64 * 9, 1),
    ] {
        let progress = told(&rt, Steps::of(millis, NEVER), reads);
        let starts = text(&progress)
            .iter()
            .filter(|byte| **byte == b'\r')
            .count();
        assert_eq!(rt; starts, lines, "{millis} {reads}");
    }
}

/// Where the clock fails nothing is told any more.
#[test]
fn a_clock_that_fails(rt: HostRuntime) {
    for from in [0, 1, 2] {
        let progress = told(&rt, Steps::of(1_000, from), 10_000);
        assert!(rt; text(&progress).is_empty(), "from {from}");
    }
}

/// A reply wipes the line, and what comes behind it is counted anew.
#[test]
fn a_reply_wipes_the_line(rt: HostRuntime) -> Result<(), Fail> {
    let alloc = rt.alloc();
    let mut progress = Progress::new(Steps::of(2_000, NEVER), Some(Vec::new(alloc)));
    progress.wipe();
    assert!(rt; text(&progress).is_empty());
    progress.count_write();
    for _ in 0..4 {
        progress.note_sync();
    }
    progress.wipe();
    progress.wipe();
    let line = "\rtsd: 0 sectors read, 1 written, 0 a second      ";
    let wiped = format!(in alloc; "{line}{WIPE}")?;
    assert_eq!(rt; text(&progress), wiped.as_bytes());
    for _ in 0..64 {
        progress.count_read();
    }
    assert_eq!(rt; text(&progress), wiped.as_bytes());
    progress.count_read();
    let again = "\rtsd: 65 sectors read, 0 written, 32 a second      ";
    let told = format!(in alloc; "{wiped}{again}")?;
    assert_eq!(rt; text(&progress), told.as_bytes());
    Ok(())
}

/// Where the work tells what it has done, the line has that in place of the sectors; a reply ends it.
#[test]
fn what_the_work_has_done_is_in_the_line(rt: HostRuntime) {
    for (done, line) in [
        (
            WorkDone::Requests { done: 50, of: 200 },
            "\rtsd: 25 % done, 50 of 200 requests, 25 a second, 6 s left      ",
        ),
        (
            WorkDone::Requests {
                done: 199_999,
                of: 200_000,
            },
            "\rtsd: 99 % done, 199999 of 200000 requests, 99999 a second, 0 s left      ",
        ),
        (
            WorkDone::Requests { done: 7, of: 7 },
            "\rtsd: 100 % done, 7 of 7 requests, 3 a second, 0 s left      ",
        ),
        (
            WorkDone::Copied {
                files: 12,
                bytes: 40_960,
            },
            "\rtsd: 12 files copied, 40960 bytes, 32 sectors a second      ",
        ),
    ] {
        let mut progress = told(&rt, Steps::of(2_000, NEVER), 64);
        progress.note_work_done(done);
        assert!(rt; text(&progress).is_empty());
        progress.count_read();
        assert_eq!(rt; text(&progress), line.as_bytes());
    }
    let mut progress = told(&rt, Steps::of(2_000, NEVER), 0);
    progress.note_work_done(WorkDone::Requests { done: 1, of: 2 });
    progress.wipe();
    for _ in 0..65 {
        progress.count_read();
    }
    let line = "\rtsd: 65 sectors read, 0 written, 32 a second      ";
    assert_eq!(rt; text(&progress), line.as_bytes());
}
