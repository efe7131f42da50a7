//! A line at a terminal that tells that long work goes on.

use image_device::WorkDone;
use std::cell::Cell;
use std::io::{IsTerminal, Stderr, Write};
use std::time::{Clock, Duration, Instant};

/// For so many milliseconds no reply is sent before the line is shown.
const QUIET: u64 = 2_000;

/// For so many milliseconds the line stands before it is written anew.
const STANDS: u64 = 250;

/// In so many sectors the clock is looked at once.
const LOOK: u32 = 64;

/// A sector that is read while an image is copied counts for so many bytes: each is read of both images.
const BYTES_COPIED: u64 = 256;

/// As many sectors as a sync counts for between two looks at the clock: it takes longer than one.
const SYNC: u32 = 16;

/// Spaces over the whole line, which wipe it.
const WIPE: &str =
    "\r                                                                               \r";

/// What was done since the last reply, and the terminal at which it is told, if there is one. Where the clock fails,
/// nothing is told.
#[derive(Drop)]
pub struct Progress<C, E> {
    clock: C,
    terminal: Option<E>,

    /// So many sectors go before the clock is looked at.
    left: u32,

    /// When the first sector was read or written.
    began: Option<Instant>,

    /// When the line was written last, if it stands there.
    shown: Option<Instant>,

    read: u64,
    written: u64,

    /// While an image is copied, how many sectors are to be read of both.
    copied: Option<u64>,

    /// What the work has done by now, where it tells that.
    done: Cell<Option<WorkDone>>,
}

impl<'a> Progress<&'a HostRuntime, Stderr> {
    /// Over standard error, where that is a terminal.
    pub fn of(rt: &'a HostRuntime) -> Progress<&'a HostRuntime, Stderr> {
        let errors = rt.stderr();
        if errors.is_terminal() {
            Progress::new(rt, Some(errors))
        } else {
            Progress::new(rt, None)
        }
    }
}

impl<C: Clock, E: Write> Progress<C, E> {
    /// Nothing is done yet, and nothing is told.
    pub fn new(clock: C, terminal: Option<E>) -> Progress<C, E> {
        Progress {
            clock,
            terminal,
            left: 0,
            began: None,
            shown: None,
            read: 0,
            written: 0,
            copied: None,
            done: Cell::new(None),
        }
    }

    /// An image of so many sectors is copied from now on.
    pub fn copy_begins(&mut self, sectors: u64) {
        self.wipe();
        self.copied = Some(sectors.saturating_mul(2));
    }

    /// The copying has ended.
    pub fn copy_ends(&mut self) {
        if self.copied.is_some() {
            self.wipe();
            self.copied = None;
        }
    }

    /// Counts a sector that is read.
    pub fn count_read(&mut self) {
        self.read = self.read.saturating_add(1);
        self.go_on(1);
    }

    /// Counts a sector that is written.
    pub fn count_write(&mut self) {
        self.written = self.written.saturating_add(1);
        self.go_on(1);
    }

    /// Notes a sync.
    pub fn note_sync(&mut self) {
        self.go_on(SYNC);
    }

    /// Notes what the work has done by now: the next line that is written has it.
    pub fn note_work_done(&self, done: WorkDone) {
        self.done.set(Some(done));
    }

    /// Wipes the line, if it is there, and begins anew: a reply is sent, or all is done.
    pub fn wipe(&mut self) {
        if let (Some(_), Some(terminal)) = (self.shown, &mut self.terminal) {
            let _told = terminal.write_all(WIPE.as_bytes());
        }
        self.left = 0;
        self.began = None;
        self.shown = None;
        self.read = 0;
        self.written = 0;
        self.done.set(None);
    }

    /// The terminal, if there is one.
    pub fn terminal(&self) -> Option<&E> {
        self.terminal.as_ref()
    }

    /// Looks at the clock, unless it was looked at a short while ago or there is nobody to be told.
    fn go_on(&mut self, count: u32) {
        if self.terminal.is_none() {
            return;
        }
        if self.left > count {
            self.left -= count;
            return;
        }
        self.left = LOOK;
        if let Ok(now) = Instant::now(&self.clock) {
            self.look(now);
        }
    }

    /// Writes the line, where it is time for it.
    fn look(&mut self, now: Instant) {
        let began = match self.began {
            Some(began) => began,
            None => {
                self.began = Some(now);
                return;
            }
        };
        let stands = match self.shown {
            Some(shown) => millis_of(now.duration_since(shown)) < STANDS,
            None => false,
        };
        let passed = millis_of(now.duration_since(began));
        if passed >= QUIET && !stands {
            self.shown = Some(now);
            self.tell(passed);
        }
    }

    /// Writes the line over the one that stands there. A shorter number leaves nothing of a longer one.
    fn tell(&mut self, passed: u64) {
        let (read, written, known) = (self.read, self.written, self.done.get());
        let rate = rate_of(read.saturating_add(written), passed);
        let Some(terminal) = &mut self.terminal else {
            return;
        };
        let _told = match (self.copied, known) {
            (Some(sectors), _) => {
                let share = share_of(read, sectors);
                let bytes = rate_of(read, passed).saturating_mul(BYTES_COPIED);
                let left = left_of(read, sectors, passed);
                write!(
                    terminal,
                    "\rtsd: {share} % copied, {bytes} bytes a second, {left} s left      "
                )
            }
            (None, Some(WorkDone::Requests { done, of })) => {
                let (done, of) = (u64::from(done), u64::from(of));
                let share = share_of(done, of);
                let rate = rate_of(done, passed);
                let left = left_of(done, of, passed);
                write!(
                    terminal,
                    "\rtsd: {share} % done, {done} of {of} requests, {rate} a second, {left} s left      "
                )
            }
            (None, Some(WorkDone::Copied { files, bytes })) => write!(
                terminal,
                "\rtsd: {files} files copied, {bytes} bytes, {rate} sectors a second      "
            ),
            (None, None) => write!(
                terminal,
                "\rtsd: {read} sectors read, {written} written, {rate} a second      "
            ),
        };
    }
}

/// The whole milliseconds of a time.
fn millis_of(time: Duration) -> u64 {
    time.as_secs()
        .saturating_mul(1_000)
        .saturating_add(u64::from(time.subsec_millis()))
}

/// The share of the whole, in percent.
fn share_of(done: u64, all: u64) -> u64 {
    match done.saturating_mul(100).checked_div(all) {
        Some(share) => share.min(100),
        None => 100,
    }
}

/// The whole seconds that the rest takes, where what is done took so many milliseconds.
fn left_of(done: u64, all: u64, millis: u64) -> u64 {
    let rest = all.saturating_sub(done);
    match rest
        .saturating_mul(millis)
        .checked_div(done.saturating_mul(1_000))
    {
        Some(left) => left,
        None => 0,
    }
}

/// How many a second that is, in so many milliseconds.
fn rate_of(count: u64, millis: u64) -> u64 {
    match count.saturating_mul(1_000).checked_div(millis) {
        Some(rate) => rate,
        None => 0,
    }
}
