//! One request after another.

ghost use Rattle.std.specs.Prelude.{◌≡◌, ◌≢◌, ◌≤◌, ◌<◌, ◌+◌, ◌-◌, ◌^◌, ◌++◌, []};
ghost use Rattle.std.specs.Prelude.{ℕ, true, false, List, length, min, take, ◌↔◌, IfOk, OnErr};
ghost use Rattle.image_device.specs.Counts.{CountsEnd, CountsFault, Rose};
ghost use Rattle.serving.specs.Goes.{Handed, IsFoundNext, IsFresh, IsNextAtEnd, Reads, SameCounts};
ghost use Rattle.serving.specs.Goes.{ends_left, remaining, unread};
ghost use Rattle.serving.specs.Input.{completed};
ghost use Rattle.serving.specs.Ran.{IsAtEnd, taking};
ghost use Rattle.serving.specs.declared.protocol.Ending.{Ending as EndingOf};

use crate::intake::{INPUT_MAX, Intake, Next, TAKE_MAX};
use crate::protocol::{Ending, Protocol};
use image_device::{Failed, Source};

impl Intake {
    /// Nothing was taken. At most so many bytes are served.
    pub fn new(limit: u64) -> Intake
        requires { limit ≤ INPUT_MAX }
        ensures limit { result.limit ≡ limit }
        ensures taken { result.taken ≡ 0 }
        ensures held { unread result ≡ [] }
        ensures over { result.over ≡ false }
        ensures ends { ends_left result ≡ 1 }
    {
        Intake {
            room: [0; TAKE_MAX],
            from: 0,
            to: 0,
            taken: 0,
            limit,
            over: false,
        }
    }

    /// Begins over another input, of which nothing was taken, in the same room. At most so many bytes are served.
    pub fn renew(&mut self, limit: u64)
        requires { limit ≤ INPUT_MAX }
        ensures { IsFresh self.new limit }
    {
        self.from = 0;
        self.to = 0;
        self.taken = 0;
        self.limit = limit;
        self.over = false;
    }

    /// What comes next; a request is put into the room for it. That a request is handed out before more bytes are taken
    /// is shown by the code, and no clause says it.
    pub fn next<S: Source, R: Protocol>(
        &mut self,
        protocol: &mut R,
        source: &mut S,
        into: &mut R::Request,
    ) -> Next
        ensures limit { self.new.limit ≡ self.old.limit }
        ensures found { (bytes : List ℕ) (qs : List R.Request) → Handed R.spelling (λ x. R.was_fed x protocol.old)
            (IsAtEnd S.told (S.ended source.old) (S.left_bytes source.old)) self.old bytes qs
            → let took = taking S.told S.taken S.left_bytes S.ended source.old source.new in
            (more : List ℕ) × took.came more
            × IsFoundNext R.spelling (λ x. R.was_fed x protocol.new) took.at_end self.new (bytes ++ more) qs into.new
            result }
        ensures less { result ≡ Next.Request → remaining self.new < remaining self.old }
        // The end is found once at most, and where a request was handed out before it, it may be found later.
        ensures once { S.ends source.new ≤ S.ends source.old + ends_left self.old }
        ensures later { result ≡ Next.Request
            → S.ends source.new + ends_left self.new ≤ S.ends source.old + ends_left self.old }
        // Once the end has made the last request whole, nothing more is taken.
        ensures over { self.old.over ≡ true → source.new ≡ source.old }
        ensures source_fault { result ≡ Next.Fault → Rose (S.faults source.old) (S.faults source.new) }
        ensures no_source_fault { result ≢ Next.Fault → S.faults source.new ≡ S.faults source.old }
    {
        if self.over {
            return Next::End;
        }
        loop {
            if self.read_held::<R>(protocol, into) {
                return Next::Request;
            }
            if self.taken > self.limit {
                return Next::TooLong;
            }
            let most = self.most();
            match take_some(source, &mut self.room, most) {
                Err(_) => return Next::Fault,
                Ok(0) => return self.last(protocol, into),
                Ok(count) => self.fill(count),
            }
        }
    }

    /// The next request of those in hand, put into the room for it, and whether there is one. Nothing is taken.
    pub fn next_held<R: Protocol>(&mut self, protocol: &mut R, into: &mut R::Request) -> bool
        ensures counts { SameCounts self.old self.new }
        ensures over { self.new.over ≡ self.old.over }
        ensures nothing { self.old.over ≡ true → result ≡ false }
        ensures handed { self.old.over ≡ false → (bytes : List ℕ) (qs : List R.Request) → Reads R.spelling
            (λ x. R.was_fed x protocol.old) self.old bytes qs →
            Reads R.spelling (λ x. R.was_fed x protocol.new) self.new bytes (qs ++ completed result into.new) }
        ensures less { result ≡ true → remaining self.new < remaining self.old }
        ensures fewer { remaining self.new ≤ remaining self.old }
        // Where there is none, all bytes that were taken are read.
        ensures none { result ≡ false → self.old.over ≡ false → unread self.new ≡ [] }
    {
        if self.over {
            return false;
        }
        self.read_held::<R>(protocol, into)
    }

    /// Reads the bytes that are held up to the end of their first request, or all of them.
    fn read_held<R: Protocol>(&mut self, protocol: &mut R, into: &mut R::Request) -> bool
        ensures counts { SameCounts self.old self.new }
        ensures over { self.new.over ≡ self.old.over }
        ensures to { self.new.to ≡ self.old.to }
        ensures all { result ≡ false → self.new.from ≡ self.new.to }
        ensures some { result ≡ true → self.old.from < self.new.from }
        ensures later { self.old.from ≤ self.new.from }
        ensures handed { (bytes : List ℕ) (qs : List R.Request) → Reads R.spelling (λ x. R.was_fed x protocol.old)
            self.old bytes qs →
            Reads R.spelling (λ x. R.was_fed x protocol.new) self.new bytes (qs ++ completed result into.new) }
    {
        let fed = protocol.feed(&self.room[self.from..self.to], into);
        self.from += fed.used;
        fed.whole
    }

    /// What comes last: what the end of the input makes of what the protocol holds.
    fn last<R: Protocol>(&mut self, protocol: &R, into: &mut R::Request) -> Next
        ensures counts { SameCounts self.old self.new }
        ensures from { self.new.from ≡ self.old.from }
        ensures to { self.new.to ≡ self.old.to }
        ensures room { self.new.room ≡ self.old.room }
        ensures next { (ending : EndingOf R.Request)
            × ((x : List ℕ) → R.was_fed x protocol.now → ending ≡ R.spelling.ending x)
            × IsNextAtEnd ending result into.new self.new.over self.old.over }
    {
        self.at_end(protocol.ending(), into)
    }

    /// What the end of the input makes of what stands there.
    fn at_end<Q: Drop>(&mut self, ending: Ending<Q>, into: &mut Q) -> Next
        ensures counts { SameCounts self.old self.new }
        ensures from { self.new.from ≡ self.old.from }
        ensures to { self.new.to ≡ self.old.to }
        ensures room { self.new.room ≡ self.old.room }
        ensures next { IsNextAtEnd ending result into.new self.new.over self.old.over }
    {
        match ending {
            Ending::Nothing => Next::End,
            Ending::CutOff => Next::CutOff,
            Ending::One(request) => {
                self.over = true;
                *into = request;
                Next::Request
            }
        }
    }

    /// How many bytes a take may give: one past those that are served, so that it shows where more come.
    fn most(&self) -> usize
        requires { self.now.taken ≤ self.now.limit }
        ensures some { 0 < result }
        ensures room { result ≤ 65536 }
        ensures few { result ≤ self.now.limit - self.now.taken + 1 }
    {
        at_most(TAKE_MAX, self.limit - self.taken + 1)
    }

    /// So many bytes were taken. Those within the limit are to be read.
    fn fill(&mut self, count: usize)
        requires some { 0 < count }
        requires room { count ≤ 65536 }
        requires few { self.old.taken + count ≤ self.old.limit + 1 }
        ensures limit { self.new.limit ≡ self.old.limit }
        ensures taken { self.new.taken ≡ self.old.taken + count }
        ensures from { self.new.from ≡ 0 }
        ensures to { self.new.to ≡ min count (self.old.limit - self.old.taken) }
        ensures room { self.new.room ≡ self.old.room }
        ensures over { self.new.over ≡ self.old.over }
    {
        self.from = 0;
        self.to = at_most(count, self.limit - self.taken);
        self.taken += count as u64;
    }
}

/// Takes at most so many bytes into the front of a room.
fn take_some<S: Source>(source: &mut S, room: &mut [u8], most: usize) -> Result<usize, Failed>
    requires some { 0 < most }
    requires fits { most ≤ length room.old }
    ensures few { IfOk result (λ count. count ≤ most) }
    ensures fits { IfOk result (λ count. count ≤ length room.new) }
    ensures bytes { S.told → IfOk result (λ count. S.left_bytes source.old ≡ take count room.new
        ++ S.left_bytes source.new) }
    ensures taken { S.told → IfOk result (λ count. S.taken source.new ≡ S.taken source.old ++ take count room.new) }
    ensures end { S.told → IfOk result (λ count. (count ≡ 0) ↔ (S.left_bytes source.old ≡ [])) }
    ensures found_end { IfOk result (λ count. (count ≡ 0) → S.ended source.new) }
    ensures ends { CountsEnd result (S.ends source.old) (S.ends source.new) }
    ensures err { S.told → OnErr result ((S.left_bytes source.new ≡ S.left_bytes source.old)
        × (S.taken source.new ≡ S.taken source.old)) }
    ensures faults { CountsFault result (S.faults source.old) (S.faults source.new) }
{
    source.take(&mut room[..most])
}

/// The lesser of two numbers.
fn at_most(count: usize, left: u64) -> usize
    ensures { result ≡ min count left }
{
    if left < count as u64 {
        left as usize
    } else {
        count
    }
}
