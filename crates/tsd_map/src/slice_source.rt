//! Requests in memory.

ghost use Rattle.std.specs.Prelude.{◌≡◌, ◌==◌, ◌≤◌, ◌+◌, if◌then◌else◌, [], length, take, drop};
ghost use Rattle.image_device.specs.Counts.{raised};

use image_device::{Failed, Source};

/// Bytes in memory, of which each take gives as many as there is room for. No take of it fails.
#[derive(Drop)]
pub struct SliceSource<'a> {
    bytes: &'a [u8],
    at: usize,
    ends: u64,
    ghost inside: { at ≤ length bytes.now },
}

impl<'a> SliceSource<'a> {
    /// These bytes, none of which was taken.
    pub fn new(bytes: &'a [u8]) -> SliceSource<'a>
        ensures bytes { result.bytes.now ≡ bytes.now }
        ensures at { result.at ≡ 0 }
        ensures ends { result.ends ≡ 0 }
    {
        SliceSource {
            bytes,
            at: 0,
            ends: 0,
        }
    }

    /// How many bytes were taken.
    pub fn taken(&self) -> usize
        ensures value { result ≡ self.now.at }
        ensures inside { result ≤ length self.now.bytes.now }
    {
        self.at
    }
}

impl<'a> Source for SliceSource<'a> {
    ghost use Rattle.image_device.specs.Counts.{CountsEnd, CountsFault};
    ghost use Rattle.std.specs.Prelude.{◌≡◌, ◌≤◌, ◌++◌, ◌↔◌, [], length, take, drop, IfOk, OnErr};

    ghost told = { Unit {0} };

    ghost left_bytes = { λ s. drop s.at s.bytes.now };

    ghost taken = { λ s. take s.at s.bytes.now };

    ghost ended = { λ s. drop s.at s.bytes.now ≡ [] };

    ghost ends = { λ s. s.ends };

    ghost faults = { λ s. 0 };

    fn take(&mut self, into: &mut [u8]) -> Result<usize, Failed> {
        let left = self.bytes.len() - self.at;
        let count = left.min(into.len());
        copy_some(self.bytes, self.at, into, count);
        self.at += count;
        self.ends = counted(self.ends, count);
        Ok(count)
    }
}

/// One end more, where a take gave so many bytes.
fn counted(ends: u64, count: usize) -> u64
    ensures { result ≡ (if count == 0 then raised ends else ends) }
{
    if count == 0 {
        ends.saturating_add(1)
    } else {
        ends
    }
}

/// Copies some bytes to the front, and leaves the rest as it was.
pub(crate) fn copy_some(bytes: &[u8], at: usize, into: &mut [u8], count: usize)
    requires inside { at + count ≤ length bytes.now }
    requires room { count ≤ length into.old }
    ensures copied { take count into.new ≡ take count (drop at bytes.now) }
    ensures behind { drop count into.new ≡ drop count into.old }
{
    into[..count].copy_from_slice(&bytes[at..at + count]);
}
