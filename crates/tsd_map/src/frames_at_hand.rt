//! Requests in memory, behind which more may come with a later call.

ghost use Rattle.std.specs.Prelude.{◌≡◌, ◌≢◌, ◌≤◌, [], length};

use crate::slice_source::copy_some;
use image_device::{Failed, Source};

/// Bytes in memory, of which each take gives as many as there is room for. It has no end: where all were taken a take
/// fails, since more may come with a later call.
#[derive(Drop)]
pub struct FramesAtHand<'a> {
    bytes: &'a [u8],
    at: usize,
    faults: u64,
    ghost inside: { at ≤ length bytes.now },
    ghost only: { faults ≢ 0 → at ≡ length bytes.now },
}

impl<'a> FramesAtHand<'a> {
    /// These bytes, none of which was taken.
    pub fn new(bytes: &'a [u8]) -> FramesAtHand<'a>
        ensures bytes { result.bytes.now ≡ bytes.now }
        ensures at { result.at ≡ 0 }
        ensures faults { result.faults ≡ 0 }
    {
        FramesAtHand {
            bytes,
            at: 0,
            faults: 0,
        }
    }
}

impl<'a> Source for FramesAtHand<'a> {
    ghost use Rattle.image_device.specs.Counts.{CountsEnd, CountsFault};
    ghost use Rattle.std.specs.Prelude.{◌≡◌, ◌≤◌, ◌++◌, ◌↔◌, [], length, take, drop, IfOk, OnErr};

    ghost told = { Unit {0} };

    ghost left_bytes = { λ s. drop s.at s.bytes.now };

    ghost taken = { λ s. take s.at s.bytes.now };

    ghost ended = { λ s. ⊥ };

    ghost ends = { λ s. 0 };

    ghost faults = { λ s. s.faults };

    fn take(&mut self, into: &mut [u8]) -> Result<usize, Failed> {
        let left = self.bytes.len() - self.at;
        if left == 0 {
            self.faults = self.faults.saturating_add(1);
            return Err(Failed);
        }
        let count = left.min(into.len());
        copy_some(self.bytes, self.at, into, count);
        self.at += count;
        Ok(count)
    }
}
