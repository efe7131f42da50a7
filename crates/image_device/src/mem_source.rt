// A source in memory.
ghost use Rattle.std.specs.Prelude.{◌≡◌, ◌==◌, ◌≤◌, ◌<◌, ◌+◌, if◌then◌else◌, [], length, take, drop};
ghost use Rattle.image_device.specs.Counts.{raised};

use crate::{Failed, Source};

/// Bytes in memory, which come in pieces.
#[derive(Drop)]
pub struct MemSource {
    bytes: Vec<u8>,
    at: usize,
    cut: usize,
    fail: Vec<u64>,
    calls: u64,
    ends: u64,
    faults: u64,
    ghost inside: { at ≤ length bytes.items },
    ghost some: { 0 < cut },
}

impl MemSource {
    ghost use Rattle.image_device.specs.MemSource.{cut_of, ends_of, failing_takes_of, faults_of, front_of, rest_of};
    ghost use Rattle.image_device.specs.MemSource.{takes_of};

    /// These bytes, at most `cut` of them at a time. Its takes are numbered from 0, and those in
    /// `fail` fail.
    pub fn new(bytes: Vec<u8>, cut: usize, fail: Vec<u64>) -> MemSource
        requires { 0 < cut }
        ensures left { rest_of result ≡ bytes.items }
        ensures taken { front_of result ≡ [] }
        ensures cut { cut_of result ≡ cut }
        ensures takes { takes_of result ≡ 0 }
        ensures ends { ends_of result ≡ 0 }
        ensures faults { faults_of result ≡ 0 }
        ensures fail { failing_takes_of result ≡ fail.items }
    {
        MemSource {
            bytes,
            at: 0,
            cut,
            fail,
            calls: 0,
            ends: 0,
            faults: 0,
        }
    }
}

impl Source for MemSource {
    ghost use Rattle.image_device.specs.MemSource.{cut_of, ends_of, faults_of, front_of, rest_of, IsTakeCalled};
    ghost use Rattle.image_device.specs.Counts.{CountsEnd, CountsFault};
    ghost use Rattle.std.specs.Prelude.{◌≡◌, ◌≤◌, ◌++◌, ◌↔◌, [], length, take, drop, min, IfOk};
    ghost use Rattle.std.specs.Prelude.{OnOk, OnErr};

    ghost told = { Unit {0} };

    ghost left_bytes = { rest_of };

    ghost taken = { front_of };

    ghost ended = { λ s. rest_of s ≡ [] };

    ghost ends = { ends_of };

    ghost faults = { faults_of };

    fn take(&mut self, into: &mut [u8]) -> Result<usize, Failed>
        requires { 0 < length into.old }
        ensures room { IfOk result (λ count. count ≤ length into.old) }
        ensures bytes { IfOk result (λ count. rest_of self.old ≡ take count into.new ++ rest_of self.new) }
        ensures taken { IfOk result (λ count. front_of self.new ≡ front_of self.old ++ take count into.new) }
        ensures end { IfOk result (λ count. (count ≡ 0) ↔ (rest_of self.old ≡ [])) }
        ensures found_end { IfOk result (λ count. ((count ≡ 0) → rest_of self.new ≡ [])
            × (rest_of self.old ≡ [] → count ≡ 0)) }
        ensures ends { CountsEnd result (ends_of self.old) (ends_of self.new) }
        ensures stays { rest_of self.old ≡ [] → rest_of self.new ≡ [] }
        ensures err { OnErr result ((rest_of self.new ≡ rest_of self.old)
            × (front_of self.new ≡ front_of self.old)) }
        ensures behind { IfOk result (λ count. drop count into.new ≡ drop count into.old) }
        ensures kept { OnErr result (into.new ≡ into.old) }
        ensures later { self.old.faults ≤ self.new.faults }
        ensures faults { CountsFault result self.old.faults self.new.faults }
        ensures cut { IfOk result (λ count. count ≤ cut_of self.old) }
        ensures exact { IfOk result (λ count. count ≡ min (min (length (rest_of self.old)) (cut_of self.old))
            (length into.old)) }
        ensures called { IsTakeCalled self.old self.new result }
    {
        let number = self.calls;
        self.calls = number.saturating_add(1);
        if self.fail.as_slice().contains(&number) {
            self.faults = self.faults.saturating_add(1);
            return Err(Failed);
        }
        let left = self.bytes.len() - self.at;
        let count = left.min(self.cut).min(into.len());
        copy_some(&self.bytes, self.at, into, count);
        self.at += count;
        self.ends = counted(self.ends, count);
        Ok(count)
    }
}

/// One end more, where a take gave so many bytes.
fn counted(ends: u64, count: usize) -> u64
    ensures { result ≡ (if count == 0 then raised ends else ends) }
{
    if count == 0 {
        ends.saturating_add(1)
    } else {
        ends
    }
}

/// Copies some bytes to the front, and leaves the rest as it was.
fn copy_some(bytes: &[u8], at: usize, into: &mut [u8], count: usize)
    requires inside { at + count ≤ length bytes.now }
    requires room { count ≤ length into.old }
    ensures copied { take count into.new ≡ take count (drop at bytes.now) }
    ensures behind { drop count into.new ≡ drop count into.old }
{
    into[..count].copy_from_slice(&bytes[at..at + count]);
}
