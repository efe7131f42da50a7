//! Bits, 64 a word.

ghost use Rattle.std.specs.Prelude.{◌≡◌, ℕ, ◌<◌, ◌≤◌, ◌≢◌, ◌==◌, ◌||◌, nat_le, cond, false, length, max};
ghost use Rattle.std.specs.Prelude.{replicate, slice_index_or, slice_set, vec_capacity, IfOk};
ghost use Rattle.std.specs.Int.{bit_at};
ghost use Rattle.tsd_model.specs.Next.{IsLeast};

use std::alloc::Global;
use std::cmp::{max, min};
use std::marker::Model;
use tsd_model::NoMemory;

/// How many bits a word has.
const WORD_BITS: u32 = 64;

/// So many bits. Room for all of them is taken when they are made, and no memory behind the last one that was ever
/// true is touched, so bits that are false cost nothing there.
#[derive(Drop)]
pub struct BitArray {
    /// The words up to the last in which a bit was ever true. There is room for all.
    words: Vec<u64>,
    len: u32,
}

impl Model for BitArray {
    ghost use Rattle.std.specs.Prelude.{List, Bool, ◌≤◌, ◌*◌, vec_capacity};
    ghost use Rattle.bit_array.specs.Bits.{bits_of};

    ghost Value = { List Bool };

    ghost view = { λ a. bits_of a.words.items a.len };

    ghost invariant = { λ a. a.len ≤ 64 * vec_capacity a.words };
}

impl BitArray {
    /// So many bits that are all false.
    pub fn new(alloc: Global, len: u32) -> Result<BitArray, NoMemory>
        ensures { IfOk result (λ a. a ≡ replicate len false) }
    {
        let words = Vec::with_capacity(alloc, len.div_ceil(WORD_BITS) as usize)?;
        Ok(BitArray { words, len })
    }

    /// How many bits.
    pub fn len(&self) -> u32
        ensures { result ≡ length self.now }
    {
        self.len
    }

    /// Bit i; false past the end.
    pub fn get(&self, i: u32) -> bool
        /// promise: The bit as it was last set.
        ensures { result ≡ slice_index_or self.now i false }
    {
        let word = word_at(&self.words, (i / WORD_BITS) as usize);
        i < self.len && is_set(word, i % WORD_BITS)
    }

    /// The least number from `start` on whose bit is true or that isn't below `end`. Words with no true bit are passed
    /// at once.
    pub fn next_set(&self, start: u32, end: u32) -> u32
        /// promise: The first bit from a position on that is set.
        ensures { IsLeast (λ i. nat_le end i || slice_index_or self.now i false) start result }
    {
        let mut at = start;
        while at < end && !self.get(at) {
            at = self.past_false(at, end);
        }
        at
    }

    /// Past a bit that is false, and past the words of such bits that it begins.
    fn past_false(&self, at: u32, end: u32) -> u32
        requires within { at < end }
        requires unset { slice_index_or self.now at false ≡ false }
        ensures on { (at < result) × (result ≤ end) }
        ensures unset { (i : ℕ) → at ≤ i → i < result → slice_index_or self.now i false ≡ false }
    {
        if self.len <= at {
            return end;
        }
        let words = self.words.as_slice();
        let first = (at / WORD_BITS) as usize;
        if words.len() <= first {
            return end;
        }
        if at % WORD_BITS != 0 {
            return at + 1;
        }
        let last = min((min(end, self.len) / WORD_BITS) as usize, words.len());
        let word = next_word(words, first, last);
        max(at + 1, word as u32 * WORD_BITS)
    }

    /// Bit i becomes this; past the end nothing changes.
    pub fn set(&mut self, i: u32, bit: bool)
        /// promise: This bit is set, and no other changes.
        ensures { self.new ≡ slice_set self.old i bit }
    {
        if i < self.len {
            let position = (i / WORD_BITS) as usize;
            if !bit && self.words.len() <= position {
                return;
            }
            touch(&mut self.words, position);
            self.words[position] = with_bit(self.words[position], i % WORD_BITS, bit);
        }
    }

    /// Every bit becomes false.
    pub fn clear(&mut self)
        /// promise: This bit is clear, and no other changes.
        ensures { self.new ≡ replicate (length self.old) false }
    {
        self.words.clear();
    }
}

/// Puts words without a bit behind the ones in memory, until this one is among them.
fn touch(words: &mut Vec<u64>, position: usize)
    requires { position < vec_capacity words.old }
    ensures room { vec_capacity words.new ≡ vec_capacity words.old }
    ensures same { (k : ℕ) → slice_index_or words.new.items k 0 ≡ slice_index_or words.old.items k 0 }
    ensures touched { position < length words.new.items }
{
    while words.len() <= position {
        words.push_reserved(0);
    }
}

/// A word; none of its bits is set where it isn't in memory.
fn word_at(words: &[u64], position: usize) -> u64
    ensures { result ≡ slice_index_or words.now position 0 }
{
    match words.get(position) {
        Some(word) => *word,
        None => 0,
    }
}

/// Past the words that are zero, from one on.
fn next_word(words: &[u64], start: usize, end: usize) -> usize
    requires { end ≤ length words.now }
    ensures on { (start ≤ result) × (result ≤ max start end) }
    ensures zero { (k : ℕ) → start ≤ k → k < result → slice_index_or words.now k 0 ≡ 0 }
{
    let mut at = start;
    while at < end && words[at] == 0 {
        at += 1;
    }
    at
}

fn is_set(word: u64, position: u32) -> bool
    requires { position < 64 }
    ensures { result ≡ (bit_at word position == 1) }
{
    (word >> position) & 1 == 1
}

/// The word with one bit changed.
fn with_bit(word: u64, position: u32, bit: bool) -> u64
    requires { position < 64 }
    ensures same { bit_at result position ≡ cond bit 1 0 }
    ensures others { (i : ℕ) → i < 64 → i ≢ position → bit_at result i ≡ bit_at word i }
{
    if bit {
        word | (1 << position)
    } else {
        word & !(1 << position)
    }
}
