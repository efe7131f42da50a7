//! Bits in bytes, eight a byte, the lowest first.

ghost use Rattle.std.specs.Prelude.{◌≡◌, ℕ, ◌*◌, ◌+◌, ◌/◌, ◌%◌, ◌<◌, ◌≤◌, ◌≢◌};
ghost use Rattle.std.specs.Prelude.{cond, false, length, slice_index, IfOk};
ghost use Rattle.std.specs.Int.{bit_at, div_ceil};
ghost use Rattle.block_alloc.specs.LiveMap.{free_count};
ghost use Rattle.block_alloc.specs.Bytes.{bit_in, bits_of, AreBits, IsBitPut};

use image_layout::bit_mask;
use image_layout::sectors::SECTOR_BYTES;
use std::alloc::{AllocError, Global};

/// How many bits a byte has.
pub const BYTE_BITS: u32 = 8;

/// Bit b.
pub fn bit_in(bytes: &[u8], b: u32) -> bool
    requires { b / 8 < length bytes.now }
    ensures { result ≡ bit_in bytes.now b }
{
    bytes[(b / BYTE_BITS) as usize] >> (b % BYTE_BITS) & 1 == 1
}

/// A byte with the bit of a block changed.
pub fn with_bit(byte: u8, block: u32, bit: bool) -> u8
    ensures same { bit_at result (block % 8) ≡ cond bit 1 0 }
    ensures others { (k : ℕ) → k < 8 → k ≢ block % 8 → bit_at result k ≡ bit_at byte k }
{
    if bit {
        byte | bit_mask(block)
    } else {
        byte & !bit_mask(block)
    }
}

/// How many of the first so many bits are 0.
#[tactic(auto, using(crate::proofs::BitLaws::free_count_more))]
pub fn count_zeros(bytes: &[u8], len: u32) -> u32
    requires { len ≤ 8 * length bytes.now }
    ensures { result ≡ free_count (bits_of bytes.now len) }
{
    let mut zeros = 0;
    for b in 0..len {
        if !bit_in(bytes, b) {
            zeros += 1;
        }
    }
    zeros
}

/// A byte with its lowest so many bits, and 0 for the others.
fn lowest_bits(byte: u8, count: u32) -> u8
    requires { count < 8 }
    ensures below { (k : ℕ) → k < count → bit_at result k ≡ bit_at byte k }
    ensures above { (k : ℕ) → count ≤ k → bit_at result k ≡ 0 }
{
    byte & ((1 << count) - 1)
}

/// Cuts bytes to those with the first so many bits, and makes each later bit 0.
pub fn cut_to(bytes: &mut Vec<u8>, len: u32)
    requires { len ≤ 8 * length bytes.old.items }
    ensures whole { length bytes.new.items ≡ div_ceil len 8 }
    ensures same { (b : ℕ) → b < len → bit_in bytes.new.items b ≡ bit_in bytes.old.items b }
    ensures ends { (b : ℕ) → len ≤ b → bit_in bytes.new.items b ≡ false }
{
    bytes.truncate(len.div_ceil(BYTE_BITS) as usize);
    let rest = len % BYTE_BITS;
    if rest != 0 {
        let last = (len / BYTE_BITS) as usize;
        bytes[last] = lowest_bits(bytes[last], rest);
    }
}

/// The same bytes once more.
pub fn copy_of(alloc: Global, bytes: &[u8]) -> Result<Vec<u8>, AllocError>
    ensures { IfOk result (λ copy. copy.items ≡ bytes.now) }
{
    bytes.to_vec(alloc)
}

/// Gives a bit a value.
pub fn put_bit(bytes: &mut Vec<u8>, b: u32, bit: bool)
    requires { b / 8 < length bytes.old.items }
    ensures { IsBitPut bytes.old.items bytes.new.items b bit }
{
    let byte_index = (b / BYTE_BITS) as usize;
    bytes[byte_index] = with_bit(bytes[byte_index], b, bit);
}

/// Gives a bit a value, and tells how many of the first so many are 0 then, where so many were.
pub fn put_counted(bytes: &mut Vec<u8>, len: u32, b: u32, bit: bool, zeros: u32) -> u32
    requires inside { b < len }
    requires bits { AreBits len bytes.old.items }
    requires counted { zeros ≡ free_count (bits_of bytes.old.items len) }
    ensures put { IsBitPut bytes.old.items bytes.new.items b bit }
    ensures counted { result ≡ free_count (bits_of bytes.new.items len) }
{
    let was = bit_in(bytes, b);
    put_bit(bytes, b, bit);
    match (was, bit) {
        (false, true) => zeros - 1,
        (true, false) => zeros + 1,
        _ => zeros,
    }
}

/// The bytes of a sector from a byte on, and zeros past the last byte.
pub fn sector_from(bytes: &[u8], first: usize) -> [u8; SECTOR_BYTES]
    requires { first ≤ length bytes.now }
    ensures bytes { (i : ℕ) → i < SECTOR_BYTES → slice_index result i ≡ slice_index bytes.now (first + i) }
    ensures size { length result ≡ SECTOR_BYTES }
    ensures fits { (i : ℕ) → slice_index bytes.now i < 256 }
{
    let rest = &bytes[first..];
    let len = rest.len().min(SECTOR_BYTES);
    let mut sector = [0; SECTOR_BYTES];
    sector[..len].copy_from_slice(&rest[..len]);
    sector
}
