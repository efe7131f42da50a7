//! How many free blocks stand in a row at most, from a block of each group of 256 on.

ghost use Rattle.std.specs.Prelude.{◌≡◌, ◌≢◌, ℕ, ◌+◌, ◌*◌, ◌/◌, ◌^◌, ◌<◌, ◌≤◌, true, length, slice_index_or, IfOk};
ghost use Rattle.block_alloc.specs.Bytes.{bits_of};
ghost use Rattle.block_alloc.specs.Rows.{IsMostAt, IsMostIn, AreMost, IsApart};

use crate::bits::bit_in;
use crate::groups::GROUP_BLOCKS;
use std::alloc::{AllocError, Global};

/// The longest row that is told: no request takes more blocks.
const ROW_MAX: u8 = 32;

/// So many blocks behind a group are looked at, which a row that begins in it may have.
const BEHIND: u32 = 31;

/// How long a row is at most that begins at a block, where one that begins at the next block is so long at most.
fn row_before(unhidden: &[u8], block: u32, behind: u8) -> u8
    requires bits { block / 8 < length unhidden.now }
    requires few { behind ≤ 32 }
    ensures few { result ≤ 32 }
    ensures most { (blocks : ℕ) → IsMostAt (bits_of unhidden.now blocks) (block + 1) behind
        → IsMostAt (bits_of unhidden.now blocks) block result }
{
    if bit_in(unhidden, block) {
        0
    } else if behind < ROW_MAX {
        behind + 1
    } else {
        ROW_MAX
    }
}

/// The longer of two rows.
fn longer(one: u8, other: u8) -> u8
    ensures one { one ≤ result }
    ensures other { other ≤ result }
{
    if one < other { other } else { one }
}

/// How long a row is at most that begins in a group.
fn most_in(unhidden: &[u8], blocks: u32, group: u32) -> u8
    requires bits { blocks ≤ 8 * length unhidden.now }
    requires few { blocks < 2 ^ 31 }
    requires group { 256 * group < blocks }
    ensures { IsMostIn (bits_of unhidden.now blocks) group result }
{
    let first = GROUP_BLOCKS * group;
    let end = first + GROUP_BLOCKS;
    let mut row = ROW_MAX;
    let mut most = 0;
    for block in (first..blocks.min(end + BEHIND)).rev() {
        row = row_before(unhidden, block, row);
        if block < end {
            most = longer(most, row);
        }
        if most == ROW_MAX {
            return most;
        }
    }
    most
}

/// How long a row is at most that begins in each group.
pub(crate) fn most_of_groups(
    alloc: Global,
    unhidden: &[u8],
    blocks: u32,
) -> Result<Vec<u8>, AllocError>
    requires bits { blocks ≤ 8 * length unhidden.now }
    requires few { blocks < 2 ^ 31 }
    ensures { IfOk result (λ most. AreMost (bits_of unhidden.now blocks) most.items) }
{
    let groups = blocks.div_ceil(GROUP_BLOCKS);
    let mut most = Vec::with_capacity(alloc, groups as usize)?;
    for group in 0..groups {
        most.push(most_in(unhidden, blocks, group))?;
    }
    Ok(most)
}

/// What is kept of a group.
pub(crate) fn most_at(most: &[u8], group: u32) -> u32
    ensures { result ≡ slice_index_or most.now group 32 }
{
    match most.get(group as usize) {
        Some(row) => u32::from(*row),
        None => u32::from(ROW_MAX),
    }
}

/// Looks at a group again.
fn renew(most: &mut Vec<u8>, unhidden: &[u8], blocks: u32, group: u32)
    requires bits { blocks ≤ 8 * length unhidden.now }
    requires few { blocks < 2 ^ 31 }
    requires group { 256 * group < blocks }
    ensures here { IsMostIn (bits_of unhidden.now blocks) group (slice_index_or most.new.items group 32) }
    ensures others { (g : ℕ) → g ≢ group
        → slice_index_or most.new.items g 32 ≡ slice_index_or most.old.items g 32 }
{
    let index = group as usize;
    if index < most.len() {
        most[index] = most_in(unhidden, blocks, group);
    }
}

/// How many blocks before one are free in a row, up to 31.
fn free_before(unhidden: &[u8], block: u32) -> u32
    requires bits { block / 8 < length unhidden.now }
    ensures few { result ≤ 31 }
{
    let first = block.saturating_sub(BEHIND);
    for other in (first..block).rev() {
        if bit_in(unhidden, other) {
            return block - other - 1;
        }
    }
    block - first
}

/// How many blocks behind one are free in a row, up to 31.
fn free_behind(unhidden: &[u8], blocks: u32, block: u32) -> u32
    requires bits { blocks ≤ 8 * length unhidden.now }
    requires few { blocks < 2 ^ 31 }
    requires block { block < blocks }
    ensures few { result ≤ 31 }
{
    let end = blocks.min(block + BEHIND + 1);
    for other in block + 1..end {
        if bit_in(unhidden, other) {
            return other - block - 1;
        }
    }
    end - block - 1
}

/// Looks again at each group in which a row can begin that has a block, after the block's bit was changed.
pub(crate) fn renew_round(most: &mut Vec<u8>, unhidden: &[u8], blocks: u32, block: u32)
    requires bits { blocks ≤ 8 * length unhidden.now }
    requires few { blocks < 2 ^ 31 }
    requires block { block < blocks }
    requires others { (group : ℕ) → IsApart group block
        → IsMostIn (bits_of unhidden.now blocks) group (slice_index_or most.old.items group 32) }
    ensures { AreMost (bits_of unhidden.now blocks) most.new.items }
{
    let group = block / GROUP_BLOCKS;
    let before = block.saturating_sub(BEHIND) / GROUP_BLOCKS;
    renew(most, unhidden, blocks, group);
    if before != group {
        renew(most, unhidden, blocks, before);
    }
}

/// Whether a block stands in a row, its own bit left out, that is shorter than the longest one that is kept of each
/// group in which it can begin.
fn is_short(most: &[u8], unhidden: &[u8], blocks: u32, block: u32) -> bool
    requires bits { blocks ≤ 8 * length unhidden.now }
    requires few { blocks < 2 ^ 31 }
    requires block { block < blocks }
{
    let row = free_before(unhidden, block) + 1 + free_behind(unhidden, blocks, block);
    let group = block / GROUP_BLOCKS;
    let before = block.saturating_sub(BEHIND) / GROUP_BLOCKS;
    row < most_at(most, group) && row < most_at(most, before)
}

/// The same after the block became live or free. Where it became live, what is kept may say too much, and is right
/// still; so no group is looked at where the block's row wasn't the longest one.
pub(crate) fn renew_set(most: &mut Vec<u8>, unhidden: &[u8], blocks: u32, block: u32, live: bool)
    requires bits { blocks ≤ 8 * length unhidden.now }
    requires few { blocks < 2 ^ 31 }
    requires block { block < blocks }
    requires others { (group : ℕ) → IsApart group block
        → IsMostIn (bits_of unhidden.now blocks) group (slice_index_or most.old.items group 32) }
    requires live { live ≡ true → AreMost (bits_of unhidden.now blocks) most.old.items }
    ensures { AreMost (bits_of unhidden.now blocks) most.new.items }
{
    if live && is_short(most, unhidden, blocks, block) {
        return;
    }
    renew_round(most, unhidden, blocks, block);
}
