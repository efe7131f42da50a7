//! The targets of a block in a row.

ghost use Rattle.std.specs.Prelude.{◌≡◌, ℕ, ◌+◌, ◌^◌, ◌<◌, ◌≤◌, take, IsTrue};
ghost use Rattle.tsd_model.specs.Pairs.{holds};
ghost use Rattle.tsd_model.specs.Step.{targets_from};
ghost use Rattle.pointer_table.specs.Indexed.{IsIndex};
ghost use Rattle.pointer_table.specs.Slots.{slot_at, pairs_in};

use crate::index::Index;
use crate::slots::Slots;
use tsd_model::BlockList;
use tsd_model::lists::BLOCKS_MAX;

/// The least 64 targets of the pairs from a block that are not below `start`, ascending.
pub(crate) fn targets_from(slots: &Slots, index: &Index, source: u32, start: u32) -> BlockList
    requires index { IsIndex (slot_at slots.now) index.now }
    requires small { (b : ℕ) → IsTrue (holds (pairs_in slots.now) source b) → b + 1 < 2 ^ 32 }
    ensures { result ≡ targets_from (pairs_in slots.now) source start }
{
    least_targets(slots, index, source, start, BLOCKS_MAX)
}

/// The first of these, as many as are wanted.
pub(crate) fn least_targets(
    slots: &Slots,
    index: &Index,
    source: u32,
    start: u32,
    most: usize,
) -> BlockList
    requires index { IsIndex (slot_at slots.now) index.now }
    requires small { (b : ℕ) → IsTrue (holds (pairs_in slots.now) source b) → b + 1 < 2 ^ 32 }
    requires most { most ≤ 64 }
    ensures { result ≡ take most (targets_from (pairs_in slots.now) source start) }
{
    let mut targets = BlockList::new();
    let mut from = start;
    while targets.len() < most {
        let Some(target) = index.next_target(slots, source, from) else {
            break;
        };
        targets.push_wanted(target, true);
        from = target + 1;
    }
    targets
}
