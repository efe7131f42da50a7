//! The index of the slots: by source, by target and by pair, and the empty ones.

ghost use Rattle.std.specs.Prelude.{◌≡◌, ℕ, ◌<◌, length, slice_index_or, slice_set, count_by, is_some};
ghost use Rattle.std.specs.Prelude.{Option, Some, None, IfOk, OnOk, IfErr};
ghost use Rattle.tsd_model.specs.Geometry.{IsLawful};
ghost use Rattle.tsd_model.specs.Next.{IsNextSource, IsNextTarget};
ghost use Rattle.pointer_table.specs.Empties.{AreEmpties, AreInRow};
ghost use Rattle.pointer_table.specs.Indexed.{IsIndex, HasLinksAndHeads, IsPlaceOf, source_of, target_of};
ghost use Rattle.pointer_table.specs.Reading.{AreWithinTo};
ghost use Rattle.pointer_table.specs.Repeating.{IsRefusal};
ghost use Rattle.pointer_table.specs.Repeats.{IsLeastOfAll};
ghost use Rattle.pointer_table.specs.Scanning.{is_at};
ghost use Rattle.pointer_table.specs.Slots.{slot_at, pairs_in};
ghost use Rattle.pointer_table.specs.Threads.{rank, no_link, IsBelowAll, IsWith};

use crate::empties::link_empties;
use crate::fault::TableFault;
use crate::links::NO_LINK;
use crate::order::{holders, least_repeated, pair_at, sort_by_pair};
use crate::slots::Slots;
use crate::threading::by_order;
use crate::threads::{Threads, is_below};
use crate::way::{Way, rank};
use std::alloc::Global;
use tsd_model::Geometry;

/// The slots that hold pairs, threaded by source, by target and by bucket, and the empty ones in a list.
#[derive(Drop)]
pub(crate) struct Index {
    /// The pairs of each source, ascending.
    pub by_source: Threads,

    /// The pairs of each target, ascending.
    pub by_target: Threads,

    /// The pairs of each bucket.
    pub by_bucket: Threads,

    /// The first empty slot. The links by bucket lead from each empty slot to the next one.
    pub empty: u32,
}

/// Whether a slot holds a pair.
fn holds_at(slots: &Slots, position: u32, source: u32, target: u32) -> bool
    ensures { result ≡ is_at source target (slot_at slots.now position) }
{
    slots.get(position as usize).holds(source, target)
}

/// The source of the pair in a slot.
fn source_in(slots: &Slots, position: u32) -> Option<u32>
    ensures { result ≡ source_of (slot_at slots.now position) }
{
    match pair_at(slots, position) {
        Some((source, _)) => Some(source),
        None => None,
    }
}

/// The target of the pair in a slot.
fn target_in(slots: &Slots, position: u32) -> Option<u32>
    ensures { result ≡ target_of (slot_at slots.now position) }
{
    match pair_at(slots, position) {
        Some((_, target)) => Some(target),
        None => None,
    }
}

impl Index {
    /// The index of slots that were read, of which none is bad. The memory of their order is given back at the end.
    pub(crate) fn of(alloc: Global, geometry: &Geometry, slots: &Slots) -> Result<Index, TableFault>
        requires lawful { IsLawful geometry.now }
        requires count { length slots.now ≡ geometry.now.slots }
        requires within { AreWithinTo geometry.now geometry.now.slots slots.now }
        ensures none { OnOk result (IsLeastOfAll slots.now None) }
        ensures index { IfOk result (IsIndex (slot_at slots.now)) }
        ensures room { IfOk result (HasLinksAndHeads geometry.now.blocks geometry.now.slots) }
        ensures empties { IfOk result (λ x. AreEmpties slots.now (count_by is_some slots.now) x.empty
            x.by_bucket.next) }
        ensures err { IfErr result (IsRefusal slots.now) }
    {
        let mut order = holders(alloc, slots)?;
        sort_by_pair(alloc, slots, &mut order)?;
        if let Some((source, target)) = least_repeated(slots, &order) {
            return Err(TableFault::Repeated { source, target });
        }
        let mut index = by_order(alloc, geometry, slots, &order)?;
        link_empties(slots, &mut index);
        Ok(index)
    }

    /// The index of slots that are all empty. They aren't in the list of empty slots yet.
    pub(crate) fn none(alloc: Global, geometry: &Geometry) -> Result<Index, TableFault>
        requires lawful { IsLawful geometry.now }
        ensures index { IfOk result (IsIndex (λ k. None)) }
        ensures room { IfOk result (HasLinksAndHeads geometry.now.blocks geometry.now.slots) }
        ensures row { IfOk result (λ x. AreInRow (λ k. None) x.by_bucket.next) }
        ensures err { IfErr result (λ e. e ≡ TableFault.NoMemory) }
    {
        let blocks = geometry.blocks as usize;
        let slots = geometry.slots as usize;
        Ok(Index {
            by_source: Threads::none(alloc, Way::Source, blocks, slots, true)?,
            by_target: Threads::none(alloc, Way::Target, blocks, slots, true)?,
            by_bucket: Threads::none(alloc, Way::Bucket, slots / 2 + 1, slots, false)?,
            empty: NO_LINK,
        })
    }

    /// The slot that holds a pair.
    pub(crate) fn position_of(&self, slots: &Slots, source: u32, target: u32) -> Option<u32>
        requires { IsIndex (slot_at slots.now) self.now }
        ensures { IsPlaceOf slots.now source target result }
    {
        let of = self.by_bucket.group(source, target);
        let Some(position) = self
            .by_bucket
            .first(slots, of, rank(source, target), NO_LINK)
        else {
            return None;
        };
        if holds_at(slots, position, source, target) {
            Some(position)
        } else {
            None
        }
    }

    /// The slot that holds a pair, for a guess. Where a number below has no pair at all, the heads tell that without a
    /// look into the bucket, which is seldom in the cache.
    fn position_below(&self, slots: &Slots, source: u32, target: u32) -> Option<u32>
        requires { IsIndex (slot_at slots.now) self.now }
    {
        if self.by_source.head(source as usize) == NO_LINK
            || self.by_target.head(target as usize) == NO_LINK
        {
            return None;
        }
        self.position_of(slots, source, target)
    }

    /// A slot from which the walk to a pair's position among those of its source is short: a guess, so a wrong one
    /// costs time alone. Up from the head of the source and down from the target two searches take turns, and the first
    /// that finds one ends both.
    fn near_target(&self, slots: &Slots, source: u32, target: u32) -> u32
        requires { IsIndex (slot_at slots.now) self.now }
    {
        let limit = rank(source, target);
        let end = self.by_source.end(source as usize);
        if is_below(slots, end, limit) {
            return end;
        }
        let mut near = NO_LINK;
        let mut link = self.by_source.head(source as usize);
        let mut below = target;
        while 0 < below && is_below(slots, link, limit) {
            below = self.by_target.used_below(below);
            if let Some(position) = self.position_below(slots, source, below) {
                return position;
            }
            near = link;
            link = self.by_source.link(link);
        }
        near
    }

    /// A slot from which the walk to a pair's position among those of its target is short, found as `near_target` does.
    fn near_source(&self, slots: &Slots, source: u32, target: u32) -> u32
        requires { IsIndex (slot_at slots.now) self.now }
    {
        let limit = rank(source, target);
        let end = self.by_target.end(target as usize);
        if is_below(slots, end, limit) {
            return end;
        }
        let mut near = NO_LINK;
        let mut link = self.by_target.head(target as usize);
        let mut below = source;
        while 0 < below && is_below(slots, link, limit) {
            below = self.by_source.used_below(below);
            if let Some(position) = self.position_below(slots, below, target) {
                return position;
            }
            near = link;
            link = self.by_target.link(link);
        }
        near
    }

    /// The least target of the pairs from a block that is not below `start`.
    pub(crate) fn next_target(&self, slots: &Slots, source: u32, start: u32) -> Option<u32>
        requires { IsIndex (slot_at slots.now) self.now }
        ensures { IsNextTarget (pairs_in slots.now) source start result }
    {
        let of = source as usize;
        if of >= self.by_source.groups() {
            return None;
        }
        let near = self.near_target(slots, source, start);
        let Some(position) = self.by_source.first(slots, of, rank(source, start), near) else {
            return None;
        };
        target_in(slots, position)
    }

    /// The least source of the pairs to a block that is not below `start`.
    pub(crate) fn next_source(&self, slots: &Slots, target: u32, start: u32) -> Option<u32>
        requires { IsIndex (slot_at slots.now) self.now }
        ensures { IsNextSource (pairs_in slots.now) target start result }
    {
        let of = target as usize;
        if of >= self.by_target.groups() {
            return None;
        }
        let near = self.near_source(slots, start, target);
        let Some(position) = self.by_target.first(slots, of, rank(start, target), near) else {
            return None;
        };
        source_in(slots, position)
    }
}

impl Index {
    /// Threads the pair that an empty slot is to hold.
    pub(crate) fn add(&mut self, slots: &Slots, position: u32, source: u32, target: u32)
        requires index { IsIndex (slot_at slots.now) self.old }
        requires room { HasLinksAndHeads (length self.old.by_source.heads) (length slots.now) self.old }
        requires source { source < length self.old.by_source.heads }
        requires target { target < length self.old.by_source.heads }
        requires inside { position < length slots.now }
        requires few { length slots.now < no_link }
        requires empty { slot_at slots.now position ≡ None }
        requires absent { (k : ℕ) → slot_at slots.now k ≡ Some (source, target) → ⊥ }
        ensures index { (now : ℕ → Option (ℕ × ℕ)) → IsWith (slot_at slots.now) position
            (source, target) now → IsIndex now self.new }
        ensures room { (blocks positions : ℕ) → HasLinksAndHeads blocks positions self.old
            → HasLinksAndHeads blocks positions self.new }
        ensures empty { self.new.empty ≡ self.old.empty }
        ensures empties { (k : ℕ) → slot_at slots.now k ≡ None → (k ≡ position → ⊥)
            → slice_index_or self.new.by_bucket.next k 0 ≡ slice_index_or self.old.by_bucket.next k 0 }
    {
        let near_target = self.near_target(slots, source, target);
        let near_source = self.near_source(slots, source, target);
        self.by_source
            .add(slots, position, source, target, near_target);
        self.by_target
            .add(slots, position, source, target, near_source);
        self.by_bucket.add(slots, position, source, target, NO_LINK);
    }

    /// Threads the pair of a slot, which is below all pairs that are threaded.
    pub(crate) fn add_first(&mut self, position: u32, source: u32, target: u32)
        requires index { (held : ℕ → Option (ℕ × ℕ)) × IsIndex held self.old }
        requires room { HasLinksAndHeads (length self.old.by_source.heads) (length self.old.by_bucket.next) self.old }
        requires source { source < length self.old.by_source.heads }
        requires target { target < length self.old.by_source.heads }
        requires inside { position < length self.old.by_bucket.next }
        requires link { position < no_link }
        ensures index { (held now : ℕ → Option (ℕ × ℕ)) → IsWith held position (source, target) now
            → IsBelowAll held (source, target) → IsIndex held self.old → IsIndex now self.new }
        ensures room { (blocks positions : ℕ) → HasLinksAndHeads blocks positions self.old
            → HasLinksAndHeads blocks positions self.new }
        ensures others { (k : ℕ) → (k ≡ position → ⊥)
            → slice_index_or self.new.by_bucket.next k 0 ≡ slice_index_or self.old.by_bucket.next k 0 }
    {
        self.by_source.add_first(position, source, target);
        self.by_target.add_first(position, source, target);
        self.by_bucket.add_first(position, source, target);
    }

    /// Takes a pair out of the threads, while its slot still holds it.
    pub(crate) fn remove(&mut self, slots: &Slots, position: u32, source: u32, target: u32)
        requires index { IsIndex (slot_at slots.now) self.old }
        requires held { slot_at slots.now position ≡ Some (source, target) }
        ensures index { (left : ℕ → Option (ℕ × ℕ))
            → IsWith left position (source, target) (slot_at slots.now) → IsIndex left self.new }
        ensures room { (blocks positions : ℕ) → HasLinksAndHeads blocks positions self.old
            → HasLinksAndHeads blocks positions self.new }
        ensures empty { self.new.empty ≡ self.old.empty }
        ensures empties { (k : ℕ) → slot_at slots.now k ≡ None
            → slice_index_or self.new.by_bucket.next k 0 ≡ slice_index_or self.old.by_bucket.next k 0 }
    {
        let near_target = self.near_target(slots, source, target);
        let near_source = self.near_source(slots, source, target);
        self.by_source
            .remove(slots, position, source, target, near_target);
        self.by_target
            .remove(slots, position, source, target, near_source);
        self.by_bucket
            .remove(slots, position, source, target, NO_LINK);
    }

    /// Takes the first slot off the list of empty slots.
    pub(crate) fn take_empty(&mut self) -> u32
        requires { self.old.empty < length self.old.by_bucket.next }
        ensures position { result ≡ self.old.empty }
        ensures now { self.new ≡ record self.old {
          empty = slice_index_or self.old.by_bucket.next self.old.empty
              0;
        } }
    {
        let position = self.empty;
        self.empty = self.by_bucket.next.get(position as usize);
        position
    }

    /// Puts an empty slot in front of the list of empty slots.
    pub(crate) fn give_empty(&mut self, position: u32)
        requires { position < length self.old.by_bucket.next }
        ensures empty { self.new.empty ≡ position }
        ensures next { self.new.by_bucket.next ≡ slice_set self.old.by_bucket.next position self.old.empty }
        ensures index { (held : ℕ → Option (ℕ × ℕ)) → held position ≡ None → IsIndex held self.old
            → IsIndex held self.new }
        ensures room { (blocks positions : ℕ) → HasLinksAndHeads blocks positions self.old
            → HasLinksAndHeads blocks positions self.new }
    {
        self.by_bucket.link_empty(position, self.empty);
        self.empty = position;
    }
}
