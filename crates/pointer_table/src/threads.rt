//! Threads through the slots: of each group of pairs an ascending list, by heads and links.

ghost use Rattle.std.specs.Prelude.{◌≡◌, ℕ, ◌<◌, ◌^◌, length, slice_index_or};
ghost use Rattle.std.specs.Prelude.{slice_set, replicate, [], true, Option, Some, None, IfSome, IfOk, IfErr};
ghost use Rattle.pointer_table.specs.Indexed.{AreThreadsOf};
ghost use Rattle.pointer_table.specs.Links.{links_of};
ghost use Rattle.pointer_table.specs.Slots.{slot_at};
ghost use Rattle.pointer_table.specs.Threads.{rank, is_below, group, linked, no_link, link_after, heads_with};
ghost use Rattle.pointer_table.specs.Threads.{next_with, IsFirstThatFar, IsLastBelow, IsBelowAll, IsNear, IsWith};

use crate::fault::TableFault;
use crate::links::{Links, NO_LINK};
use crate::order::pair_at;
use crate::slots::Slots;
use crate::used::{GROUPS_OF_A_MARK, Used};
use crate::way::{Way, group, rank};
use std::alloc::Global;

/// How many groups a search down looks at before the other search's turn comes.
const LOOKS: u32 = 64;

/// How many groups a look passes where none of them was ever used.
const STEP: u32 = GROUPS_OF_A_MARK as u32;

/// The threads of one way to group pairs.
#[derive(Drop)]
pub(crate) struct Threads {
    /// What the pairs of a group have in common.
    pub way: Way,

    /// For each group the slot of its first pair.
    pub heads: Links,

    /// For each slot that holds a pair the slot of the next pair of its group. What stands at an empty slot no thread
    /// asks.
    pub next: Links,

    /// For each group of several pairs the slot of the last one, where that is kept. A wrong one costs time alone.
    ends: Links,

    /// Which groups ever had a pair, roughly, where their ends are kept. A wrong mark costs time alone.
    used: Used,
}

/// Whether the pair of a slot is below a rank.
pub(crate) fn is_below(slots: &Slots, position: u32, limit: u64) -> bool
    ensures { result ≡ is_below limit (slot_at slots.now position) }
{
    match pair_at(slots, position) {
        Some((source, target)) => rank(source, target) < limit,
        None => false,
    }
}

/// The slot that a link leads to.
fn linked(link: u32) -> Option<u32>
    ensures { result ≡ linked link }
{
    if link == NO_LINK { None } else { Some(link) }
}

/// One of some links. Past the last of them none leads anywhere.
fn link_at(links: &Links, position: usize) -> u32 {
    if position < links.len() {
        links.get(position)
    } else {
        NO_LINK
    }
}

impl Threads {
    /// How many groups there are.
    pub(crate) fn groups(&self) -> usize
        ensures { result ≡ length self.now.heads }
    {
        self.heads.len()
    }

    /// The group of a pair.
    pub(crate) fn group(&self, source: u32, target: u32) -> usize
        requires { 0 < length self.now.heads }
        ensures { result ≡ group self.now.way (length self.now.heads) (source, target) }
    {
        group(self.way, self.heads.len(), source, target)
    }

    /// The first slot of a group, where it has one.
    pub(crate) fn head(&self, of: usize) -> u32 {
        link_at(&self.heads, of)
    }

    /// The link behind a slot.
    pub(crate) fn link(&self, position: u32) -> u32 {
        link_at(&self.next, position as usize)
    }

    /// The end of a group, where that is kept: its head, where the group has one pair.
    pub(crate) fn end(&self, of: usize) -> u32 {
        let end = link_at(&self.ends, of);
        if end == NO_LINK { self.head(of) } else { end }
    }

    /// A group below one, down to which none has a pair, as far as 64 looks go: a guess. Where 64 groups in a row were
    /// never used, one look passes them.
    pub(crate) fn used_below(&self, of: u32) -> u32
        requires { 0 < of }
        ensures { result < of }
    {
        let mut below = of;
        let mut looks = 0;
        while 0 < below && looks < LOOKS {
            looks += 1;
            if below % STEP == 0 && !self.used.is_used(below as usize - 1) {
                below -= STEP;
            } else {
                below -= 1;
                if self.head(below as usize) != NO_LINK {
                    return below;
                }
            }
        }
        below
    }

    /// The link behind a slot, or the head of a group.
    fn after(&self, of: usize, before: Option<u32>) -> u32
        requires group { of < length self.now.heads }
        requires slot { IfSome before (λ k. k < length self.now.next) }
        ensures { result ≡ link_after self.now.heads self.now.next of before }
    {
        match before {
            Some(position) => self.next.get(position as usize),
            None => self.heads.get(of),
        }
    }

    /// Sets the link behind a slot, or the head of a group.
    fn set_after(&mut self, of: usize, before: Option<u32>, link: u32)
        requires group { of < length self.old.heads }
        requires slot { IfSome before (λ k. k < length self.old.next) }
        ensures heads { self.new.heads ≡ heads_with self.old.heads of before link }
        ensures next { self.new.next ≡ next_with self.old.next before link }
        ensures way { self.new.way ≡ self.old.way }
    {
        match before {
            Some(position) => self.next.set(position as usize, link),
            None => self.heads.set(of, link),
        }
    }

    /// A slot of a group whose pair is below a rank: this one, if it is.
    fn near(&self, slots: &Slots, of: usize, limit: u64, position: u32) -> Option<u32>
        requires { of < length self.now.heads }
        ensures { IsNear (slot_at slots.now) (group self.now.way (length self.now.heads)) of limit
            result }
    {
        let (source, target) = pair_at(slots, position)?;
        if self.group(source, target) == of && rank(source, target) < limit {
            Some(position)
        } else {
            None
        }
    }

    /// The slot of the last pair of a group below a rank. The walk begins at `near`, where that is a slot of the group
    /// below the rank, and at the head otherwise.
    fn before(&self, slots: &Slots, of: usize, limit: u64, near: u32) -> Option<u32>
        requires group { of < length self.now.heads }
        requires threads { AreThreadsOf (slot_at slots.now) self.now }
        ensures { IsLastBelow (slot_at slots.now) (group self.now.way (length self.now.heads)) of limit
            result }
    {
        let mut before = self.near(slots, of, limit, near);
        let mut link = self.after(of, before);
        while link != NO_LINK && is_below(slots, link, limit) {
            before = Some(link);
            link = self.next.get(link as usize);
        }
        before
    }

    /// The slot of the first pair of a group that isn't below a rank. The walk begins as that of `before`.
    pub(crate) fn first(&self, slots: &Slots, of: usize, from: u64, near: u32) -> Option<u32>
        requires group { of < length self.now.heads }
        requires threads { AreThreadsOf (slot_at slots.now) self.now }
        ensures { IsFirstThatFar (slot_at slots.now) (group self.now.way (length self.now.heads)) of from
            result }
    {
        let before = self.before(slots, of, from, near);
        linked(self.after(of, before))
    }
}

impl Threads {
    /// Threads of no slot, with room for so many groups and slots. The ends of the groups are kept where that is
    /// wanted. What stands behind an empty slot leads to the next slot, so that a list of the empty ones is there where
    /// all are.
    pub(crate) fn none(
        alloc: Global,
        way: Way,
        groups: usize,
        slots: usize,
        with_ends: bool,
    ) -> Result<Threads, TableFault>
        requires groups { groups < 2 ^ 32 }
        requires slots { slots < 2 ^ 32 }
        ensures way { IfOk result (λ t. t.way ≡ way) }
        ensures heads { IfOk result (λ t. t.heads ≡ replicate groups no_link) }
        ensures next { IfOk result (λ t. length t.next ≡ slots) }
        ensures row { IfOk result (λ t. t.next ≡ links_of true slots []) }
        ensures err { IfErr result (λ e. e ≡ TableFault.NoMemory) }
    {
        let ends = if with_ends { groups } else { 0 };
        let heads = Links::nowhere(alloc, groups)?;
        let next = Links::row(alloc, slots)?;
        let used = Used::none(alloc, ends)?;
        let ends = Links::nowhere(alloc, ends)?;
        Ok(Threads {
            way,
            heads,
            next,
            ends,
            used,
        })
    }

    /// Puts a slot behind another of its group, or first, and gives the link that is behind it now.
    fn put(&mut self, of: usize, before: Option<u32>, position: u32) -> u32
        requires group { of < length self.old.heads }
        requires slot { IfSome before (λ k. k < length self.old.next) }
        requires position { position < length self.old.next }
        ensures heads { self.new.heads ≡ heads_with self.old.heads of before position }
        ensures next { let link = link_after self.old.heads self.old.next of before in
            self.new.next ≡ next_with (slice_set self.old.next position link) before position }
        ensures way { self.new.way ≡ self.old.way }
    {
        let link = self.after(of, before);
        self.next.set(position as usize, link);
        self.set_after(of, before, position);
        self.used.mark(of);
        link
    }

    /// Threads the pair of a slot that was empty. The walk to its position begins as that of `before`.
    pub(crate) fn add(&mut self, slots: &Slots, position: u32, source: u32, target: u32, near: u32)
        requires some { 0 < length self.old.heads }
        requires threads { AreThreadsOf (slot_at slots.now) self.old }
        requires group { group self.old.way (length self.old.heads) (source, target)
            < length self.old.heads }
        requires empty { slot_at slots.now position ≡ None }
        requires position { position < length self.old.next }
        requires link { position < no_link }
        requires absent { (k : ℕ) → slot_at slots.now k ≡ Some (source, target) → ⊥ }
        ensures threads { (now : ℕ → Option (ℕ × ℕ)) → IsWith (slot_at slots.now) position
            (source, target) now
            → AreThreadsOf now self.new }
        ensures way { self.new.way ≡ self.old.way }
        ensures groups { length self.new.heads ≡ length self.old.heads }
        ensures slots { length self.new.next ≡ length self.old.next }
        ensures empties { (k : ℕ) → slot_at slots.now k ≡ None → (k ≡ position → ⊥)
            → slice_index_or self.new.next k 0 ≡ slice_index_or self.old.next k 0 }
    {
        let of = self.group(source, target);
        let before = self.before(slots, of, rank(source, target), near);
        let link = self.put(of, before, position);
        self.keep_end(of, link, position);
    }

    /// Takes a pair out of the threads, while its slot still holds it. The walk to it begins as that of `before`.
    pub(crate) fn remove(
        &mut self,
        slots: &Slots,
        position: u32,
        source: u32,
        target: u32,
        near: u32,
    )
        requires some { 0 < length self.old.heads }
        requires threads { AreThreadsOf (slot_at slots.now) self.old }
        requires held { slot_at slots.now position ≡ Some (source, target) }
        ensures threads { (left : ℕ → Option (ℕ × ℕ))
            → IsWith left position (source, target) (slot_at slots.now)
            → AreThreadsOf left self.new }
        ensures way { self.new.way ≡ self.old.way }
        ensures groups { length self.new.heads ≡ length self.old.heads }
        ensures slots { length self.new.next ≡ length self.old.next }
        ensures empties { (k : ℕ) → slot_at slots.now k ≡ None
            → slice_index_or self.new.next k 0 ≡ slice_index_or self.old.next k 0 }
    {
        let of = self.group(source, target);
        let before = self.before(slots, of, rank(source, target), near);
        let link = self.after(of, Some(position));
        self.set_after(of, before, link);
        self.keep_end(of, link, before.unwrap_or(NO_LINK));
    }

    /// Threads the pair of a slot, which is below all pairs of its group that are threaded.
    pub(crate) fn add_first(&mut self, position: u32, source: u32, target: u32)
        requires some { 0 < length self.old.heads }
        requires group { group self.old.way (length self.old.heads) (source, target)
            < length self.old.heads }
        requires position { position < length self.old.next }
        requires link { position < no_link }
        ensures threads { (held now : ℕ → Option (ℕ × ℕ)) → IsWith held position (source, target) now
            → IsBelowAll held (source, target) → AreThreadsOf held self.old → AreThreadsOf now self.new }
        ensures way { self.new.way ≡ self.old.way }
        ensures groups { length self.new.heads ≡ length self.old.heads }
        ensures slots { length self.new.next ≡ length self.old.next }
        ensures others { (k : ℕ) → (k ≡ position → ⊥)
            → slice_index_or self.new.next k 0 ≡ slice_index_or self.old.next k 0 }
    {
        let of = self.group(source, target);
        let link = self.put(of, None, position);
        self.keep_end(of, link, position);
    }

    /// Sets the link of an empty slot, which is in no thread.
    pub(crate) fn link_empty(&mut self, position: u32, behind: u32)
        requires { position < length self.old.next }
        ensures way { self.new.way ≡ self.old.way }
        ensures heads { self.new.heads ≡ self.old.heads }
        ensures next { self.new.next ≡ slice_set self.old.next position behind }
    {
        self.next.set(position as usize, behind);
    }

    /// Keeps the end of a group, where ends are kept, after a slot was put in front of a link, or is what is left in
    /// front of one that was taken away. Where no link leads on from it, it is the end; and where the group had one
    /// pair, the link leads to the end.
    fn keep_end(&mut self, of: usize, link: u32, position: u32)
        ensures way { self.new.way ≡ self.old.way }
        ensures heads { self.new.heads ≡ self.old.heads }
        ensures next { self.new.next ≡ self.old.next }
    {
        if of >= self.ends.len() {
            return;
        }
        let last = if link == NO_LINK { position } else { link };
        if link != NO_LINK && self.ends.get(of) != NO_LINK {
            return;
        }
        let end = if last == self.head(of) { NO_LINK } else { last };
        self.ends.set(of, end);
    }
}
