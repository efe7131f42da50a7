//! The slots by number, of which few may be in use: memory is touched up to the last one that was.

ghost use Rattle.std.specs.Prelude.{◌≡◌, ℕ, ◌≤◌, ◌<◌, ◌^◌, length, slice_set, replicate, count_by, is_some, None};
ghost use Rattle.std.specs.Prelude.{vec_capacity, IfOk, IfErr};
ghost use Rattle.pointer_table.specs.Raw.{slot_in, slots_in, all_slots, AreKept};
ghost use Rattle.pointer_table.specs.Slots.{slot_at};

use crate::fault::TableFault;
use crate::raw::RawSlot;
use std::alloc::Global;
use std::marker::Model;

/// So many slots, all there from the start and empty. Room for all of them is taken when they are made, and no memory
/// behind the last one that ever held a pair is touched, so slots that are empty cost nothing.
#[derive(Drop)]
pub(crate) struct Slots {
    /// The slots up to the last that ever held a pair. There is room for all.
    items: Vec<RawSlot>,

    /// How many slots there are.
    count: usize,
}

impl Model for Slots {
    ghost use Rattle.std.specs.Prelude.{List, Option, ℕ, vec_capacity};
    ghost use Rattle.pointer_table.specs.Raw.{all_slots, AreKept};

    ghost Value = { List (Option (ℕ × ℕ)) };

    ghost view = { λ s. all_slots s.count s.items.items };

    ghost invariant = { λ s. AreKept s.count s.items.items (vec_capacity s.items) };
}

/// Puts empty slots behind the ones in memory, until this one is among them.
fn touch(items: &mut Vec<RawSlot>, count: usize, position: usize)
    requires kept { AreKept count items.old.items (vec_capacity items.old) }
    requires inside { position < count }
    ensures kept { AreKept count items.new.items (vec_capacity items.new) }
    ensures same { all_slots count items.new.items ≡ all_slots count items.old.items }
    ensures touched { position < length items.new.items }
{
    while items.len() <= position {
        items.push_reserved(RawSlot::EMPTY);
    }
}

/// How many of these slots hold a pair.
fn count_held(items: &[RawSlot]) -> u32
    requires { length items.now < 2 ^ 32 }
    ensures { result ≡ count_by is_some (slots_in items.now) }
{
    items.iter().filter(|slot| slot.source != 0).count() as u32
}

impl Slots {
    /// So many empty slots.
    pub(crate) fn empty(alloc: Global, count: usize) -> Result<Slots, TableFault>
        requires { count < 2 ^ 32 }
        ensures slots { IfOk result (λ s. s ≡ replicate count None) }
        ensures err { IfErr result (λ e. e ≡ TableFault.NoMemory) }
    {
        match Vec::with_capacity(alloc, count) {
            Ok(items) => Ok(Slots { items, count }),
            Err(_) => Err(TableFault::NoMemory),
        }
    }

    /// How many slots there are.
    pub(crate) fn len(&self) -> usize
        ensures value { result ≡ length self.now }
        ensures few { length self.now < 2 ^ 32 }
    {
        self.count
    }

    /// How many slots are in memory. None behind them holds a pair.
    pub(crate) fn end(&self) -> usize
        ensures inside { result ≤ length self.now }
        ensures behind { (k : ℕ) → result ≤ k → slot_at self.now k ≡ None }
    {
        self.items.len()
    }

    /// How many slots hold a pair.
    pub(crate) fn count_held(&self) -> u32
        ensures { result ≡ count_by is_some self.now }
    {
        count_held(&self.items)
    }

    /// A slot; past the last one an empty one.
    pub(crate) fn get(&self, position: usize) -> RawSlot
        ensures { slot_in result ≡ slot_at self.now position }
    {
        match self.items.get(position) {
            Some(slot) => *slot,
            None => RawSlot::EMPTY,
        }
    }

    /// Sets a slot.
    pub(crate) fn set(&mut self, position: usize, slot: RawSlot)
        requires { position < length self.old }
        ensures { self.new ≡ slice_set self.old position (slot_in slot) }
    {
        if slot.source == 0 && self.items.len() <= position {
            return;
        }
        touch(&mut self.items, self.count, position);
        self.items[position] = slot;
    }
}
