//! A boxed value behind a pointer that may be null, for a struct that C holds between calls.
//!
//! It stands on nothing. A [`Slot`] is one boxed value, or none where its pointer is null; what it holds is a ghost
//! value that its contracts speak of, and what it owns is said by `specs/Slots.antt`. Here alone a raw pointer becomes
//! a box again, by one `unsafe` block whose proof is written by hand.
#![tactic(auto)]

ghost use Rattle.std.specs.Prelude.{◌≡◌, Option, None, Some, option_map};
ghost use Rattle.std.specs.Box.Ownership.{box_owns};
ghost use Rattle.std.specs.contracts.impls.GlobalAllocator.TheImpl.{ghosts};
ghost use Rattle.held_box.specs.Slots.{slot_owns};

use std::alloc::{Allocator, Global};
use std::marker::Model;
use std::ptr::null_mut;

/// A box as its pointer, with what it owned.
pub struct Loose<T, A: Allocator> {
    /// Where the value lies.
    pub at: *mut T,
    /// What its memory goes back to.
    pub alloc: A,
    pub ghost value: { T },
}

impl<T, A: Allocator> Model for Loose<T, A> {
    ghost also_owns = { λ l. box_owns (A.dealloc_token l.alloc) T.row l.at l.value };
}

impl<T: Drop, A: Allocator> Loose<T, A> {
    /// The pointer of a box.
    pub fn of(value: Box<T, A>) -> Loose<T, A>
        ensures { result.value ≡ value.value }
    {
        let (at, alloc) = Box::into_raw_with_allocator(value);
        Loose { at, alloc }
    }

    /// The box that it was.
    pub fn into_box(self) -> Box<T, A>
        /// promise: The box has the value that the pointer's did.
        ensures { result.value ≡ self.value }
    {
        let Loose { at, alloc } = self;
        unsafe { Box::from_raw(alloc, at) }
    }
}

/// One boxed value, or none where the pointer is null.
pub struct Slot<T> {
    /// Where the value lies, or null.
    pub at: *mut T,
    /// What its memory goes back to.
    pub alloc: Global,
    pub ghost value: { Option T },
}

impl<T> Model for Slot<T> {
    ghost also_owns = { λ s. slot_owns (ghosts.dealloc_token s.alloc) T.row s.at s.value };
}

impl<T> Slot<T> {
    /// No value.
    pub fn empty(alloc: Global) -> Slot<T>
        ensures { result.value ≡ None }
    {
        let at = null_mut();
        Slot { at, alloc }
    }

    /// A value.
    fn full(value: Loose<T, Global>) -> Slot<T>
        ensures { result.value ≡ Some value.value }
    {
        let Loose { at, alloc } = value;
        Slot { at, alloc }
    }

    /// The value, or none at null.
    fn into_loose(self) -> Option<Loose<T, Global>>
        ensures { self.value ≡ option_map (λ l. l.value) result }
    {
        let Slot { at, alloc } = self;
        if at.is_null() {
            None
        } else {
            Some(Loose { at, alloc })
        }
    }
}

impl<T: Drop> Slot<T> {
    /// The value of a box.
    pub fn of(value: Box<T>) -> Slot<T>
        ensures { result.value ≡ Some value.value }
    {
        Slot::full(Loose::of(value))
    }

    /// The box of the value, or none.
    pub fn into_box(self) -> Option<Box<T>>
        /// promise: The box has the value that was held, and there is none exactly where none was.
        ensures { self.value ≡ option_map (λ b. b.value) result }
    {
        match self.into_loose() {
            Some(loose) => Some(loose.into_box()),
            None => None,
        }
    }
}
