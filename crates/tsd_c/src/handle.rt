//! An open disk that C holds between calls.

ghost use Rattle.std.specs.Prelude.{◌≡◌, Option, None, Some, option_map};
ghost use Rattle.std.specs.contracts.impls.GlobalAllocator.TheImpl.{ghosts};
ghost use Rattle.held_box.specs.Slots.{slot_owns};
ghost use Rattle.embedded_disk.specs.declared.open_disk.OpenDisk.{OpenDisk as Held};
ghost use Rattle.embedded_disk.specs.contracts.open_disk.OpenDisk.{the_row};

use embedded_disk::OpenDisk;
use held_box::Slot;
use std::alloc::Global;
use std::marker::Model;
use std::mem::replace;

/// What C holds: an open disk, or none at null.
#[repr(C)]
pub struct Handle {
    at: *mut u8,
    alloc: Global,
    ghost value: { Option Held },
}

impl Model for Handle {
    ghost also_owns = { λ h. slot_owns (ghosts.dealloc_token h.alloc) the_row h.at h.value };
}

impl Handle {
    /// What a slot has.
    fn of(slot: Slot<OpenDisk>) -> Handle
        ensures { result.value ≡ slot.value }
    {
        let Slot { at, alloc } = slot;
        let at = at as *mut u8;
        Handle { at, alloc }
    }

    /// The slot.
    fn into_slot(self) -> Slot<OpenDisk>
        ensures { result.value ≡ self.value }
    {
        let Handle { at, alloc } = self;
        let at = at as *mut OpenDisk;
        Slot { at, alloc }
    }

    /// Takes the disk out, and leaves the handle empty.
    pub(crate) fn take(&mut self, alloc: Global) -> Option<Box<OpenDisk>>
        ensures taken { self.old.value ≡ option_map (λ b. b.value) result }
        ensures empty { self.new.value ≡ None }
    {
        replace(self, Handle::of(Slot::empty(alloc)))
            .into_slot()
            .into_box()
    }

    /// Holds a disk. What it held is let go.
    pub(crate) fn put(&mut self, held: Box<OpenDisk>)
        ensures held { self.new.value ≡ Some held.value }
    {
        *self = Handle::of(Slot::of(held));
    }
}

impl Drop for Handle {
    fn drop(self) {
        let _held = self.into_slot().into_box();
    }
}
