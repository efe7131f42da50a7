// The last bytes of each home of a group, in memory that is taken once.
ghost use Rattle.std.specs.Prelude.{◌≡◌, ◌<◌, ◌≤◌, ◌⊎◌, ◌==◌, ◌++◌, [], ◌∷◌, length, slice_set, true, false, position};
ghost use Rattle.std.specs.Prelude.{IsTrue, IfOk, IfNone, IfSome};
ghost use Rattle.std.specs.Vec.{vec_capacity};
ghost use Rattle.image_device.specs.Image.{Image};
ghost use Rattle.image_layout.specs.Ring.{bodies};
ghost use Rattle.intent_journal.specs.Batch.{has_home, homes_of, with_patch};
ghost use Rattle.intent_journal.specs.Home.{overlaid};
ghost use Rattle.tsd_model.specs.World.{are_apart};

use image_layout::Patch;
use image_layout::ring::BODIES;
use std::alloc::Global;
use tsd_model::NoMemory;

/// The last bytes of up to 113 homes, in the order in which they were first put.
#[derive(Drop)]
pub(crate) struct Homes {
    pub(crate) patches: Vec<Patch>,
    ghost room: { bodies ≤ vec_capacity patches },
}

impl Homes {
    /// None, and room for 113. This alone takes memory.
    pub(crate) fn new(alloc: Global) -> Result<Homes, NoMemory>
        ensures { IfOk result (λ h. h.patches.items ≡ []) }
    {
        match Vec::with_capacity(alloc, BODIES as usize) {
            Ok(patches) => Ok(Homes { patches }),
            Err(_) => Err(NoMemory),
        }
    }

    /// None any more.
    pub(crate) fn clear(&mut self)
        ensures { self.new.patches.items ≡ [] }
    {
        self.patches.clear();
    }

    /// The bytes that a sector has once these are put into place, or none where it stays.
    pub(crate) fn get(&self, sector: u32) -> Option<&[u8; 512]>
        requires { IsTrue (are_apart (homes_of self.now.patches.items)) }
        ensures none { IfNone result ((x : Image) → overlaid self.now.patches.items x sector ≡ x sector) }
        ensures some { IfSome result (λ b. (x : Image) → overlaid self.now.patches.items x sector ≡ b.now) }
    {
        match index_of(self.patches.as_slice(), sector) {
            Some(index) => Some(&self.patches[index].bytes),
            None => None,
        }
    }

    /// Whether a home has a place, or there is one for it.
    pub(crate) fn has_room_for(&self, sector: u32) -> bool
        ensures has { result ≡ true → (has_home self.now.patches.items sector ≡ true)
            ⊎ (length self.now.patches.items < bodies) }
        ensures full { result ≡ false → bodies ≤ length self.now.patches.items }
    {
        index_of(self.patches.as_slice(), sector).is_some() || self.patches.len() < BODIES as usize
    }

    /// Gives a home new bytes, which take the place of those that it has.
    pub(crate) fn put(&mut self, sector: u32, bytes: &[u8; 512])
        requires { (has_home self.old.patches.items sector ≡ true) ⊎ (length self.old.patches.items < bodies) }
        ensures { self.new.patches.items ≡ with_patch (record { sector = sector; bytes = bytes.now })
            self.old.patches.items }
    {
        match index_of(self.patches.as_slice(), sector) {
            Some(index) => self.replace(index, sector, bytes),
            None => self.push(sector, bytes),
        }
    }

    /// One more, behind the others.
    fn push(&mut self, sector: u32, bytes: &[u8; 512])
        requires { length self.old.patches.items < bodies }
        ensures { self.new.patches.items ≡ self.old.patches.items
            ++ record { sector = sector; bytes = bytes.now } ∷ [] }
    {
        let patch = Patch {
            sector,
            bytes: *bytes,
        };
        self.patches.push_reserved(patch);
    }

    /// Another in place of the one at this index.
    fn replace(&mut self, index: usize, sector: u32, bytes: &[u8; 512])
        requires { index < length self.old.patches.items }
        ensures { self.new.patches.items ≡ slice_set self.old.patches.items index
            (record { sector = sector; bytes = bytes.now }) }
    {
        self.patches[index] = Patch {
            sector,
            bytes: *bytes,
        };
    }
}

/// The index of the patch with this home.
fn index_of(patches: &[Patch], sector: u32) -> Option<usize>
    ensures { result ≡ position (λ p. p.sector == sector) patches.now }
{
    patches.iter().position(|patch| patch.sector == sector)
}
