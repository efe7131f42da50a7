//! Patches in memory that is taken once.

ghost use Rattle.std.specs.Prelude.{◌≡◌, ◌==◌, ◌<◌, ◌++◌, [], ◌∷◌, length, slice_set, IfOk};
ghost use Rattle.image_layout.specs.Ring.{bodies};

use image_layout::Patch;
use image_layout::ring::BODIES;
use std::alloc::Global;
use std::marker::Model;
use tsd_model::NoMemory;

/// Up to 113 patches. Contracts see the list of them.
#[derive(Drop)]
pub struct PatchList {
    items: Vec<Patch>,
}

impl Model for PatchList {
    ghost use Rattle.std.specs.Prelude.{List, ◌≤◌};
    ghost use Rattle.std.specs.Vec.{vec_capacity};
    ghost use Rattle.image_layout.specs.declared.offset.Patch.{Patch};
    ghost use Rattle.image_layout.specs.Ring.{bodies};
    ghost use Rattle.intent_journal.specs.Batch.{ArePatches};

    ghost Value = { List Patch };

    ghost view = { λ a. a.items.items };

    ghost invariant = { λ a. (bodies ≤ vec_capacity a.items) × ArePatches a.items.items };
}

impl PatchList {
    ghost use Rattle.intent_journal.specs.Batch.{ArePatches};

    /// No patch, and room for 113. This alone takes memory.
    pub fn new(alloc: Global) -> Result<PatchList, NoMemory>
        ensures { IfOk result (λ ps. ps ≡ []) }
    {
        match Vec::with_capacity(alloc, BODIES as usize) {
            Ok(items) => Ok(PatchList { items }),
            Err(_) => Err(NoMemory),
        }
    }

    /// The patches, in order.
    pub fn as_slice(&self) -> &[Patch]
        ensures value { result.now ≡ self.now }
        ensures patches { ArePatches self.now }
    {
        self.items.as_slice()
    }

    /// How many there are.
    pub fn len(&self) -> u32
        ensures value { result ≡ length self.now }
        ensures patches { ArePatches self.now }
    {
        self.items.len() as u32
    }

    /// Whether there is no room for one more.
    pub fn is_full(&self) -> bool
        ensures { result ≡ (length self.now == bodies) }
    {
        self.items.len() == BODIES as usize
    }

    /// None any more.
    pub fn clear(&mut self)
        ensures { self.new ≡ [] }
    {
        self.items.clear();
    }

    /// One more, behind the others.
    pub fn push(&mut self, sector: u32, bytes: &[u8; 512])
        requires { length self.old < bodies }
        ensures { self.new ≡ self.old ++ record { sector = sector; bytes = bytes.now } ∷ [] }
    {
        let patch = Patch {
            sector,
            bytes: *bytes,
        };
        self.items.push_reserved(patch);
    }

    /// Another in place of the one at this index.
    pub fn replace(&mut self, index: usize, sector: u32, bytes: &[u8; 512])
        requires { index < length self.old }
        ensures { self.new ≡ slice_set self.old index (record { sector = sector; bytes = bytes.now }) }
    {
        self.items[index] = Patch {
            sector,
            bytes: *bytes,
        };
    }
}
