//! Batches: new bytes for some sectors, to be put in place as one.

ghost use Rattle.std.specs.Prelude.{◌≡◌, ◌==◌, ◌⊎◌, ◌<◌, ◌≤◌, ◌+◌, [], length, true};
ghost use Rattle.std.specs.Prelude.{false, IsTrue, IfOk, OnOk, OnErr, position};
ghost use Rattle.image_layout.specs.Ring.{bodies};
ghost use Rattle.intent_journal.specs.Homes.{is_lawful_home};

use crate::patches::PatchList;
use image_layout::Patch;
use std::alloc::Global;
use std::marker::Model;
use tsd_model::NoMemory;

/// As many other homes are held as a batch may have, 113.
#[derive(Clone, Copy, Debug, PartialEq, Eq)]
pub struct BatchFull;

/// New bytes for up to 113 distinct homes. Contracts see it as the list of its patches, in the order in which their
/// homes were first put.
#[derive(Drop)]
pub struct Batch {
    patches: PatchList,
}

impl Model for Batch {
    ghost use Rattle.std.specs.Prelude.{List};
    ghost use Rattle.image_layout.specs.declared.offset.Patch.{Patch};
    ghost use Rattle.intent_journal.specs.Batch.{IsBatch};

    ghost Value = { List Patch };

    ghost view = { λ b. b.patches };

    ghost invariant = { λ b. IsBatch b.patches };
}

impl Batch {
    ghost use Rattle.intent_journal.specs.Batch.{IsBatch, has_home, with_patch};

    /// An empty batch, with room for 113 homes. This alone takes memory.
    pub fn new(alloc: Global) -> Result<Batch, NoMemory>
        ensures { IfOk result (λ b. b ≡ []) }
    {
        let patches = PatchList::new(alloc)?;
        Ok(Batch { patches })
    }

    /// Holds nothing any more.
    pub fn clear(&mut self)
        ensures { self.new ≡ [] }
    {
        self.patches.clear();
    }

    /// How many homes it holds.
    pub fn len(&self) -> u32
        ensures value { result ≡ length self.now }
        ensures batch { IsBatch self.now }
    {
        self.patches.len()
    }

    /// The homes with their new bytes, in the order in which they were first put.
    pub(crate) fn patches(&self) -> &[Patch]
        ensures value { result.now ≡ self.now }
        ensures batch { IsBatch self.now }
    {
        self.patches.as_slice()
    }

    /// Gives a home new bytes. Where the home is held already, these take the place of its bytes.
    pub fn put(&mut self, sector: u32, bytes: &[u8; 512]) -> Result<(), BatchFull>
        requires { IsTrue (is_lawful_home sector) }
        /// promise (with room, full): A batch holds at most 113 distinct homes, each with its last bytes; refused, with
        /// nothing changed, exactly where the home is a new one and the batch is full.
        ensures ok { OnOk result (self.new ≡ with_patch (record { sector = sector; bytes = bytes.now }) self.old) }
        ensures room { OnOk result ((has_home self.old sector ≡ true) ⊎ (length self.old < bodies)) }
        ensures full { OnErr result ((has_home self.old sector ≡ false) × (length self.old ≡ bodies)) }
        ensures unchanged { OnErr result (self.new ≡ self.old) }
        ensures was { IsBatch self.old }
        ensures batch { IsBatch self.new }
        ensures grows { length self.old ≤ length self.new }
        ensures by_one { length self.new ≤ length self.old + 1 }
    {
        match index_of(self.patches.as_slice(), sector) {
            Some(index) => {
                self.patches.replace(index, sector, bytes);
                Ok(())
            }
            None => {
                if self.patches.is_full() {
                    return Err(BatchFull);
                }
                self.patches.push(sector, bytes);
                Ok(())
            }
        }
    }
}

/// The index of the patch with this home.
fn index_of(patches: &[Patch], sector: u32) -> Option<usize>
    ensures { result ≡ position (λ p. p.sector == sector) patches.now }
{
    patches.iter().position(|patch| patch.sector == sector)
}
