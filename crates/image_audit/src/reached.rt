//! Which blocks some roots lead to, and how.

ghost use Rattle.std.specs.Prelude.{◌≡◌, ◌<◌, ◌^◌, length, IfOk, IfSome, IsTrue};
ghost use Rattle.std.specs.List.{All};
ghost use Rattle.tsd_model.specs.World.{primary_blocks};
ghost use Rattle.volume_laws.specs.Volume.{IsVolumeReady, told_by};
ghost use Rattle.image_audit.specs.Depths.{AreReached};
ghost use Rattle.image_audit.specs.Entries.{entry_at, is_listed};
ghost use Rattle.image_audit.specs.Listing.{listing_at};

use crate::entry::Entry;
use crate::listing::Listing;
use crate::search::search;
use std::alloc::Global;
use std::marker::Model;
use tsd_model::{BlockList, NoMemory};
use volume::Volume;

/// The blocks that some roots lead to, each with its depth and its parent. Contracts see at each index the entry of the
/// block, if it is reached.
#[derive(Drop)]
pub struct Reached {
    entries: Vec<Option<Entry>>,
}

impl Model for Reached {
    ghost use Rattle.std.specs.Prelude.{List, Option, length, ◌<◌, ◌^◌};
    ghost use Rattle.image_audit.specs.declared.entry.Entry.{Entry};

    ghost Value = { List (Option Entry) };

    ghost view = { λ r. r.entries.items };

    ghost invariant = { λ r. length r.entries.items < 2 ^ 32 };
}

impl Reached {
    /// Searches a volume from some roots, breadth first: each pointer is looked at once. It takes an entry a block and,
    /// while it searches, four bytes for each block of two levels; no other call takes memory.
    pub fn new(alloc: Global, volume: &Volume, roots: &BlockList) -> Result<Reached, NoMemory>
        requires ready { IsVolumeReady volume.now }
        requires inside { All (λ root. root < volume.now.tables.geometry.blocks) roots.now }
        /// promise: Exactly what the roots lead to is listed, each block with the length of the shortest path to it and
        /// the least block one level up that points to it.
        ensures reached { IfOk result (AreReached (told_by volume.now) roots.now) }
        ensures blocks { IfOk result (λ r. length r ≡ volume.now.tables.geometry.blocks) }
    {
        let blocks = volume.geometry().blocks;
        let mut entries = vec![in alloc; None; blocks as usize]?;
        search(alloc, volume, roots.as_slice(), &mut entries)?;
        Ok(Reached { entries })
    }

    /// How many blocks the disk has.
    pub fn blocks(&self) -> u32
        ensures { result ≡ length self.now }
    {
        self.entries.len() as u32
    }

    /// What a certificate says of a block, if it is reached.
    pub fn listing(&self, block: u32) -> Option<Listing>
        ensures { result ≡ listing_at self.now block }
    {
        let entry = self.entry(block)?;
        Some(Listing { block, entry })
    }

    /// Whether the roots lead to a block, or it is one.
    pub fn holds(&self, block: u32) -> bool
        ensures { result ≡ is_listed self.now block }
    {
        self.entry(block).is_some()
    }

    /// How many pointers the shortest path to a block has.
    pub fn depth(&self, block: u32) -> u32
        requires held { IsTrue (is_listed self.now block) }
        ensures { IfSome (entry_at self.now block) (λ entry. result ≡ entry.depth) }
    {
        match self.entry(block) {
            Some(entry) => entry.depth,
            None => 0,
        }
    }

    /// The least block one level up that points to a block, None exactly for a root.
    pub fn parent(&self, block: u32) -> Option<u32>
        requires held { IsTrue (is_listed self.now block) }
        ensures { IfSome (entry_at self.now block) (λ entry. result ≡ entry.parent) }
    {
        match self.entry(block) {
            Some(entry) => entry.parent,
            None => None,
        }
    }

    /// What is known of a block that is reached.
    fn entry(&self, block: u32) -> Option<Entry>
        ensures { result ≡ entry_at self.now block }
    {
        match self.entries.get(block as usize) {
            Some(entry) => *entry,
            None => None,
        }
    }
}

/// The primary blocks, the roots of an audit.
pub fn primary_roots(volume: &Volume) -> BlockList
    ensures list { result ≡ primary_blocks (told_by volume.now) }
    ensures inside { All (λ root. root < volume.now.tables.geometry.blocks) result }
{
    let mut roots = BlockList::new();
    for block in 0..volume.geometry().primaries {
        roots.push_wanted(block, true);
    }
    roots
}
