//! A certificate: which blocks are reached, and how, as its lines say.

ghost use Rattle.std.specs.Prelude.{◌≡◌, ◌↔◌, ◌+◌, ◌-◌, ◌^◌, min, cond, Some, None, length, replicate, slice_set};
ghost use Rattle.std.specs.Prelude.{IfOk, OnOk, OnErr, IfErr, IsTrue};
ghost use Rattle.image_audit.specs.Listing.{IsAdded, ListsNone, IsListingTaken, IsNotTaken, MayFollow};

use crate::entry::Entry;
use crate::listing::{Listing, parse_listing};
use std::alloc::Global;
use std::marker::Model;
use tsd_model::NoMemory;

/// The line isn't of the form, or its block is past the last one or not above those that are listed.
#[derive(Clone, Copy, Debug, PartialEq, Eq)]
pub struct FormFault {
    /// The number of the line, from 1.
    pub line: u64,
}

/// What the lines of a certificate say. Contracts see at each index the entry of the block, if it is listed, and how
/// many lines there were.
#[derive(Drop)]
pub struct Certificate {
    entries: Vec<Option<Entry>>,

    /// The least block that the next line may list.
    next: u32,

    /// How many lines there were, refused ones included.
    lines: u64,
}

impl Model for Certificate {
    ghost use Rattle.std.specs.Prelude.{◌^◌, ◌<◌, ◌≤◌, length};
    ghost use Rattle.image_audit.specs.Listing.{Listed, IsNextBlock};

    ghost Value = { Listed };

    ghost view = { λ c. record { entries = c.entries.items; lines = c.lines } };

    ghost invariant = { λ c. (length c.entries.items < 2 ^ 32) × (c.next ≤ length c.entries.items)
        × IsNextBlock c.entries.items c.next };
}

impl Certificate {
    /// No block of so many is listed. It takes an entry a block; no other call takes memory.
    pub fn new(alloc: Global, blocks: u32) -> Result<Certificate, NoMemory>
        ensures { IfOk result (λ c. c ≡ record { entries = replicate blocks None; lines = 0 }) }
    {
        let entries = vec![in alloc; None; blocks as usize]?;
        Ok(Certificate {
            entries,
            next: 0,
            lines: 0,
        })
    }

    /// How many blocks the disk has for which it was made.
    pub fn blocks(&self) -> u32
        ensures { result ≡ length self.now.entries }
    {
        self.entries.len() as u32
    }

    /// Takes the next line, without its line feed. It is refused exactly where it isn't of the form, or its block isn't
    /// below the number of blocks or isn't above each that is listed, and then nothing changes but the number of lines.
    pub fn add(&mut self, line: &[u8]) -> Result<(), FormFault>
        /// promise (with refused, kept, lines): A line is taken exactly where it is of the form and its block is one of
        /// the disk and above each that is listed; nothing changes by one that is refused but the number of lines.
        ensures added { OnOk result (IsAdded line.now self.old.entries self.new.entries) }
        ensures refused { OnErr result (ListsNone line.now self.old.entries) }
        ensures blocks { length self.new.entries ≡ length self.old.entries }
        ensures kept { OnErr result (self.new.entries ≡ self.old.entries) }
        ensures line { IfErr result (λ fault. fault.line ≡ self.new.lines) }
        ensures lines { self.new.lines ≡ min (self.old.lines + 1) (2 ^ 64 - 1) }
    {
        self.take(parse_listing(line))
    }

    /// Takes what the next line says, None where it isn't of the form. It is refused as [`add`](Certificate::add) would
    /// refuse the line.
    pub fn take(&mut self, said: Option<Listing>) -> Result<(), FormFault>
        ensures taken { OnOk result (IsListingTaken said self.old.entries self.new.entries) }
        ensures refused { OnErr result (IsNotTaken said self.old.entries) }
        ensures blocks { length self.new.entries ≡ length self.old.entries }
        ensures kept { OnErr result (self.new.entries ≡ self.old.entries) }
        ensures line { IfErr result (λ fault. fault.line ≡ self.new.lines) }
        ensures lines { self.new.lines ≡ min (self.old.lines + 1) (2 ^ 64 - 1) }
    {
        self.lines = self.lines.saturating_add(1);
        let fault = FormFault { line: self.lines };
        let Some(listing) = said else {
            return Err(fault);
        };
        if self.list(&listing) {
            Ok(())
        } else {
            Err(fault)
        }
    }

    /// Lists a block, where it is one that may be listed next.
    fn list(&mut self, listing: &Listing) -> bool
        ensures listed { IsTrue result ↔ MayFollow self.old.entries listing.now.block }
        ensures lines { self.new.lines ≡ self.old.lines }
        ensures entries { self.new.entries ≡ cond result (slice_set self.old.entries listing.now.block
            (Some listing.now.entry)) self.old.entries }
    {
        let block = listing.block;
        if !self.may_follow(block) {
            return false;
        }
        self.entries[block as usize] = Some(listing.entry);
        self.next = block + 1;
        true
    }

    /// Whether a block is one of the disk and above each that is listed.
    fn may_follow(&self, block: u32) -> bool
        ensures { IsTrue result ↔ MayFollow self.now.entries block }
    {
        self.next <= block && block < self.blocks()
    }

    /// The entries, by block.
    pub(crate) fn entries(&self) -> &[Option<Entry>]
        ensures { result.now ≡ self.now.entries }
    {
        self.entries.as_slice()
    }
}
