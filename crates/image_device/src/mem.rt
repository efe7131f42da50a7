// A station in memory, which keeps a record of all that was done to it.
ghost use Rattle.std.specs.HashMap.{get};
ghost use Rattle.std.specs.Prelude.{◌≡◌, ◌≤◌, ◌<◌, ◌++◌, [], ℕ, nat_eq, true, false, length};
ghost use Rattle.std.specs.Prelude.{take, OnOk, OnErr, IfOk, IsOk};
ghost use Rattle.image_device.specs.History.{after};
ghost use Rattle.image_device.specs.Cells.{begun, cell_or_blank, standing, IsWholeCell};

use crate::cell::{Cell, pick_fits};
use crate::event::Event;
use crate::keep::{copy_cell, keep_piece, keep_poke, keep_write, settle_all};
use crate::{Device, Failed, Pick, Port};
use std::alloc::Global;
use std::collections::HashMap;

/// A disk and a port in memory, all zeros at first, which hold only what was written. They keep all
/// that was done to them, and so tell what a crash may have left since any moment.
#[derive(Drop)]
pub struct MemStation {
    alloc: Global,
    /// The sectors ever written, so that a read needs no look at the log.
    cells: HashMap<u32, Cell>,
    /// All that was done, the oldest first.
    log: Vec<Event>,
    /// How many events there were with the last sync.
    synced: usize,
    sent: Vec<u8>,
    fail: Vec<u64>,
    calls: u64,
    faults: u64,
    put_faults: u64,
    writes: u64,
    short: u64,
    ghost whole: { (n : ℕ) → IsWholeCell (length log.items) (cell_or_blank (get nat_eq cells n)) },
    ghost reached: { synced ≤ length log.items },
    ghost agrees: { after log.items (begun (λ n. get nat_eq cells n))
        ≡ standing (λ n. get nat_eq cells n) synced sent.items },
}

impl MemStation {
    ghost use Rattle.image_device.specs.MemStation.{station_view, calls_of, failing_of, short_of, IsUnused};
    ghost use Rattle.image_device.specs.Image.{zeros};

    /// A disk of zeros, with nothing sent. Its calls are numbered from 0, and those in `fail` fail.
    pub fn new(alloc: Global, fail: Vec<u64>) -> MemStation
        /// promise (with unused): A station in memory with a disk of zeros, nothing loose and nothing sent.
        ensures reads { (station_view result).reads ≡ (λ n. zeros) }
        ensures unused { IsUnused result }
        ensures fail { failing_of result ≡ fail.items }
    {
        MemStation {
            alloc,
            cells: HashMap::new(alloc),
            log: Vec::new(alloc),
            synced: 0,
            sent: Vec::new(alloc),
            fail,
            calls: 0,
            faults: 0,
            put_faults: 0,
            writes: 0,
            short: 0,
        }
    }

    /// The bytes put so far.
    pub fn sent(&self) -> &[u8]
        ensures { result.now ≡ (station_view self.now).sent }
    {
        &self.sent
    }

    /// How many calls came, up to the greatest `u64`.
    pub fn calls(&self) -> u64
        ensures { result ≡ calls_of self.now }
    {
        self.calls
    }

    /// How often a call failed because memory was short.
    pub fn short(&self) -> u64
        ensures { result ≡ short_of self.now }
    {
        self.short
    }

    /// How often `write` was called.
    pub fn write_calls(&self) -> u64
        ensures { result ≡ (station_view self.now).writes }
    {
        self.writes
    }
}

impl MemStation {
    ghost use Rattle.image_device.specs.MemStation.{is_failing};
    ghost use Rattle.image_device.specs.Counts.{raised, CountsFault};

    /// Counts a call, and gives whether it is one of those that fail.
    fn is_failing(&mut self) -> bool
        ensures counted { self.new ≡ record self.old { calls = raised self.old.calls } }
        ensures failing { result ≡ is_failing self.old }
    {
        let number = self.calls;
        self.calls = number.saturating_add(1);
        self.fail.as_slice().contains(&number)
    }
}

impl MemStation {
    ghost use Rattle.image_device.specs.MemStation.{station_view, calls_of, failing_of, short_of, synced_reads};
    ghost use Rattle.image_device.specs.MemStation.{KeepsNothing};
    ghost use Rattle.image_device.specs.Image.{put_at};
    ghost use Rattle.image_device.specs.View.{IsLeftNow};
    ghost use Rattle.image_device.specs.Calls.{Elapses};
    ghost use Rattle.image_device.specs.History.{firmed};
    ghost use Rattle.image_device.specs.Counts.{raised, CountsFault};

    /// Sets a sector as a damaged image would have it, which makes nothing loose. It is no call of
    /// the device, and `Failed` comes only where `short` rose.
    pub fn poke(&mut self, sector: u32, from: &[u8; 512]) -> Result<(), Failed>
        ensures reads { OnOk result ((station_view self.new).reads ≡ put_at sector from.now
            (station_view self.old).reads) }
        ensures synced { OnOk result (synced_reads self.new ≡ put_at sector from.now (synced_reads self.old)) }
        ensures loose { OnOk result ((station_view self.new).loose ≡ firmed sector (station_view self.old).loose) }
        ensures same_reads { OnErr result ((station_view self.new).reads ≡ (station_view self.old).reads) }
        ensures same_loose { OnErr result ((station_view self.new).loose ≡ (station_view self.old).loose) }
        ensures same_synced { OnErr result (synced_reads self.new ≡ synced_reads self.old) }
        ensures unchanged { OnErr result (KeepsNothing self.old self.new) }
        ensures sent { (station_view self.new).sent ≡ (station_view self.old).sent }
        ensures time { Elapses (station_view self.old) (station_view self.new) (IsLeftNow (station_view self.new)) }
        ensures faults { (station_view self.new).faults ≡ (station_view self.old).faults }
        ensures put_faults { (station_view self.new).put_faults ≡ (station_view self.old).put_faults }
        ensures writes { (station_view self.new).writes ≡ (station_view self.old).writes }
        ensures calls { calls_of self.new ≡ calls_of self.old }
        ensures fail { failing_of self.new ≡ failing_of self.old }
        ensures short { OnOk result (short_of self.new ≡ short_of self.old) }
        ensures cause { OnErr result (short_of self.new ≡ raised (short_of self.old)) }
    {
        if keep_poke(self.alloc, &mut self.cells, &mut self.log, sector, from).is_err() {
            self.short = self.short.saturating_add(1);
            return Err(Failed);
        }
        Ok(())
    }
}

impl MemStation {
    ghost use Rattle.image_device.specs.MemStation.{station_view, failing_of, synced_reads, IsUnused};
    ghost use Rattle.image_device.specs.Image.{IsImage};
    ghost use Rattle.std.specs.Prelude.{replicate};

    /// A station with nothing loose and no failing calls, which begins as one crash image of this.
    pub(crate) fn into_image(self, pick: Pick) -> MemStation
        ensures image { IsImage (station_view self).reads (station_view self).loose (station_view result).reads }
        ensures old { pick ≡ Pick.Old → (station_view result).reads ≡ synced_reads self }
        ensures new { pick ≡ Pick.New → (station_view result).reads ≡ (station_view self).reads }
        ensures torn { (b : ℕ) → pick ≡ Pick.Torn b → (n : ℕ) → (station_view self).loose n ≡ true
            → (station_view result).reads n ≡ replicate 512 b }
        ensures unused { IsUnused result }
        ensures fail { failing_of result ≡ [] }
    {
        let MemStation {
            alloc,
            mut cells,
            mut log,
            synced,
            mut sent,
            mut fail,
            ..
        } = self;
        pick_fits(pick);
        settle_all(&mut cells, pick, synced);
        log.clear();
        sent.clear();
        fail.clear();
        MemStation {
            alloc,
            cells,
            log,
            synced: 0,
            sent,
            fail,
            calls: 0,
            faults: 0,
            put_faults: 0,
            writes: 0,
            short: 0,
        }
    }
}

impl Device for MemStation {
    ghost use Rattle.image_device.specs.MemStation.{station_view, station_sound, is_failing, synced_reads, IsCalled};
    ghost use Rattle.image_device.specs.Calls.{Rests, Settles, Touches, Uses};
    ghost use Rattle.image_device.specs.Runs.{IsFirm};
    ghost use Rattle.image_device.specs.Counts.{raised, CountsFault};
    ghost use Rattle.std.specs.Prelude.{◌≡◌, true, false, IsOk, OnOk, OnErr};

    ghost told = { Unit {0} };

    ghost view = { station_view };

    ghost sound = { λ d told. station_sound d };

    fn read(&mut self, sector: u32, into: &mut [u8; 512]) -> Result<(), Failed>
        ensures bytes { OnOk result (into.new ≡ (station_view self.old).reads sector) }
        ensures kept { OnErr result (into.new ≡ into.old) }
        ensures rests { Rests (station_view self.old) (station_view self.new) }
        ensures uses { Uses 0 (station_view self.old) (station_view self.new) }
        ensures faults { CountsFault result (station_view self.old).faults (station_view self.new).faults }
        ensures once { OnErr result ((station_view self.new).faults ≡ raised (station_view self.old).faults) }
        ensures called { IsCalled self.old self.new result }
        ensures synced { synced_reads self.new ≡ synced_reads self.old }
        ensures answers { is_failing self.old ≡ false → IsOk result }
    {
        if self.is_failing() {
            self.faults = self.faults.saturating_add(1);
            return Err(Failed);
        }
        let cell = copy_cell(&self.cells, sector);
        let bytes = cell.last;
        *into = bytes;
        Ok(())
    }

    fn write(&mut self, sector: u32, from: &[u8; 512]) -> Result<(), Failed>
        ensures written { OnOk result ((station_view self.new).reads sector ≡ from.now) }
        ensures loose { OnOk result ((station_view self.new).loose sector ≡ true) }
        ensures touches { Touches sector (station_view self.old) (station_view self.new) }
        ensures uses { Uses 1 (station_view self.old) (station_view self.new) }
        ensures faults { CountsFault result (station_view self.old).faults (station_view self.new).faults }
        ensures once { OnErr result ((station_view self.new).faults ≡ raised (station_view self.old).faults) }
        ensures called { IsCalled self.old self.new result }
        ensures synced { synced_reads self.new ≡ synced_reads self.old }
        ensures writes { (station_view self.new).writes ≡ raised (station_view self.old).writes }
    {
        self.writes = self.writes.saturating_add(1);
        if self.is_failing() {
            self.faults = self.faults.saturating_add(1);
            return Err(Failed);
        }
        if keep_write(
            self.alloc,
            &mut self.cells,
            &mut self.log,
            self.synced,
            sector,
            from,
        )
        .is_err()
        {
            self.faults = self.faults.saturating_add(1);
            self.short = self.short.saturating_add(1);
            return Err(Failed);
        }
        Ok(())
    }

    fn sync(&mut self) -> Result<(), Failed>
        ensures firm { OnOk result (IsFirm (station_view self.new)) }
        ensures loose { OnErr result ((station_view self.new).loose ≡ (station_view self.old).loose) }
        ensures settles { Settles (station_view self.old) (station_view self.new) }
        ensures uses { Uses 0 (station_view self.old) (station_view self.new) }
        ensures faults { CountsFault result (station_view self.old).faults (station_view self.new).faults }
        ensures once { OnErr result ((station_view self.new).faults ≡ raised (station_view self.old).faults) }
        ensures called { IsCalled self.old self.new result }
        ensures synced { OnOk result (synced_reads self.new ≡ (station_view self.old).reads) }
        ensures same_synced { OnErr result (synced_reads self.new ≡ synced_reads self.old) }
    {
        if self.is_failing() {
            self.faults = self.faults.saturating_add(1);
            return Err(Failed);
        }
        if self.log.push(Event::Sync).is_err() {
            self.faults = self.faults.saturating_add(1);
            self.short = self.short.saturating_add(1);
            return Err(Failed);
        }
        self.synced = self.log.len();
        Ok(())
    }
}

impl Port for MemStation {
    ghost use Rattle.image_device.specs.MemStation.{station_view, is_failing, synced_reads, IsCalled};
    ghost use Rattle.image_device.specs.View.{IsLeftInPut};
    ghost use Rattle.image_device.specs.Calls.{Appends, Includes, Puts};
    ghost use Rattle.image_device.specs.Counts.{raised, CountsFault};
    ghost use Rattle.std.specs.Prelude.{◌≡◌, ◌≤◌, ◌<◌, ◌++◌, ℕ, length, take, OnOk, OnErr, IfOk};

    fn put(&mut self, piece: &[u8]) -> Result<usize, Failed>
        requires { 0 < length piece.now }
        ensures some { IfOk result (λ count. (0 < count) × (count ≤ length piece.now)) }
        ensures sent { IfOk result (λ count. (station_view self.new).sent ≡ (station_view self.old).sent
            ++ take count piece.now) }
        ensures part { OnErr result ((count : ℕ) × (count < length piece.now)
            × ((station_view self.new).sent ≡ (station_view self.old).sent ++ take count piece.now)) }
        ensures appends { Appends piece.now (station_view self.old) (station_view self.new) }
        ensures includes { OnOk result (Includes (station_view self.old) (station_view self.new)
            (IsLeftInPut piece.now (station_view self.old))) }
        ensures puts { Puts (station_view self.old) (station_view self.new) }
        ensures faults { CountsFault result (station_view self.old).put_faults (station_view self.new).put_faults }
        ensures once { OnErr result ((station_view self.new).put_faults ≡ raised (station_view self.old).put_faults) }
        ensures called { IsCalled self.old self.new result }
        ensures synced { synced_reads self.new ≡ synced_reads self.old }
        ensures all { IfOk result (λ count. count ≡ length piece.now) }
        ensures none { OnErr result ((station_view self.new).sent ≡ (station_view self.old).sent) }
    {
        if self.is_failing() {
            self.put_faults = self.put_faults.saturating_add(1);
            return Err(Failed);
        }
        if keep_piece(self.alloc, &mut self.log, &mut self.sent, piece).is_err() {
            self.put_faults = self.put_faults.saturating_add(1);
            self.short = self.short.saturating_add(1);
            return Err(Failed);
        }
        Ok(piece.len())
    }
}
