// A station that stops after some calls.
ghost use Rattle.std.specs.Prelude.{◌≡◌, ◌<◌, ◌-◌, ◌↔◌, IsTrue};

use crate::{Device, Failed, MemStation, Pick, Port};

/// A station in memory that passes some calls and then fails each, as a machine that stops.
#[derive(Drop)]
pub struct FuseStation {
    inner: MemStation,
    passes: u64,
    pick: Pick,
    faults: u64,
    put_faults: u64,
}

impl FuseStation {
    ghost use Rattle.image_device.specs.FuseStation.{fuse_view, own_faults_of, own_put_faults_of, passes_of, pick_of};
    ghost use Rattle.image_device.specs.FuseStation.{inner_of};
    ghost use Rattle.image_device.specs.MemStation.{failing_of, station_view, synced_reads, IsUnused};
    ghost use Rattle.image_device.specs.Image.{IsImage};
    ghost use Rattle.std.specs.Prelude.{◌≡◌, [], ℕ, true, replicate};

    /// Passes so many calls of the device and of the port to the station within, and then fails
    /// each. `pick` says what `into_image` leaves in loose sectors.
    pub fn new(inner: MemStation, passes: u64, pick: Pick) -> FuseStation
        ensures within { inner_of result ≡ inner }
        ensures passes { passes_of result ≡ passes }
        ensures pick { pick_of result ≡ pick }
        ensures faults { (fuse_view result).faults ≡ (station_view inner).faults }
        ensures put_faults { (fuse_view result).put_faults ≡ (station_view inner).put_faults }
        ensures own_faults { own_faults_of result ≡ 0 }
        ensures own_put_faults { own_put_faults_of result ≡ 0 }
    {
        FuseStation {
            inner,
            passes,
            pick,
            faults: 0,
            put_faults: 0,
        }
    }

    /// The bytes put so far.
    pub fn sent(&self) -> &[u8]
        ensures { result.now ≡ (fuse_view self.now).sent }
    {
        self.inner.sent()
    }

    /// A station with nothing loose and no failing calls that begins as one crash image of this
    /// one, and has sent nothing.
    pub fn into_image(self) -> MemStation
        /// promise (with left): A station that begins as one crash image, which is among those left at that moment, and
        /// that has sent nothing.
        ensures image { IsImage (fuse_view self).reads (fuse_view self).loose (station_view result).reads }
        ensures left { (fuse_view self).left (fuse_view self).clock (station_view result).reads (fuse_view self).sent }
        /// promise (with new, torn): Each loose sector holds what the last sync held, what was last written, or 512
        /// equal bytes, as was chosen.
        ensures old { pick_of self ≡ Pick.Old → (station_view result).reads ≡ synced_reads (inner_of self) }
        ensures new { pick_of self ≡ Pick.New → (station_view result).reads ≡ (fuse_view self).reads }
        ensures torn { (b : ℕ) → pick_of self ≡ Pick.Torn b → (n : ℕ) → (fuse_view self).loose n ≡ true
            → (station_view result).reads n ≡ replicate 512 b }
        ensures unused { IsUnused result }
        ensures fail { failing_of result ≡ [] }
    {
        let FuseStation {
            inner,
            passes: _,
            pick,
            faults: _,
            put_faults: _,
        } = self;
        inner.into_image(pick)
    }

    /// Counts a call, and gives whether it passes.
    fn is_passing(&mut self) -> bool
        ensures counted { self.new ≡ record self.old { passes = self.old.passes - 1 } }
        ensures answer { IsTrue result ↔ (0 < self.old.passes) }
    {
        if self.passes == 0 {
            return false;
        }
        self.passes -= 1;
        true
    }
}

impl Device for FuseStation {
    ghost use Rattle.image_device.specs.FuseStation.{fuse_sound, fuse_view, inner_of, IsPassed};
    ghost use Rattle.image_device.specs.MemStation.{synced_reads};
    ghost use Rattle.image_device.specs.Calls.{Rests, Settles, Touches, Uses};
    ghost use Rattle.image_device.specs.Runs.{IsFirm};
    ghost use Rattle.image_device.specs.Counts.{raised, CountsFault};
    ghost use Rattle.std.specs.Prelude.{◌≡◌, true, OnOk, OnErr};

    ghost told = { Unit {0} };

    ghost view = { fuse_view };

    ghost sound = { λ d told. fuse_sound d };

    fn read(&mut self, sector: u32, into: &mut [u8; 512]) -> Result<(), Failed>
        ensures bytes { OnOk result (into.new ≡ (fuse_view self.old).reads sector) }
        ensures kept { OnErr result (into.new ≡ into.old) }
        ensures rests { Rests (fuse_view self.old) (fuse_view self.new) }
        ensures uses { Uses 0 (fuse_view self.old) (fuse_view self.new) }
        ensures faults { CountsFault result (fuse_view self.old).faults (fuse_view self.new).faults }
        ensures once { OnErr result ((fuse_view self.new).faults ≡ raised (fuse_view self.old).faults) }
        ensures passed { IsPassed self.old self.new result }
        ensures synced { synced_reads (inner_of self.new) ≡ synced_reads (inner_of self.old) }
    {
        if !self.is_passing() {
            self.faults = self.faults.saturating_add(1);
            return Err(Failed);
        }
        self.inner.read(sector, into)
    }

    fn write(&mut self, sector: u32, from: &[u8; 512]) -> Result<(), Failed>
        ensures written { OnOk result ((fuse_view self.new).reads sector ≡ from.now) }
        ensures loose { OnOk result ((fuse_view self.new).loose sector ≡ true) }
        ensures touches { Touches sector (fuse_view self.old) (fuse_view self.new) }
        ensures uses { Uses 1 (fuse_view self.old) (fuse_view self.new) }
        ensures faults { CountsFault result (fuse_view self.old).faults (fuse_view self.new).faults }
        ensures once { OnErr result ((fuse_view self.new).faults ≡ raised (fuse_view self.old).faults) }
        ensures passed { IsPassed self.old self.new result }
        ensures synced { synced_reads (inner_of self.new) ≡ synced_reads (inner_of self.old) }
    {
        if !self.is_passing() {
            self.faults = self.faults.saturating_add(1);
            return Err(Failed);
        }
        self.inner.write(sector, from)
    }

    fn sync(&mut self) -> Result<(), Failed>
        ensures firm { OnOk result (IsFirm (fuse_view self.new)) }
        ensures loose { OnErr result ((fuse_view self.new).loose ≡ (fuse_view self.old).loose) }
        ensures settles { Settles (fuse_view self.old) (fuse_view self.new) }
        ensures uses { Uses 0 (fuse_view self.old) (fuse_view self.new) }
        ensures faults { CountsFault result (fuse_view self.old).faults (fuse_view self.new).faults }
        ensures once { OnErr result ((fuse_view self.new).faults ≡ raised (fuse_view self.old).faults) }
        ensures passed { IsPassed self.old self.new result }
        ensures synced { OnOk result (synced_reads (inner_of self.new) ≡ (fuse_view self.old).reads) }
        ensures same_synced { OnErr result (synced_reads (inner_of self.new) ≡ synced_reads (inner_of self.old)) }
    {
        if !self.is_passing() {
            self.faults = self.faults.saturating_add(1);
            return Err(Failed);
        }
        self.inner.sync()
    }
}

impl Port for FuseStation {
    ghost use Rattle.image_device.specs.FuseStation.{fuse_view, inner_of, IsPassed};
    ghost use Rattle.image_device.specs.MemStation.{synced_reads};
    ghost use Rattle.image_device.specs.View.{IsLeftInPut};
    ghost use Rattle.image_device.specs.Calls.{Appends, Includes, Puts};
    ghost use Rattle.image_device.specs.Counts.{raised, CountsFault};
    ghost use Rattle.std.specs.Prelude.{◌≡◌, ◌≤◌, ◌<◌, ◌++◌, ℕ, length, take, OnOk, OnErr, IfOk};

    fn put(&mut self, piece: &[u8]) -> Result<usize, Failed>
        requires { 0 < length piece.now }
        ensures some { IfOk result (λ count. (0 < count) × (count ≤ length piece.now)) }
        ensures sent { IfOk result (λ count. (fuse_view self.new).sent ≡ (fuse_view self.old).sent
            ++ take count piece.now) }
        ensures part { OnErr result ((count : ℕ) × (count < length piece.now)
            × ((fuse_view self.new).sent ≡ (fuse_view self.old).sent ++ take count piece.now)) }
        ensures appends { Appends piece.now (fuse_view self.old) (fuse_view self.new) }
        ensures includes { OnOk result (Includes (fuse_view self.old) (fuse_view self.new)
            (IsLeftInPut piece.now (fuse_view self.old))) }
        ensures puts { Puts (fuse_view self.old) (fuse_view self.new) }
        ensures faults { CountsFault result (fuse_view self.old).put_faults (fuse_view self.new).put_faults }
        ensures once { OnErr result ((fuse_view self.new).put_faults ≡ raised (fuse_view self.old).put_faults) }
        ensures passed { IsPassed self.old self.new result }
        ensures synced { synced_reads (inner_of self.new) ≡ synced_reads (inner_of self.old) }
        ensures all { IfOk result (λ count. count ≡ length piece.now) }
        ensures none { OnErr result ((fuse_view self.new).sent ≡ (fuse_view self.old).sent) }
    {
        if !self.is_passing() {
            self.put_faults = self.put_faults.saturating_add(1);
            return Err(Failed);
        }
        self.inner.put(piece)
    }
}
