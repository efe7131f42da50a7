// Two stations in memory and the bytes put, without a record of what was done to them.
use crate::mem_side::MemSide;
use crate::side::{Side, SideCounts};
use image_device::{Failed, MemStation, Pick};
use std::alloc::{AllocError, Global};

/// Two stations in memory, and the bytes put beside them.
#[derive(Drop)]
pub(crate) struct Pair {
    pub(crate) first: MemSide,
    pub(crate) second: MemSide,
    pub(crate) sent: Vec<u8>,
}

impl Pair {
    ghost use Rattle.std.specs.Prelude.{◌≡◌, ◌≤◌, ◌^◌, ◌++◌, ℕ, true, [], replicate, OnOk, OnErr};
    ghost use Rattle.image_device.specs.Image.{put_at, zeros, IsImage};
    ghost use Rattle.image_device.specs.MemStation.{failing_of, station_view, IsUnused};
    ghost use Rattle.mirror_device.specs.MemSide.{blamed, poked, settled, written};
    ghost use Rattle.mirror_device.specs.SidesView.{other, side_of};
    ghost use Rattle.mirror_device.specs.History.{appended, begun, on, still};
    ghost use Rattle.mirror_device.specs.Pair.{pair_view, synced_on};

    /// Two sides of zeros.
    pub(crate) fn new(alloc: Global) -> Pair
        ensures begun { pair_view result ≡ begun }
        ensures synced { (s : Side) → synced_on s result ≡ (λ n. zeros) }
    {
        Pair {
            first: MemSide::new(alloc),
            second: MemSide::new(alloc),
            sent: Vec::new(alloc),
        }
    }

    /// Reads a sector of a side.
    pub(crate) fn read(&mut self, side: Side, sector: u32, into: &mut [u8; 512])
        ensures bytes { into.new ≡ (side_of side (still (pair_view self.old))).reads sector }
        ensures same { pair_view self.new ≡ pair_view self.old }
        ensures synced { (s : Side) → synced_on s self.new ≡ synced_on s self.old }
    {
        match side {
            Side::First => self.first.read(sector, into),
            Side::Second => self.second.read(sector, into),
        }
    }

    /// Writes a sector of a side, or leaves all as it was.
    pub(crate) fn write(&mut self, side: Side, sector: u32, from: &[u8; 512]) -> Result<(), Failed>
        ensures done { OnOk result (pair_view self.new ≡ on side (written sector from.now) (pair_view self.old)) }
        ensures same { OnErr result (pair_view self.new ≡ pair_view self.old) }
        ensures synced { (s : Side) → synced_on s self.new ≡ synced_on s self.old }
    {
        match side {
            Side::First => self.first.write(sector, from),
            Side::Second => self.second.write(sector, from),
        }
    }

    /// Makes all of a side firm, or leaves all as it was.
    pub(crate) fn sync(&mut self, side: Side) -> Result<(), Failed>
        ensures done { OnOk result (pair_view self.new ≡ on side settled (pair_view self.old)) }
        ensures same { OnErr result (pair_view self.new ≡ pair_view self.old) }
        ensures synced { OnOk result (synced_on side self.new ≡ (side_of side (still (pair_view self.old))).reads) }
        ensures other_synced { synced_on (other side) self.new ≡ synced_on (other side) self.old }
        ensures same_synced { OnErr result (synced_on side self.new ≡ synced_on side self.old) }
    {
        match side {
            Side::First => self.first.sync(),
            Side::Second => self.second.sync(),
        }
    }

    /// Sets a sector of a side from outside, or leaves all as it was.
    pub(crate) fn poke(&mut self, side: Side, sector: u32, from: &[u8; 512]) -> Result<(), Failed>
        ensures done { OnOk result (pair_view self.new ≡ on side (poked sector from.now) (pair_view self.old)) }
        ensures same { OnErr result (pair_view self.new ≡ pair_view self.old) }
        ensures synced { OnOk result (synced_on side self.new ≡ put_at sector from.now (synced_on side self.old)) }
        ensures other_synced { synced_on (other side) self.new ≡ synced_on (other side) self.old }
        ensures same_synced { OnErr result (synced_on side self.new ≡ synced_on side self.old) }
    {
        match side {
            Side::First => self.first.poke(sector, from),
            Side::Second => self.second.poke(sector, from),
        }
    }

    /// Puts a piece, or leaves all as it was.
    pub(crate) fn put(&mut self, piece: &[u8]) -> Result<(), AllocError>
        ensures done { OnOk result (pair_view self.new ≡ appended piece.now (pair_view self.old)) }
        ensures same { OnErr result (pair_view self.new ≡ pair_view self.old) }
        ensures synced { (s : Side) → synced_on s self.new ≡ synced_on s self.old }
    {
        self.sent.extend_from_slice(piece)
    }

    /// Raises the count of faults of a side to this.
    pub(crate) fn blame(&mut self, side: Side, faults: u64)
        ensures done { pair_view self.new ≡ on side (blamed faults) (pair_view self.old) }
        ensures synced { (s : Side) → synced_on s self.new ≡ synced_on s self.old }
    {
        match side {
            Side::First => self.first.faults = self.first.faults.max(faults),
            Side::Second => self.second.faults = self.second.faults.max(faults),
        }
    }

    /// Both counts of a side.
    pub(crate) fn seen(&self, side: Side) -> SideCounts
        ensures faults { result.faults ≡ (side_of side (still (pair_view self.now))).faults }
        ensures syncs { result.syncs ≡ (side_of side (still (pair_view self.now))).syncs }
    {
        let on = match side {
            Side::First => &self.first,
            Side::Second => &self.second,
        };
        SideCounts {
            faults: on.faults,
            syncs: on.syncs,
        }
    }

    /// A number from which on every sector of a side reads as zeros.
    pub(crate) fn end(&self, side: Side) -> u64
        ensures range { result ≤ 2 ^ 32 }
        ensures zeros { (n : ℕ) → result ≤ n → (side_of side (still (pair_view self.now))).reads n ≡ zeros }
    {
        match side {
            Side::First => self.first.end,
            Side::Second => self.second.end,
        }
    }

    /// One side with nothing loose and no failing calls, as a crash leaves it.
    pub(crate) fn into_side(self, side: Side, pick: Pick) -> MemStation
        ensures image { IsImage (side_of side (still (pair_view self))).reads
            (side_of side (still (pair_view self))).loose (station_view result).reads }
        ensures old { pick ≡ Pick.Old → (station_view result).reads ≡ synced_on side self }
        ensures new { pick ≡ Pick.New → (station_view result).reads
            ≡ (side_of side (still (pair_view self))).reads }
        ensures torn { (b : ℕ) → pick ≡ Pick.Torn b → (n : ℕ)
            → (side_of side (still (pair_view self))).loose n ≡ true → (station_view result).reads n
            ≡ replicate 512 b }
        ensures unused { IsUnused result }
        ensures fail { failing_of result ≡ [] }
    {
        let Pair {
            first,
            second,
            sent: _,
        } = self;
        match side {
            Side::First => first.into_image(pick),
            Side::Second => second.into_image(pick),
        }
    }
}
