// One of two stations in memory.
ghost use Rattle.std.specs.Prelude.{◌≡◌, ◌≤◌, ◌^◌, [], ℕ};
ghost use Rattle.image_device.specs.Image.{zeros};
ghost use Rattle.image_device.specs.MemStation.{failing_of, station_view};

use image_device::{Device, Failed, FuseStation, MemStation, Pick};
use std::alloc::Global;

/// A station in memory none of whose calls fail by number, with the counts of a side.
#[derive(Drop)]
pub(crate) struct MemSide {
    pub(crate) station: MemStation,
    pub(crate) faults: u64,
    pub(crate) syncs: u64,
    pub(crate) writes: u64,
    /// Above every sector that was ever written.
    pub(crate) end: u64,
    ghost willing: { failing_of station ≡ [] },
    ghost range: { end ≤ 2 ^ 32 },
    ghost rest: { (n : ℕ) → end ≤ n → (station_view station).reads n ≡ zeros },
}

impl MemSide {
    ghost use Rattle.std.specs.Prelude.{true, replicate, OnOk, OnErr};
    ghost use Rattle.mirror_device.specs.MemSide.{blank_side, poked, settled, side_view, synced_side, written};
    ghost use Rattle.image_device.specs.Image.{put_at, zeros, IsImage};
    ghost use Rattle.image_device.specs.MemStation.{IsUnused};

    /// A side of zeros.
    pub(crate) fn new(alloc: Global) -> MemSide
        ensures blank { side_view result ≡ blank_side }
        ensures synced { synced_side result ≡ (λ n. zeros) }
    {
        MemSide {
            station: MemStation::new(alloc, Vec::new(alloc)),
            faults: 0,
            syncs: 0,
            writes: 0,
            end: 0,
        }
    }

    /// Reads a sector.
    pub(crate) fn read(&mut self, sector: u32, into: &mut [u8; 512])
        ensures bytes { into.new ≡ (side_view self.old).reads sector }
        ensures same { side_view self.new ≡ side_view self.old }
        ensures synced { synced_side self.new ≡ synced_side self.old }
    {
        let _ = self.station.read(sector, into);
    }

    /// Writes a sector, or leaves all as it was.
    pub(crate) fn write(&mut self, sector: u32, from: &[u8; 512]) -> Result<(), Failed>
        ensures done { OnOk result (side_view self.new ≡ written sector from.now (side_view self.old)) }
        ensures same { OnErr result (side_view self.new ≡ side_view self.old) }
        ensures synced { synced_side self.new ≡ synced_side self.old }
    {
        self.end = self.end.max(sector as u64 + 1);
        self.station.write(sector, from)?;
        self.writes = self.writes.saturating_add(1);
        Ok(())
    }

    /// Makes all firm, or leaves all as it was.
    pub(crate) fn sync(&mut self) -> Result<(), Failed>
        ensures done { OnOk result (side_view self.new ≡ settled (side_view self.old)) }
        ensures same { OnErr result (side_view self.new ≡ side_view self.old) }
        ensures synced { OnOk result (synced_side self.new ≡ (side_view self.old).reads) }
        ensures same_synced { OnErr result (synced_side self.new ≡ synced_side self.old) }
    {
        self.station.sync()?;
        self.syncs = self.syncs.saturating_add(1);
        Ok(())
    }

    /// Sets a sector from outside, or leaves all as it was.
    pub(crate) fn poke(&mut self, sector: u32, from: &[u8; 512]) -> Result<(), Failed>
        ensures done { OnOk result (side_view self.new ≡ poked sector from.now (side_view self.old)) }
        ensures same { OnErr result (side_view self.new ≡ side_view self.old) }
        ensures synced { OnOk result (synced_side self.new ≡ put_at sector from.now (synced_side self.old)) }
        ensures same_synced { OnErr result (synced_side self.new ≡ synced_side self.old) }
    {
        self.end = self.end.max(sector as u64 + 1);
        self.station.poke(sector, from)
    }

    /// A station with nothing loose and no failing calls, as a crash leaves this one.
    pub(crate) fn into_image(self, pick: Pick) -> MemStation
        ensures image { IsImage (side_view self).reads (side_view self).loose (station_view result).reads }
        ensures old { pick ≡ Pick.Old → (station_view result).reads ≡ synced_side self }
        ensures new { pick ≡ Pick.New → (station_view result).reads ≡ (side_view self).reads }
        ensures torn { (b : ℕ) → pick ≡ Pick.Torn b → (n : ℕ) → (side_view self).loose n ≡ true
            → (station_view result).reads n ≡ replicate 512 b }
        ensures unused { IsUnused result }
        ensures fail { failing_of result ≡ [] }
    {
        let MemSide {
            station,
            faults: _,
            syncs: _,
            writes: _,
            end: _,
        } = self;
        FuseStation::new(station, 0, pick).into_image()
    }
}
