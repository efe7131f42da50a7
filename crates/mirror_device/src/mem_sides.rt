// Two stations in memory whose calls are numbered together.
ghost use Rattle.std.specs.Prelude.{◌≡◌};
ghost use Rattle.image_device.specs.Counts.{raised, CountsFault};
ghost use Rattle.mirror_device.specs.Numbers.{is_one_of};

use crate::side::{Side, SideCounts};
use crate::sides::Sides;
use crate::twins::Twins;
use image_device::{Failed, MemStation, Pick};
use std::alloc::Global;

/// Counts a call, and gives whether it is one of those that fail.
fn is_failing(fail: &Vec<u64>, calls: &mut u64) -> bool
    ensures counted { calls.new ≡ raised calls.old }
    ensures failing { result ≡ is_one_of calls.old fail.now.items }
{
    let number = *calls;
    *calls = number.saturating_add(1);
    fail.as_slice().contains(&number)
}

/// Two disks and a port in memory, all zeros at first, which hold only what was written. They keep all
/// that was done to them, and so tell what a crash may have left since any moment. Where memory is too
/// short to record a failed call, its side's count of faults rises to the greatest `u64`, and from then
/// on every call that would be recorded fails for want of memory.
#[derive(Drop)]
pub struct MemSides {
    twins: Twins,
    fail: Vec<u64>,
    calls: u64,
    short: u64,
}

impl MemSides {
    ghost use Rattle.std.specs.Prelude.{ℕ, true, [], replicate, OnOk, OnErr};
    ghost use Rattle.image_device.specs.History.{firmed};
    ghost use Rattle.image_device.specs.Image.{put_at, zeros, IsImage};
    ghost use Rattle.image_device.specs.MemStation.{station_view, IsUnused, failing_of as station_failing};
    ghost use Rattle.mirror_device.specs.SidesView.{other, side_of, IsItemNow};
    ghost use Rattle.mirror_device.specs.SideCalls.{SidesElapse};
    ghost use Rattle.mirror_device.specs.MemSide.{blank_side};
    ghost use Rattle.mirror_device.specs.MemSides.{calls_of, done_of, failing_of, mem_view, short_of, synced_of};
    ghost use Rattle.mirror_device.specs.MemSides.{IsRecorded};

    /// Two disks of zeros, with nothing sent. Their calls and the puts are numbered together from 0,
    /// and those in `fail` fail.
    pub fn new(alloc: Global, fail: Vec<u64>) -> MemSides
        /// promise (with second, synced, sent): Two disks of zeros, in memory, of which nothing was written: a loose
        /// sector that a crash before the first sync leaves as the last sync held it reads as zeros.
        ensures first { (mem_view result).first ≡ blank_side }
        ensures second { (mem_view result).second ≡ blank_side }
        ensures synced { (s : Side) → synced_of s result ≡ (λ n. zeros) }
        ensures sent { (mem_view result).sent ≡ [] }
        ensures clock { (mem_view result).clock ≡ 0 }
        ensures put_faults { (mem_view result).put_faults ≡ 0 }
        ensures recorded { IsRecorded result }
        ensures calls { calls_of result ≡ 0 }
        ensures short { short_of result ≡ 0 }
        ensures fail { failing_of result ≡ fail.items }
    {
        MemSides {
            twins: Twins::new(alloc),
            fail,
            calls: 0,
            short: 0,
        }
    }

    /// The bytes put so far.
    pub fn sent(&self) -> &[u8]
        ensures { result.now ≡ (mem_view self.now).sent }
    {
        self.twins.sent()
    }

    /// How many calls came, up to the greatest `u64`.
    pub fn calls(&self) -> u64
        ensures { result ≡ calls_of self.now }
    {
        self.calls
    }

    /// How often a call failed because memory was short.
    pub fn short(&self) -> u64
        ensures { result ≡ short_of self.now }
    {
        self.short
    }

    /// Sets a sector of a side as a damaged image would have it, which makes nothing loose. It is no
    /// call of the sides, and `Failed` comes only where `short` rose.
    pub fn poke(&mut self, side: Side, sector: u32, from: &[u8; 512]) -> Result<(), Failed>
        ensures reads { OnOk result ((side_of side (mem_view self.new)).reads ≡ put_at sector from.now
            (side_of side (mem_view self.old)).reads) }
        ensures loose { OnOk result ((side_of side (mem_view self.new)).loose ≡ firmed sector
            (side_of side (mem_view self.old)).loose) }
        ensures synced { OnOk result (synced_of side self.new ≡ put_at sector from.now (synced_of side self.old)) }
        ensures other_synced { synced_of (other side) self.new ≡ synced_of (other side) self.old }
        ensures others { side_of (other side) (mem_view self.new) ≡ side_of (other side) (mem_view self.old) }
        ensures faults { (side_of side (mem_view self.new)).faults ≡ (side_of side (mem_view self.old)).faults }
        ensures syncs { (side_of side (mem_view self.new)).syncs ≡ (side_of side (mem_view self.old)).syncs }
        ensures writes { (side_of side (mem_view self.new)).writes ≡ (side_of side (mem_view self.old)).writes }
        ensures sent { (mem_view self.new).sent ≡ (mem_view self.old).sent }
        ensures put_faults { (mem_view self.new).put_faults ≡ (mem_view self.old).put_faults }
        ensures time { SidesElapse (mem_view self.old) (mem_view self.new) (IsItemNow (mem_view self.old)) }
        ensures unchanged { OnErr result (done_of self.new ≡ done_of self.old) }
        ensures same_synced { OnErr result (synced_of side self.new ≡ synced_of side self.old) }
        ensures calls { calls_of self.new ≡ calls_of self.old }
        ensures fail { failing_of self.new ≡ failing_of self.old }
        ensures short { OnOk result (short_of self.new ≡ short_of self.old) }
        ensures cause { OnErr result (short_of self.new ≡ raised (short_of self.old)) }
    {
        if self.twins.poke(side, sector, from).is_err() {
            self.short = self.short.saturating_add(1);
            return Err(Failed);
        }
        Ok(())
    }

    /// One side as a station with nothing loose and no failing calls. `pick` says what is in the
    /// sectors of the side that were loose.
    pub fn into_side(self, side: Side, pick: Pick) -> MemStation
        /// promise: One side as a crash leaves it.
        ensures image { IsImage (side_of side (mem_view self)).reads (side_of side (mem_view self)).loose
            (station_view result).reads }
        ensures old { pick ≡ Pick.Old → (station_view result).reads ≡ synced_of side self }
        ensures new { pick ≡ Pick.New → (station_view result).reads ≡ (side_of side (mem_view self)).reads }
        ensures torn { (b : ℕ) → pick ≡ Pick.Torn b → (n : ℕ) → (side_of side (mem_view self)).loose n
            ≡ true → (station_view result).reads n ≡ replicate 512 b }
        ensures unused { IsUnused result }
        ensures fail { station_failing result ≡ [] }
    {
        let MemSides {
            twins,
            fail: _,
            calls: _,
            short: _,
        } = self;
        twins.into_side(side, pick)
    }
}

impl Sides for MemSides {
    ghost use Rattle.std.specs.Prelude.{◌<◌, ◌≤◌, ◌^◌, ◌++◌, ℕ, true, false, length, take, IfOk};
    ghost use Rattle.std.specs.Prelude.{IsOk, OnOk, OnErr};
    ghost use Rattle.image_device.specs.Counts.{raised, CountsFault};
    ghost use Rattle.image_device.specs.Image.{zeros};
    ghost use Rattle.mirror_device.specs.SidesView.{other, side_of};
    ghost use Rattle.mirror_device.specs.SideCalls.{CountsWrite, IncludesPut, IsSideFirm, SideRests, SideSettles};
    ghost use Rattle.mirror_device.specs.SideCalls.{SideSyncs};
    ghost use Rattle.mirror_device.specs.SideCalls.{SidesAppend, SidesPut, SideTouches, SideUses};
    ghost use Rattle.mirror_device.specs.MemSides.{is_failing, mem_sound, mem_view, synced_of, IsCalled, IsRecorded};

    ghost told = { Unit {0} };

    ghost view = { mem_view };

    ghost sound = { λ s told. mem_sound s };

    fn read(&mut self, side: Side, sector: u32, into: &mut [u8; 512]) -> Result<(), Failed>
        ensures bytes { OnOk result (into.new ≡ (side_of side (mem_view self.old)).reads sector) }
        ensures kept { OnErr result (into.new ≡ into.old) }
        ensures rests { SideRests side (mem_view self.old) (mem_view self.new) }
        ensures uses { SideUses side (mem_view self.old) (mem_view self.new) }
        ensures faults { CountsFault result (side_of side (mem_view self.old)).faults
            (side_of side (mem_view self.new)).faults }
        ensures once { IsRecorded self.new → OnErr result ((side_of side (mem_view self.new)).faults
            ≡ raised (side_of side (mem_view self.old)).faults) }
        ensures called { IsCalled self.old self.new result }
        ensures synced { (s : Side) → synced_of s self.new ≡ synced_of s self.old }
        ensures answers { is_failing self.old ≡ false → IsOk result }
    {
        if is_failing(&self.fail, &mut self.calls) {
            self.twins.blame(side);
            return Err(Failed);
        }
        self.twins.read(side, sector, into);
        Ok(())
    }

    fn write(&mut self, side: Side, sector: u32, from: &[u8; 512]) -> Result<(), Failed>
        ensures written { OnOk result ((side_of side (mem_view self.new)).reads sector ≡ from.now) }
        ensures loose { OnOk result ((side_of side (mem_view self.new)).loose sector ≡ true) }
        ensures counted { CountsWrite result (side_of side (mem_view self.old)).writes
            (side_of side (mem_view self.new)).writes }
        ensures touches { SideTouches side sector (mem_view self.old) (mem_view self.new) }
        ensures uses { SideUses side (mem_view self.old) (mem_view self.new) }
        ensures faults { CountsFault result (side_of side (mem_view self.old)).faults
            (side_of side (mem_view self.new)).faults }
        ensures once { IsRecorded self.new → OnErr result ((side_of side (mem_view self.new)).faults
            ≡ raised (side_of side (mem_view self.old)).faults) }
        ensures rests { OnErr result (SideRests side (mem_view self.old) (mem_view self.new)) }
        ensures called { IsCalled self.old self.new result }
        ensures synced { (s : Side) → synced_of s self.new ≡ synced_of s self.old }
    {
        if is_failing(&self.fail, &mut self.calls) {
            self.twins.blame(side);
            return Err(Failed);
        }
        if self.twins.write(side, sector, from).is_err() {
            self.twins.blame(side);
            self.short = self.short.saturating_add(1);
            return Err(Failed);
        }
        Ok(())
    }

    fn sync(&mut self, side: Side) -> Result<(), Failed>
        ensures firm { OnOk result (IsSideFirm side (mem_view self.new)) }
        ensures loose { OnErr result ((side_of side (mem_view self.new)).loose
            ≡ (side_of side (mem_view self.old)).loose) }
        ensures settles { SideSettles side (mem_view self.old) (mem_view self.new) }
        ensures uses { SideSyncs side (mem_view self.old) (mem_view self.new) }
        ensures synced { OnOk result ((side_of side (mem_view self.new)).syncs
            ≡ raised (side_of side (mem_view self.old)).syncs) }
        ensures not_synced { OnErr result ((side_of side (mem_view self.new)).syncs
            ≡ (side_of side (mem_view self.old)).syncs) }
        ensures faults { CountsFault result (side_of side (mem_view self.old)).faults
            (side_of side (mem_view self.new)).faults }
        ensures once { IsRecorded self.new → OnErr result ((side_of side (mem_view self.new)).faults
            ≡ raised (side_of side (mem_view self.old)).faults) }
        ensures called { IsCalled self.old self.new result }
        ensures synced_reads { OnOk result (synced_of side self.new ≡ (side_of side (mem_view self.old)).reads) }
        ensures other_synced { synced_of (other side) self.new ≡ synced_of (other side) self.old }
        ensures same_synced { OnErr result (synced_of side self.new ≡ synced_of side self.old) }
    {
        if is_failing(&self.fail, &mut self.calls) {
            self.twins.blame(side);
            return Err(Failed);
        }
        if self.twins.sync(side).is_err() {
            self.twins.blame(side);
            self.short = self.short.saturating_add(1);
            return Err(Failed);
        }
        Ok(())
    }

    fn end(&mut self, side: Side) -> Result<u64, Failed>
        ensures range { IfOk result (λ end. end ≤ 2 ^ 32) }
        ensures zeros { IfOk result (λ end. (n : ℕ) → end ≤ n → (side_of side (mem_view self.old)).reads n
            ≡ zeros) }
        ensures rests { SideRests side (mem_view self.old) (mem_view self.new) }
        ensures uses { SideUses side (mem_view self.old) (mem_view self.new) }
        ensures faults { CountsFault result (side_of side (mem_view self.old)).faults
            (side_of side (mem_view self.new)).faults }
        ensures once { IsRecorded self.new → OnErr result ((side_of side (mem_view self.new)).faults
            ≡ raised (side_of side (mem_view self.old)).faults) }
        ensures called { IsCalled self.old self.new result }
        ensures synced { (s : Side) → synced_of s self.new ≡ synced_of s self.old }
        ensures answers { is_failing self.old ≡ false → IsOk result }
    {
        if is_failing(&self.fail, &mut self.calls) {
            self.twins.blame(side);
            return Err(Failed);
        }
        Ok(self.twins.end(side))
    }

    fn seen(&self, side: Side) -> SideCounts {
        self.twins.seen(side)
    }

    fn put(&mut self, piece: &[u8]) -> Result<usize, Failed>
        requires { 0 < length piece.now }
        ensures some { IfOk result (λ count. (0 < count) × (count ≤ length piece.now)) }
        ensures sent { IfOk result (λ count. (mem_view self.new).sent ≡ (mem_view self.old).sent
            ++ take count piece.now) }
        ensures part { OnErr result ((count : ℕ) × (count < length piece.now)
            × ((mem_view self.new).sent ≡ (mem_view self.old).sent ++ take count piece.now)) }
        ensures appends { SidesAppend piece.now (mem_view self.old) (mem_view self.new) }
        ensures includes { OnOk result (IncludesPut piece.now (mem_view self.old) (mem_view self.new)) }
        ensures puts { SidesPut (mem_view self.old) (mem_view self.new) }
        ensures faults { CountsFault result (mem_view self.old).put_faults (mem_view self.new).put_faults }
        ensures once { OnErr result ((mem_view self.new).put_faults ≡ raised (mem_view self.old).put_faults) }
        ensures called { IsCalled self.old self.new result }
        ensures synced { (s : Side) → synced_of s self.new ≡ synced_of s self.old }
        ensures all { IfOk result (λ count. count ≡ length piece.now) }
        ensures none { OnErr result ((mem_view self.new).sent ≡ (mem_view self.old).sent) }
    {
        if is_failing(&self.fail, &mut self.calls) {
            self.twins.blame_put();
            return Err(Failed);
        }
        if self.twins.put(piece).is_err() {
            self.twins.blame_put();
            self.short = self.short.saturating_add(1);
            return Err(Failed);
        }
        Ok(piece.len())
    }
}
