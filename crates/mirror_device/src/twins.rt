// Two stations in memory, and a record of all that was done to both.
ghost use Rattle.std.specs.Prelude.{◌≡◌};
ghost use Rattle.mirror_device.specs.History.{after, begun, with_lapse};
ghost use Rattle.mirror_device.specs.Pair.{pair_view};

use crate::entry::{Lapse, LogEntry, keep, make_room};
use crate::pair::Pair;
use crate::side::{Side, SideCounts};
use image_device::{MemStation, Pick};
use std::alloc::{AllocError, Global};

/// Two stations in memory and the bytes put beside them, with a record of all that was done, so that
/// they tell what a crash may have left since any moment.
#[derive(Drop)]
pub(crate) struct Twins {
    alloc: Global,
    pub(crate) pair: Pair,
    /// All that was done, the oldest first.
    log: Vec<LogEntry>,
    lapse: Lapse,
    put_faults: u64,
    ghost agrees: { after (with_lapse log.items lapse) begun ≡ pair_view pair },
}

impl Twins {
    ghost use Rattle.std.specs.Prelude.{◌≤◌, ◌^◌, [], ◌∷◌, ◌++◌, ℕ, true, replicate, OnOk, OnErr};
    ghost use Rattle.image_device.specs.Image.{put_at, zeros, IsImage};
    ghost use Rattle.image_device.specs.MemStation.{failing_of, station_view, IsUnused};
    ghost use Rattle.image_device.specs.Counts.{raised, Rose};
    ghost use Rattle.mirror_device.specs.declared.entry.LogEntry.TheVariants.{Poke, Put, Sync, Write};
    ghost use Rattle.mirror_device.specs.SidesView.{other, side_of};
    ghost use Rattle.mirror_device.specs.SideCalls.{SideRests, SideUses};
    ghost use Rattle.mirror_device.specs.Pair.{synced_on};
    ghost use Rattle.mirror_device.specs.Twins.{log_entries, twins_view};

    /// Two sides of zeros, to which nothing was done.
    pub(crate) fn new(alloc: Global) -> Twins
        ensures entries { log_entries result ≡ [] }
        ensures put_faults { result.put_faults ≡ 0 }
        ensures synced { (s : Side) → synced_on s result.pair ≡ (λ n. zeros) }
    {
        Twins {
            alloc,
            pair: Pair::new(alloc),
            log: Vec::new(alloc),
            lapse: Lapse::Never,
            put_faults: 0,
        }
    }

    /// Reads a sector of a side, which is no entry.
    pub(crate) fn read(&mut self, side: Side, sector: u32, into: &mut [u8; 512])
        ensures bytes { into.new ≡ (side_of side (twins_view self.old)).reads sector }
        ensures same { log_entries self.new ≡ log_entries self.old }
        ensures put_faults { self.new.put_faults ≡ self.old.put_faults }
        ensures synced { (s : Side) → synced_on s self.new.pair ≡ synced_on s self.old.pair }
    {
        self.pair.read(side, sector, into);
    }

    /// Writes a sector of a side, or leaves all as it was.
    pub(crate) fn write(
        &mut self,
        side: Side,
        sector: u32,
        from: &[u8; 512],
    ) -> Result<(), AllocError>
        ensures kept { OnOk result ((bytes : _) × (bytes.value ≡ from.now)
            × (log_entries self.new ≡ log_entries self.old ++ Write side sector bytes ∷ [])) }
        ensures same { OnErr result (log_entries self.new ≡ log_entries self.old) }
        ensures put_faults { self.new.put_faults ≡ self.old.put_faults }
        ensures synced { (s : Side) → synced_on s self.new.pair ≡ synced_on s self.old.pair }
    {
        make_room(&mut self.log, self.lapse)?;
        let bytes = Box::new(self.alloc, *from)?;
        if self.pair.write(side, sector, from).is_err() {
            return Err(AllocError);
        }
        keep(
            &mut self.log,
            LogEntry::Write {
                side,
                sector,
                bytes,
            },
        );
        Ok(())
    }

    /// Makes all of a side firm, or leaves all as it was.
    pub(crate) fn sync(&mut self, side: Side) -> Result<(), AllocError>
        ensures kept { OnOk result (log_entries self.new ≡ log_entries self.old ++ Sync side ∷ []) }
        ensures same { OnErr result (log_entries self.new ≡ log_entries self.old) }
        ensures put_faults { self.new.put_faults ≡ self.old.put_faults }
        ensures synced { OnOk result (synced_on side self.new.pair ≡ (side_of side (twins_view self.old)).reads) }
        ensures other_synced { synced_on (other side) self.new.pair ≡ synced_on (other side) self.old.pair }
        ensures same_synced { OnErr result (synced_on side self.new.pair ≡ synced_on side self.old.pair) }
    {
        make_room(&mut self.log, self.lapse)?;
        if self.pair.sync(side).is_err() {
            return Err(AllocError);
        }
        keep(&mut self.log, LogEntry::Sync { side });
        Ok(())
    }

    /// Sets a sector of a side from outside, or leaves all as it was.
    pub(crate) fn poke(
        &mut self,
        side: Side,
        sector: u32,
        from: &[u8; 512],
    ) -> Result<(), AllocError>
        ensures kept { OnOk result ((bytes : _) × (bytes.value ≡ from.now)
            × (log_entries self.new ≡ log_entries self.old ++ Poke side sector bytes ∷ [])) }
        ensures same { OnErr result (log_entries self.new ≡ log_entries self.old) }
        ensures put_faults { self.new.put_faults ≡ self.old.put_faults }
        ensures synced { OnOk result (synced_on side self.new.pair ≡ put_at sector from.now
            (synced_on side self.old.pair)) }
        ensures other_synced { synced_on (other side) self.new.pair ≡ synced_on (other side) self.old.pair }
        ensures same_synced { OnErr result (synced_on side self.new.pair ≡ synced_on side self.old.pair) }
    {
        make_room(&mut self.log, self.lapse)?;
        let bytes = Box::new(self.alloc, *from)?;
        if self.pair.poke(side, sector, from).is_err() {
            return Err(AllocError);
        }
        keep(
            &mut self.log,
            LogEntry::Poke {
                side,
                sector,
                bytes,
            },
        );
        Ok(())
    }

    /// Puts a piece, or leaves all as it was.
    pub(crate) fn put(&mut self, piece: &[u8]) -> Result<(), AllocError>
        ensures kept { OnOk result ((text : _) × (text.items ≡ piece.now)
            × (log_entries self.new ≡ log_entries self.old ++ Put text ∷ [])) }
        ensures same { OnErr result (log_entries self.new ≡ log_entries self.old) }
        ensures put_faults { self.new.put_faults ≡ self.old.put_faults }
        ensures synced { (s : Side) → synced_on s self.new.pair ≡ synced_on s self.old.pair }
    {
        make_room(&mut self.log, self.lapse)?;
        let kept = piece.to_vec(self.alloc)?;
        self.pair.put(piece)?;
        keep(&mut self.log, LogEntry::Put { piece: kept });
        Ok(())
    }

    /// Counts a failed call on a side. Where the record has no room for it the count rises to the
    /// greatest `u64`, and nothing is recorded from then on.
    pub(crate) fn blame(&mut self, side: Side)
        ensures rests { SideRests side (twins_view self.old) (twins_view self.new) }
        ensures uses { SideUses side (twins_view self.old) (twins_view self.new) }
        ensures cause { Rose (side_of side (twins_view self.old)).faults (side_of side (twins_view self.new)).faults }
        ensures once { self.new.lapse ≡ Lapse.Never → (side_of side (twins_view self.new)).faults
            ≡ raised (side_of side (twins_view self.old)).faults }
        ensures synced { (s : Side) → synced_on s self.new.pair ≡ synced_on s self.old.pair }
    {
        match self.lapse {
            Lapse::Never => {
                let faults = self.seen(side).faults.saturating_add(1);
                if self.log.push(LogEntry::Fail { side, faults }).is_ok() {
                    self.pair.blame(side, faults);
                    return;
                }
                self.pair.blame(side, u64::MAX);
                self.lapse = Lapse::Of(side);
            }
            Lapse::Of(lapsed) => {
                if lapsed != side {
                    self.pair.blame(side, u64::MAX);
                    self.lapse = Lapse::OfBoth(lapsed);
                }
            }
            Lapse::OfBoth(_) => {}
        }
    }

    /// Counts a failed put.
    pub(crate) fn blame_put(&mut self)
        ensures same { log_entries self.new ≡ log_entries self.old }
        ensures put_faults { self.new.put_faults ≡ raised self.old.put_faults }
        ensures later { self.old.put_faults ≤ self.new.put_faults }
        ensures synced { (s : Side) → synced_on s self.new.pair ≡ synced_on s self.old.pair }
    {
        self.put_faults = self.put_faults.saturating_add(1);
    }

    /// Both counts of a side.
    pub(crate) fn seen(&self, side: Side) -> SideCounts
        ensures faults { result.faults ≡ (side_of side (twins_view self.now)).faults }
        ensures syncs { result.syncs ≡ (side_of side (twins_view self.now)).syncs }
    {
        self.pair.seen(side)
    }

    /// A number from which on every sector of a side reads as zeros.
    pub(crate) fn end(&self, side: Side) -> u64
        ensures range { result ≤ 2 ^ 32 }
        ensures zeros { (n : ℕ) → result ≤ n → (side_of side (twins_view self.now)).reads n ≡ zeros }
    {
        self.pair.end(side)
    }

    /// The bytes put so far.
    pub(crate) fn sent(&self) -> &[u8]
        ensures { result.now ≡ (twins_view self.now).sent }
    {
        &self.pair.sent
    }

    /// One side with nothing loose and no failing calls, as a crash leaves it.
    pub(crate) fn into_side(self, side: Side, pick: Pick) -> MemStation
        ensures image { IsImage (side_of side (twins_view self)).reads (side_of side (twins_view self)).loose
            (station_view result).reads }
        ensures old { pick ≡ Pick.Old → (station_view result).reads ≡ synced_on side self.pair }
        ensures new { pick ≡ Pick.New → (station_view result).reads ≡ (side_of side (twins_view self)).reads }
        ensures torn { (b : ℕ) → pick ≡ Pick.Torn b → (n : ℕ) → (side_of side (twins_view self)).loose n
            ≡ true → (station_view result).reads n ≡ replicate 512 b }
        ensures unused { IsUnused result }
        ensures fail { failing_of result ≡ [] }
    {
        let Twins {
            alloc: _,
            pair,
            log: _,
            lapse: _,
            put_faults: _,
        } = self;
        pair.into_side(side, pick)
    }
}
