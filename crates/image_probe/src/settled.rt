//! The first of two images as it is to read once its journal is in place.

ghost use Rattle.std.specs.Prelude.{◌≡◌, true, false};
ghost use Rattle.intent_journal.specs.Home.{is_journal};
ghost use Rattle.intent_journal.specs.Records.{has_valid_records, is_gate_open};

use crate::first_side::{Before, FirstSide};
use image_device::{Device, Failed, WorkDone};
use image_layout::sectors::{FORMAT_GATE, SWEEP_FLAG};
use intent_journal::{ReplayFault, Ring};
use mirror_device::Sides;

/// The first of two images as a device that reads what each sector is to hold once the open records of its journal are
/// in place, and that reads every gate as closed. It is only read, as that one is.
#[derive(Drop)]
pub(crate) struct Settled<P: Sides, K: Before> {
    pub(crate) first: FirstSide<P, K>,
    ring: Ring,
    /// Whether no record is open.
    is_closed: bool,
    /// How often a write was refused, up to the greatest `u64`.
    refused: u64,
    ghost valid: { P.told → has_valid_records (P.view first.sides).first.reads ≡ true },
    ghost closed: { P.told → is_closed ≡ true → is_gate_open (P.view first.sides).first.reads 0 ≡ false },
}

impl<P: Sides, K: Before> Settled<P, K> {
    /// Over an image whose open records are valid.
    pub(crate) fn new(first: FirstSide<P, K>, ring: Ring, is_closed: bool) -> Settled<P, K>
        requires valid { P.told → has_valid_records (P.view first.sides).first.reads ≡ true }
        requires closed { P.told → is_closed ≡ true → is_gate_open (P.view first.sides).first.reads 0 ≡ false }
        ensures first { result.first ≡ first }
        ensures refused { result.refused ≡ 0 }
    {
        Settled {
            first,
            ring,
            is_closed,
            refused: 0,
        }
    }

    /// Gives the image back.
    pub(crate) fn into_first(self) -> FirstSide<P, K>
        ensures { result ≡ self.first }
    {
        let Settled {
            first,
            ring: _,
            is_closed: _,
            refused: _,
        } = self;
        first
    }
}

/// Whether a sector is one of the journal.
fn is_of_journal(sector: u32) -> bool
    ensures { result ≡ is_journal sector }
{
    FORMAT_GATE < sector && sector < SWEEP_FLAG
}

impl<P: Sides, K: Before> Device for Settled<P, K> {
    ghost use Rattle.std.specs.Prelude.{OnErr, OnOk};
    ghost use Rattle.image_device.specs.Calls.{Rests, Settles, Touches, Uses};
    ghost use Rattle.image_device.specs.Counts.{CountsFault};
    ghost use Rattle.image_device.specs.Runs.{IsFirm};
    ghost use Rattle.image_probe.specs.Still.{settled_view, settled_sound};

    ghost told = { P.told };

    ghost view = { λ s. settled_view (P.view s.first.sides) s.first.refused s.refused };

    ghost sound = { λ s told.
        settled_sound (P.view s.first.sides) s.first.refused s.refused (P.sound s.first.sides told) };

    fn read(&mut self, sector: u32, into: &mut [u8; 512]) -> Result<(), Failed> {
        if is_of_journal(sector) {
            *into = [0; 512];
            return Ok(());
        }
        if self.is_closed {
            return self.first.read(sector, into);
        }
        match self.ring.look(&mut self.first, sector, into) {
            Ok(()) => Ok(()),
            Err(ReplayFault::BadDescriptor) => self.first.read(sector, into),
            Err(ReplayFault::Device) => Err(Failed),
        }
    }

    fn write(&mut self, _sector: u32, _from: &[u8; 512]) -> Result<(), Failed> {
        self.refused = self.refused.saturating_add(1);
        Err(Failed)
    }

    fn sync(&mut self) -> Result<(), Failed> {
        Ok(())
    }

    fn show_work_done(&self, done: WorkDone) {
        self.first.show_work_done(done);
    }
}
