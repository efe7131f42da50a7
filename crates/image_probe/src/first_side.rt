//! The first of two images as a device that is only read.

ghost use Rattle.std.specs.Prelude.{◌≡◌};
ghost use Rattle.image_probe.specs.Reading.{OnlyReads, ReadCounts};
ghost use Rattle.mirror_device.specs.SidesView.{SidesView, untold_sides};

use image_device::{Device, Failed, WorkDone};
use mirror_device::{Side, Sides};
use std::marker::{Brand, PhantomData};

/// What two images were before the first of them was read, which proofs pick.
pub(crate) trait Before {
    ghost before: { SidesView };
}

impl Before for Brand {
    ghost before = { untold_sides 0 0 0 0 0 };
}

/// The first of two images as a device that is only read. A write is refused, which counts as a fault of it; a sync
/// does nothing. So code that knows it as a device alone leaves both images as they were.
#[derive(Drop)]
pub(crate) struct FirstSide<P: Sides, K: Before> {
    pub(crate) sides: P,
    before: PhantomData<K>,
    /// How often a write was refused, up to the greatest `u64`.
    pub(crate) refused: u64,
    ghost only_read: { P.told → ∥ OnlyReads K.before (P.view sides) ∥₁ },
    ghost counts: { ReadCounts K.before (P.view sides) },
}

impl<P: Sides, K: Before> FirstSide<P, K> {
    /// Two images of which nothing was read yet.
    pub(crate) fn new(sides: P) -> FirstSide<P, K>
        requires reads { P.told → OnlyReads K.before (P.view sides) }
        requires counts { ReadCounts K.before (P.view sides) }
        ensures sides { result.sides ≡ sides }
        ensures refused { result.refused ≡ 0 }
    {
        FirstSide {
            sides,
            before: PhantomData,
            refused: 0,
        }
    }

    /// Gives both back.
    pub(crate) fn into_sides(self) -> P
        ensures sides { result ≡ self.sides }
        ensures only_read { P.told → ∥ OnlyReads K.before (P.view result) ∥₁ }
        ensures counts { ReadCounts K.before (P.view result) }
    {
        let FirstSide {
            sides,
            before: _,
            refused: _,
        } = self;
        sides
    }
}

impl<P: Sides, K: Before> Device for FirstSide<P, K> {
    ghost use Rattle.std.specs.Prelude.{true, OnErr, OnOk};
    ghost use Rattle.image_device.specs.Calls.{Rests, Settles, Touches, Uses};
    ghost use Rattle.image_device.specs.Counts.{CountsFault};
    ghost use Rattle.image_device.specs.Runs.{IsFirm};
    ghost use Rattle.image_probe.specs.Still.{first_view, first_sound};

    ghost told = { P.told };

    ghost view = { λ s. first_view (P.view s.sides) s.refused };

    ghost sound = { λ s told. first_sound (P.view s.sides) s.refused (P.sound s.sides told) };

    fn read(&mut self, sector: u32, into: &mut [u8; 512]) -> Result<(), Failed> {
        self.sides.read(Side::First, sector, into)
    }

    fn write(&mut self, _sector: u32, _from: &[u8; 512]) -> Result<(), Failed> {
        self.refused = self.refused.saturating_add(1);
        Err(Failed)
    }

    fn sync(&mut self) -> Result<(), Failed> {
        Ok(())
    }

    fn show_work_done(&self, done: WorkDone) {
        self.sides.show_work_done(done);
    }
}
