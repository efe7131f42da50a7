// Two sides over which a mirror may begin to send.
ghost use Rattle.std.specs.Prelude.{[]};
ghost use Rattle.mirror_device.specs.Mirror.{Start};
ghost use Rattle.mirror_device.specs.Sending.{SendsLate};

use crate::side::{Side, SideCounts};
use crate::sides::Sides;
use image_device::{Failed, WorkDone};
use std::marker::{Brand, PhantomData};

/// The counts, the time and the bytes sent as a mirror of two sides began, which proofs pick.
pub trait Began {
    ghost start: { Start };
}

impl Began for Brand {
    ghost start = { record { first_faults = 0; second_faults = 0; second_syncs = 0; clock = 0; sent = [] } };
}

/// Two sides after the copying has ended, or after the second one failed in it.
#[derive(Drop)]
pub(crate) struct Ready<P: Sides, K: Began> {
    pub(crate) sides: P,
    pub(crate) began: PhantomData<K>,
    ghost late: { P.told → SendsLate (P.view sides) K.start },
}

impl<P: Sides, K: Began> Sides for Ready<P, K> {
    ghost told = { P.told };

    ghost view = { λ s. P.view s.sides };

    ghost sound = { λ s told. P.sound s.sides told };

    fn read(&mut self, side: Side, sector: u32, into: &mut [u8; 512]) -> Result<(), Failed> {
        self.sides.read(side, sector, into)
    }

    fn write(&mut self, side: Side, sector: u32, from: &[u8; 512]) -> Result<(), Failed> {
        self.sides.write(side, sector, from)
    }

    fn sync(&mut self, side: Side) -> Result<(), Failed> {
        self.sides.sync(side)
    }

    fn end(&mut self, side: Side) -> Result<u64, Failed> {
        self.sides.end(side)
    }

    fn seen(&self, side: Side) -> SideCounts {
        self.sides.seen(side)
    }

    fn put(&mut self, piece: &[u8]) -> Result<usize, Failed> {
        self.sides.put(piece)
    }

    fn show_work_done(&self, done: WorkDone) {
        self.sides.show_work_done(done);
    }
}
