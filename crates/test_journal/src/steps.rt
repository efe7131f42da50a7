//! Worked runs: batches that fill homes with equal bytes, and what the homes then hold.

ghost use Rattle.std.specs.Prelude.{OnOk, []};
ghost use Rattle.intent_journal.specs.Ring.{IsRingAt};

use image_device::{Device, Failed};
use intent_journal::{Batch, BatchFull, ReplayFault, Replayed, Ring, is_lawful_home};
use std::alloc::Global;
use std::test::Fail;

/// New bytes for the homes from `first` on that are before `end`: each is filled with one byte.
#[derive(Clone, Copy, Debug)]
pub struct Step {
    pub first: u32,
    pub end: u32,
    pub fill: u8,
}

/// A step of one home.
pub const ONE: [Step; 1] = [Step {
    first: 131,
    end: 132,
    fill: 1,
}];

/// Makes a batch that of a step.
fn fill(batch: &mut Batch, step: &Step) -> Result<(), BatchFull> {
    batch.clear();
    for sector in step.first..step.end {
        if is_lawful_home(sector) {
            batch.put(sector, &[step.fill; 512])?;
        }
    }
    Ok(())
}

/// Syncs and replays.
pub fn open<D: Device>(dev: &mut D, ring: &mut Ring) -> Result<Replayed, ReplayFault>
    ensures { D.told → OnOk result (IsRingAt ring.new (D.view dev.new)) }
{
    dev.sync()?;
    ring.replay(dev)
}

/// Commits a batch for each step.
pub fn commit_all<D: Device>(
    dev: &mut D,
    ring: &mut Ring,
    batch: &mut Batch,
    steps: &[Step],
) -> Result<(), Failed>
    requires { D.told → IsRingAt ring.old (D.view dev.old) }
    ensures { D.told → OnOk result (IsRingAt ring.new (D.view dev.new)) }
{
    for step in steps {
        fill(batch, step).map_err(|_| Failed)?;
        ring.commit(dev, batch)?;
    }
    Ok(())
}

/// The byte that fills a sector as the ring reads it.
#[tactic(auto, using(intent_journal::proofs::Uses::at_rested))]
pub fn filled_over<D: Device>(dev: &mut D, ring: &Ring, sector: u32) -> Result<Option<u8>, Failed>
    requires { D.told → IsRingAt ring.now (D.view dev.old) }
    ensures { D.told → IsRingAt ring.now (D.view dev.new) }
{
    let mut bytes = [0; 512];
    ring.read(dev, sector, &mut bytes)?;
    Ok(fill_of(&bytes))
}

/// The byte that all of these are, None where they aren't all the same.
fn fill_of(bytes: &[u8; 512]) -> Option<u8> {
    if *bytes == [bytes[0]; 512] {
        Some(bytes[0])
    } else {
        None
    }
}

/// The byte that fills a sector, None where its bytes aren't all the same.
pub fn filled<D: Device>(dev: &mut D, sector: u32) -> Result<Option<u8>, Fail> {
    let mut bytes = [0; 512];
    dev.read(sector, &mut bytes)?;
    Ok(fill_of(&bytes))
}
