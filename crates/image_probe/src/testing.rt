//! The tests of the first of two images.

ghost use Rattle.std.specs.Prelude.{◌≡◌, Ok};
ghost use Rattle.tsd_model.specs.Geometry.{IsLawful};
ghost use Rattle.image_device.specs.Calls.{Uses};
ghost use Rattle.image_device.specs.Counts.{CountsFaultOf};
ghost use Rattle.image_device.specs.Runs.{IsFirm};
ghost use Rattle.image_layout.specs.Areas.{header_sector};
ghost use Rattle.image_layout.specs.Header.{IsHeaderReading, IsVersion};
ghost use Rattle.image_probe.specs.Reading.{OnlyReads, ReadCounts};
ghost use Rattle.image_probe.specs.Tested.{IsTested};
ghost use Rattle.image_world.specs.Faults.{IsFormatGateOpen};
ghost use Rattle.intent_journal.specs.Records.{AreClosed};

use crate::first_side::{Before, FirstSide};
use crate::head::read_head;
use crate::settled::Settled;
use image_device::Device;
use image_layout::Header;
use intent_journal::Ring;
use mirror_device::Sides;
use recovery::OpenFault;
use std::alloc::Global;
use std::marker::Brand;
use volume::Volume;

/// Puts the first of two images through the tests of an image, by reads of it alone, and gives both back. `Image` comes
/// with the first test that it fails, exactly where it stands for no world; `Device` only where its count of faults
/// rose.
pub fn test_first<P: Sides>(alloc: Global, sides: P) -> (Result<(), OpenFault>, P)
    /// promise: Its answer is the first test that the first image fails, or Ok where it stands for a world.
    ensures tested { P.told → IsTested (P.view sides).first.reads result.0 }
    /// promise: It only reads the first image: the second one is as it was, with its counts, and a crash leaves of each
    /// what one before leaves.
    ensures only_reads { P.told → ∥ OnlyReads (P.view sides) (P.view result.1) ∥₁ }
    ensures counts { ReadCounts (P.view sides) (P.view result.1) }
    ensures faults { CountsFaultOf OpenFault.Device result.0 (P.view sides).first.faults
        (P.view result.1).first.faults }
{
    test_over::<P, Brand>(alloc, sides)
}

/// The same over images that were like this before some reads of the first one, or none.
fn test_over<P: Sides, K: Before>(alloc: Global, sides: P) -> (Result<(), OpenFault>, P)
    requires reads { P.told → OnlyReads K.before (P.view sides) }
    requires counts { ReadCounts K.before (P.view sides) }
    ensures tested { P.told → IsTested (P.view sides).first.reads result.0 }
    ensures only_reads { P.told → ∥ OnlyReads K.before (P.view result.1) ∥₁ }
    ensures counts { ReadCounts K.before (P.view result.1) }
    ensures faults { CountsFaultOf OpenFault.Device result.0 (P.view sides).first.faults
        (P.view result.1).first.faults }
{
    let mut first: FirstSide<P, K> = FirstSide::new(sides);
    let head = match read_head(alloc, &mut first) {
        Ok(head) => head,
        Err(why) => return (Err(why), first.into_sides()),
    };
    let mut settled = Settled::new(first, head.ring, head.is_closed);
    let tested = test_tables(alloc, &mut settled, &head.header);
    (tested, settled.into_first().into_sides())
}

/// Makes the tests of the tables of a disk on which no record is open. Nothing is written.
fn test_tables<D: Device>(alloc: Global, dev: &mut D, header: &Header) -> Result<(), OpenFault>
    requires version { IsVersion header.now.version }
    requires lawful { IsLawful header.now.geometry }
    requires firm { D.told → IsFirm (D.view dev.old) }
    requires formatted { D.told → IsFormatGateOpen (D.view dev.old).reads }
    requires closed { D.told → AreClosed (D.view dev.old).reads }
    requires header { D.told → IsHeaderReading ((D.view dev.old).reads header_sector) (Ok header.now) }
    ensures tested { D.told → IsTested (D.view dev.old).reads result }
    ensures uses { Uses 0 (D.view dev.old) (D.view dev.new) }
    ensures faults { CountsFaultOf OpenFault.Device result (D.view dev.old).faults (D.view dev.new).faults }
{
    let ring = Ring::new(alloc)?;
    let _volume = Volume::load(alloc, dev, header, ring)?;
    Ok(())
}
