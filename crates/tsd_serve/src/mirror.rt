//! The top call over two images as one disk.

ghost use Rattle.std.specs.Prelude.{◌≡◌, ◌≢◌, ◌↔◌, ◌⊎◌, map, string_bytes, None, Some};
ghost use Rattle.image_device.specs.Counts.{Rose};
ghost use Rattle.mirror_device.specs.Mirror.{start_at};
ghost use Rattle.mirror_device.specs.Sending.{CanRise, IsIdle};
ghost use Rattle.mirror_device.specs.SidesView.{Item};
ghost use Rattle.mirror_device.specs.declared.side.Serving.{Serving};
ghost use Rattle.serving.specs.Ran.{EndsOnce, moments, taking};
ghost use Rattle.tsd_serve.specs.MirrorDid.{AreSoundAtEnd, DidCopy, DidOver, HasFailed, MirrorHeadline, NoSideIsLeft};
ghost use Rattle.tsd_serve.specs.MirrorDid.{WritesWhatDiffers, lost_of};
ghost use Rattle.tsd_serve.specs.MirrorTest.{AreSpared, DidTest, OpensImage, StandsForNone, TellsWhatIsWrong};
ghost use Rattle.tsd_serve.specs.MirrorStatus.{own_status};
ghost use Rattle.tsd_words.specs.Words.{command_of};
ghost use Rattle.tsd_words.specs.declared.commands.Command.{Command as Words};

use crate::first::test_sides;
use crate::mirror_status::MirrorStatus;
use crate::top::obey;
use image_device::{Device, Source};
use mirror_device::{Began, Mirror, Side, Sides};
use place_policy::PlaceBook;
use std::alloc::Global;
use tsd_words::{Status, command};

/// Does what the words say over two images as one disk, with one port beside both. Where they open an image, the first
/// one is put through the tests of an image by reads alone. Then it copies the first image to the second and goes on
/// as [`tsd`](crate::tsd) does, on both; where a call on one of them fails, on the other alone. It gives both back.
/// A caller picks `K` by `Brand`.
pub fn tsd_mirror<S: Source, P: Sides + Drop, K: Began>(
    alloc: Global,
    words: &Vec<String>,
    source: &mut S,
    sides: P,
    places: &PlaceBook,
) -> (MirrorStatus, P)
    requires { K.start ≡ start_at (P.view sides) }
    // Usage comes exactly where the words are no command, and before any call.
    /// promise (with untouched_source, untouched_sides): Usage comes exactly where the words are no command, and before
    /// any call.
    ensures usage { (result.0 ≡ MirrorStatus.Ended Status.Usage) ↔ (command_of (map string_bytes words.now.items)
        ≡ None) }
    ensures untouched_source { result.0 ≡ MirrorStatus.Ended Status.Usage → source.new ≡ source.old }
    ensures untouched_sides { result.0 ≡ MirrorStatus.Ended Status.Usage → result.1 ≡ sides }
    /// promise: Any command does over the mirror, from when it began to its end, what it does over one image; or it
    /// ended in the tests of the first side; or that side failed in the copying, and nothing else was done. The
    /// copying, done before the mirror began, wrote no more sectors of the second side than differed.
    ensures did { result.0 ≢ MirrorStatus.Ended Status.Usage → let old = P.view sides in
        let new = P.view result.1 in
        let taken = taking S.told S.taken S.left_bytes S.ended source.old source.new in
        DidTest P.told (command_of (map string_bytes words.now.items)) result.0 taken old new
        ⊎ DidCopy P.told result.0 taken old new ⊎ ((c : Serving) × (m : _) × (n : _)
        × DidOver (command_of (map string_bytes words.now.items)) result.0 taken old new c
        (moments P.told ⟦<Mirror<P, K> as Device>⟧.view m n)
        × (P.told → WritesWhatDiffers old (P.view m.sides.sides))) }
    /// promise: **Where the first image stands for no world, a command that opens an image leaves both as they were**,
    /// at each moment, with what was loose before alone, and the second one with the same counts of syncs and faults.
    ensures spares_second { P.told → OpensImage (command_of (map string_bytes words.now.items))
        → StandsForNone (P.view sides).first.reads → AreSpared (P.view sides) (P.view result.1) }
    // The headline holds of each side that is sound, at each moment.
    /// promise: **For each item since the start, the copying included, the headline holds of each side that is sound in
    /// it and of the bytes sent by then**, with the world of the first side at the start; where neither is sound, of
    /// one side's image, the same side in all such items. Nothing is loose on the first side at the start, except for
    /// `fresh`.
    ensures headline { P.told → (command : Words) → command_of (map string_bytes words.now.items) ≡ Some command
        → MirrorHeadline command (taking S.told S.taken S.left_bytes S.ended source.old source.new) (P.view sides)
        (P.view result.1) }
    /// promise: Where bytes were sent by this call, the second side's syncs or faults are above those of the start,
    /// unless a command told what is wrong with the first image.
    ensures sends_late { P.told → (TellsWhatIsWrong (command_of (map string_bytes words.now.items))
        → StandsForNone (P.view sides).first.reads → ⊥) → CanRise (start_at (P.view sides)) → (i : Item)
        → (P.view result.1).left (P.view sides).clock i → IsIdle (start_at (P.view sides)) i.second
        → i.sent ≡ (P.view sides).sent }
    // By the status: which sides are sound at the end, and which one failed.
    /// promise: After Done both sides are sound; where one is a failed copy, the other one; and one of them at every
    /// end but a device fault.
    ensures sound { AreSoundAtEnd result.0 (P.view sides) (P.view result.1) }
    /// promise: A side is told as a failed copy exactly where the command did all its work and that side's count of
    /// faults rose (one that stood at the greatest `u64` counts as one that rose; so does, of the second side, that of
    /// syncs).
    ensures lost { (side : Side) → (result.0 ≡ MirrorStatus.SideLost side)
        ↔ ((own_status result.0 ≡ Status.Done) × HasFailed side (P.view sides) (P.view result.1)) }
    /// promise: A device fault comes only where the first side's count of faults rose in this call, and the second
    /// one's rose too or no sync of it answered Ok.
    ensures device_fault { result.0 ≡ MirrorStatus.Ended Status.DeviceFault
        → NoSideIsLeft (P.view sides) (P.view result.1) }
    // Nothing more is taken once the end was found.
    ensures once { EndsOnce (S.ends source.old) (S.ends source.new) }
    // A count of faults of the source, or of puts, rose only where the status is that fault's.
    /// promise (with put_fault, no_source_fault, no_put_fault): A count of faults of the source or of puts rose exactly
    /// where the status is that fault's.
    ensures source_fault { result.0 ≡ MirrorStatus.Ended Status.SourceFault
        → Rose (S.faults source.old) (S.faults source.new) }
    ensures put_fault { result.0 ≡ MirrorStatus.Ended Status.PutFault
        → Rose (P.view sides).put_faults (P.view result.1).put_faults }
    ensures no_source_fault { result.0 ≢ MirrorStatus.Ended Status.SourceFault
        → S.faults source.new ≡ S.faults source.old }
    ensures no_put_fault { result.0 ≢ MirrorStatus.Ended Status.PutFault
        → (P.view result.1).put_faults ≡ (P.view sides).put_faults }
{
    let words = match command(words) {
        Some(words) => words,
        None => return (MirrorStatus::Ended(Status::Usage), sides),
    };
    let sides = match test_sides(alloc, &words, sides) {
        Ok(sides) => sides,
        Err(end) => return (MirrorStatus::Ended(end.0), end.1),
    };
    let mut mirror: Mirror<P, K> = match Mirror::after_reads(sides) {
        Ok(mirror) => mirror,
        Err(sides) => return (MirrorStatus::Ended(Status::DeviceFault), sides),
    };
    let status = obey(alloc, words, source, &mut mirror, places);
    let status = MirrorStatus::of(status, lost_side(&mirror));
    (status, mirror.into_sides())
}

/// The side that is lost, if one is.
fn lost_side<P: Sides, K: Began>(mirror: &Mirror<P, K>) -> Option<Side>
    ensures { result ≡ lost_of mirror.now.serving }
{
    if mirror.lost(Side::First) {
        Some(Side::First)
    } else if mirror.lost(Side::Second) {
        Some(Side::Second)
    } else {
        None
    }
}
