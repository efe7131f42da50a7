//! One run over an image that is formatted first.

ghost use Rattle.std.specs.Prelude.{◌≡◌, ◌≤◌, ◌∷◌, []};
ghost use Rattle.image_device.specs.Runs.{IsFirm};
ghost use Rattle.image_runs.specs.Behind.{LeavesSameBehind};
ghost use Rattle.image_runs.specs.Fresh.{FreshRan, IsPromptFresh, single_world};
ghost use Rattle.serving.specs.Faults.{TellsFaults};
ghost use Rattle.serving.specs.Prompt.{IsOfPort};
ghost use Rattle.serving.specs.Ran.{EndsOnce, moments, taking};
ghost use Rattle.tsd_model.specs.Geometry.{IsLawful};

use crate::image::serve_image;
use image_device::{Port, Source};
use place_policy::Placement;
use recovery::format;
use serving::{INPUT_MAX, Protocol, Replies};
use std::alloc::Global;
use tsd_model::{CapList, CapPair, Geometry, Request};
use tsd_words::Status;

/// Formats an image with one primary block, of these capabilities, and then serves the requests of an input until it
/// ends, as [`serve_image`] does.
///
/// The status is DeviceFault where that count rose, NoMemory where none was found to open the image, or else how the
/// loop ended: Done, SourceFault or PutFault where that count rose, TooLong, or Truncated.
pub fn serve_fresh<S: Source, P: Port, R: Protocol<Request = Request> + Replies>(
    alloc: Global,
    geometry: &Geometry,
    caps: &CapPair,
    placement: &Placement,
    protocol: &mut R,
    source: &mut S,
    port: &mut P,
    limit: u64,
) -> Status
    requires lawful { IsLawful geometry.now }
    requires single { geometry.now.primaries ≡ 1 }
    requires few { limit ≤ INPUT_MAX }
    requires fresh { R.was_fed [] protocol.old }
    /// promise: As for `serve_image`, of a fresh disk that is formatted first; what a crash leaves of the format is
    /// said too.
    ensures ran { FreshRan result R.voice R.spelling placement.now.kind (single_world geometry.now caps.now) limit
        (taking S.told S.taken S.left_bytes S.ended source.old source.new) (moments P.told P.view port.old port.new) }
    // What is written before each reply has a bound, and what is written behind it; where the input was cut short,
    // nothing is done behind the last one but that.
    ensures prompt { P.told → IsPromptFresh result R.voice placement.now.kind (single_world geometry.now caps.now)
        (IsOfPort P.view) R.spelling limit (taking S.told S.taken S.left_bytes S.ended source.old source.new)
        (P.view port.old) (P.view port.new) }
    /// promise: In each image that a crash leaves, the sectors after the image are as they were, or are to be so once
    /// the records of the journal are in place.
    ensures behind { P.told → IsFirm (P.view port.old) → LeavesSameBehind geometry.now (P.view port.old)
        (P.view port.new) }
    ensures once { EndsOnce (S.ends source.old) (S.ends source.new) }
    ensures faults { TellsFaults result (S.faults source.old) (S.faults source.new) (P.view port.old)
        (P.view port.new) }
{
    match format(port, geometry, &one_pair(caps)) {
        Ok(()) => serve_image(alloc, placement, protocol, source, port, limit),
        Err(_) => Status::DeviceFault,
    }
}

/// A list of one pair.
fn one_pair(caps: &CapPair) -> CapList
    ensures { result ≡ caps.now ∷ [] }
{
    let mut list = CapList::new();
    let _fits = list.push(*caps);
    list
}
