//! Frames over an image that is opened for them alone.

ghost use Rattle.std.specs.Prelude.{◌≡◌, ◌≤◌, length};
ghost use Rattle.tsd_model.specs.Rank.{rank_of};
ghost use Rattle.tsd_model.specs.declared.requests.PlaceKind.TheVariants.{Near};

use crate::NO_MEMORY;
use crate::number::number_of;
use embedded_disk::serve_frames;
use place_policy::{Placement, near_rank};
use std::alloc::Global;
use tsd_map::{MapStation, SliceSource};
use tsd_model::PlaceKind;

/// Opens the disk of an image, answers the frames, those that fit as one batch, and lets go of the image. The replies
/// are put at the front of their room, one behind the other; `filled` tells how many bytes they have. A sync is asked
/// of the host by a byte to `ask`, and answered by a byte 1 from `answer`.
///
/// The number is the status's of `embedded_disk::serve_frames`.
#[unsafe(no_mangle)]
pub extern "C" fn tsd_c_batch(
    alloc: Global,
    image: &mut [u8],
    ask: i32,
    answer: i32,
    frames: &[u8],
    replies: &mut [u8],
    filled: &mut usize,
) -> u8
    ensures filled { filled.new ≤ length replies.old }
{
    *filled = 0;
    let room = replies.len();
    let near = match Box::new(
        alloc,
        |hint: u32, block: u32| -> u64
            ensures { result ≡ rank_of Near hint block }
        { near_rank(hint, block) },
    ) {
        Ok(rank) => Placement::new(PlaceKind::Near, rank),
        Err(_) => return NO_MEMORY,
    };
    let mut station = MapStation::new(image, ask, answer, replies);
    let mut source = SliceSource::new(frames);
    let status = serve_frames(alloc, &near, &mut source, &mut station);
    *filled = station.filled().min(room);
    number_of(status)
}
