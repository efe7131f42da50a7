//! A disk that stays open from call to call, with its sessions.

ghost use Rattle.std.specs.Prelude.{◌≡◌, ◌≢◌, ◌≤◌, ◌↔◌, ◌⊎◌, IsNone, IsSomeAnd, None, Some, false, length};
ghost use Rattle.tsd_model.specs.Rank.{rank_of};
ghost use Rattle.tsd_model.specs.declared.requests.PlaceKind.TheVariants.{Near};

use crate::handle::Handle;
use crate::number::number_of;
use crate::{CLOSED, DONE, NO_MEMORY};
use embedded_disk::OpenDisk;
use place_policy::{Placement, near_rank};
use std::alloc::Global;
use tsd_map::MapStation;
use tsd_model::PlaceKind;
use tsd_words::Status;

/// Opens the disk of an image, with no session open, and lets the handle hold it. What the handle held before is let
/// go. A sync is asked of the host by a byte to `ask`, and answered by a byte 1 from `answer`.
///
/// The number is 0 where it is open, or that of the status of `embedded_disk::OpenDisk::open`; then the handle is
/// empty.
#[unsafe(no_mangle)]
pub extern "C" fn tsd_c_open(
    alloc: Global,
    handle: &mut Handle,
    image: &mut [u8],
    ask: i32,
    answer: i32,
) -> u8
    ensures open { result ≡ 0 → IsSomeAnd handle.new.value (λ d. d.failed ≡ false) }
    ensures empty { result ≢ 0 → handle.new.value ≡ None }
{
    let _before = handle.take(alloc);
    let mut station = MapStation::new(image, ask, answer, &mut []);
    match OpenDisk::open(alloc, &mut station) {
        Ok(disk) => match Box::new(alloc, disk) {
            Ok(held) => {
                handle.put(held);
                DONE
            }
            Err(_) => NO_MEMORY,
        },
        Err(why) => number_of(why),
    }
}

/// Carries out the frames one after another on the disk that the handle holds: each is on the medium before its reply
/// is in the room. The replies are put at the room's front, one behind the other; `filled` tells how many bytes they
/// have. Sessions last from call to call.
///
/// The number is 0 where all were answered; [`CLOSED`] where the handle holds no disk that may be used, and then
/// nothing is done; or that of the status of `embedded_disk::OpenDisk::apply`.
#[unsafe(no_mangle)]
pub extern "C" fn tsd_c_apply(
    alloc: Global,
    handle: &mut Handle,
    image: &mut [u8],
    ask: i32,
    answer: i32,
    frames: &[u8],
    replies: &mut [u8],
    filled: &mut usize,
) -> u8
    ensures filled { filled.new ≤ length replies.old }
    ensures closed { (result ≡ 20) ↔ (IsNone handle.old.value ⊎ IsSomeAnd handle.old.value (λ d. d.failed ≢ false)) }
    ensures usable { result ≢ 20 → result ≢ 4 → IsSomeAnd handle.new.value (λ d. d.failed ≡ false) }
    ensures held { IsNone handle.new.value → IsNone handle.old.value }
{
    *filled = 0;
    match handle.take(alloc) {
        Some(mut held) => {
            let status = if held.has_failed() {
                CLOSED
            } else {
                apply_to(
                    alloc, &mut held, image, ask, answer, frames, replies, filled,
                )
            };
            handle.put(held);
            status
        }
        None => CLOSED,
    }
}

/// Carries out the frames on a disk that may be used.
fn apply_to(
    alloc: Global,
    held: &mut OpenDisk,
    image: &mut [u8],
    ask: i32,
    answer: i32,
    frames: &[u8],
    replies: &mut [u8],
    filled: &mut usize,
) -> u8
    requires usable { held.old.failed ≡ false }
    requires nothing { filled.old ≡ 0 }
    ensures filled { filled.new ≤ length replies.old }
    ensures open { result ≢ 20 }
    ensures usable { result ≢ 4 → held.new.failed ≡ false }
{
    let room = replies.len();
    let near = match Box::new(
        alloc,
        |hint: u32, block: u32| -> u64
            ensures { result ≡ rank_of Near hint block }
        { near_rank(hint, block) },
    ) {
        Ok(rank) => Placement::new(PlaceKind::Near, rank),
        Err(_) => return NO_MEMORY,
    };
    let mut station = MapStation::new(image, ask, answer, replies);
    let status = held.apply(alloc, &near, frames, &mut station);
    *filled = station.filled().min(room);
    number_of(status)
}

/// Does all that is left to be done on the disk that the handle holds, and lets go of it. The number is 0 where all was
/// done or nothing was held, else 4.
#[unsafe(no_mangle)]
pub extern "C" fn tsd_c_close(
    alloc: Global,
    handle: &mut Handle,
    image: &mut [u8],
    ask: i32,
    answer: i32,
) -> u8
    ensures { handle.new.value ≡ None }
{
    match handle.take(alloc) {
        Some(mut held) => {
            if held.has_failed() {
                return DONE;
            }
            let mut station = MapStation::new(image, ask, answer, &mut []);
            match held.close(&mut station) {
                Ok(()) => DONE,
                Err(_) => number_of(Status::DeviceFault),
            }
        }
        None => DONE,
    }
}
