//! Frames served in groups.

ghost use Rattle.std.specs.Prelude.{◌≢◌, Some};
ghost use Rattle.serving.specs.Faults.{TellsFaults};
ghost use Rattle.serving.specs.Ran.{EndsOnce, moments, taking};
ghost use Rattle.tsd_serve.specs.Did.{Did};
ghost use Rattle.tsd_serve.specs.Prompt.{AnswersByRounds};
ghost use Rattle.tsd_words.specs.declared.commands.Command.TheVariants as command;

use image_device::{Port, Source};
use image_groups::serve_port_in_groups;
use place_policy::PlaceBook;
use request_frames::FrameCutter;
use serving::INPUT_MAX;
use std::alloc::Global;
use tsd_model::PlaceKind;
use tsd_words::Status;

/// Opens an image and answers frames: those that come together are committed together, and then their replies are sent.
#[tactic(auto, using(crate::proofs::Statuses::no_usage_groups))]
pub(crate) fn group_frames<S: Source, P: Port>(
    alloc: Global,
    kind: PlaceKind,
    source: &mut S,
    port: &mut P,
    places: &PlaceBook,
) -> Status
    ensures other { result ≢ Status.Usage }
    ensures did { Did (Some (command.Group kind)) result
        (taking S.told S.taken S.left_bytes S.ended source.old source.new) (moments P.told P.view port.old port.new) }
    ensures rounds { P.told → AnswersByRounds (Some (command.Group kind)) result
        (taking S.told S.taken S.left_bytes S.ended source.old source.new) P.view port.old port.new }
    ensures once { EndsOnce (S.ends source.old) (S.ends source.new) }
    ensures faults { TellsFaults result (S.faults source.old) (S.faults source.new) (P.view port.old)
        (P.view port.new) }
{
    match FrameCutter::new(alloc) {
        Ok(mut cutter) => serve_port_in_groups(
            alloc,
            places.pick(kind),
            &mut cutter,
            source,
            port,
            INPUT_MAX,
        ),
        Err(_) => Status::NoMemory,
    }
}
