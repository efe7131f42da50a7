//! Frames over the tree of files in an image.

ghost use Rattle.std.specs.Prelude.{◌≢◌, Some};
ghost use Rattle.serving.specs.Faults.{TellsFaults};
ghost use Rattle.serving.specs.Ran.{EndsOnce, moments, taking};
ghost use Rattle.tsd_serve.specs.Did.{Did};
ghost use Rattle.tsd_serve.specs.Prompt.{AnswersPromptly};
ghost use Rattle.tsd_words.specs.declared.commands.Command.TheVariants as command;

use fs_trees::ShellKind;
use image_device::{Port, Source};
use image_shell::{serve_chain_image, serve_inode_image};
use place_policy::PlaceBook;
use serving::INPUT_MAX;
use shell_server::{ChainLayout, FileFrames, InodeLayout};
use std::alloc::Global;
use tsd_words::{Shell, Status};

/// Opens an image and answers frames over the tree in it.
#[tactic(auto, using(crate::proofs::Statuses::no_usage_shell))]
pub(crate) fn file_frames<S: Source, P: Port>(
    alloc: Global,
    shell: &Shell,
    source: &mut S,
    port: &mut P,
    places: &PlaceBook,
) -> Status
    ensures other { result ≢ Status.Usage }
    ensures did { Did (Some (command.Files shell.now)) result
        (taking S.told S.taken S.left_bytes S.ended source.old source.new) (moments P.told P.view port.old port.new) }
    ensures prompt { P.told → AnswersPromptly (Some (command.Files shell.now)) result
        (taking S.told S.taken S.left_bytes S.ended source.old source.new) P.view port.old port.new }
    ensures once { EndsOnce (S.ends source.old) (S.ends source.new) }
    ensures faults { TellsFaults result (S.faults source.old) (S.faults source.new) (P.view port.old)
        (P.view port.new) }
{
    let placement = places.pick(shell.kind);
    match shell.layout {
        ShellKind::Inode => match FileFrames::<InodeLayout>::new(alloc) {
            Ok(mut frames) => serve_inode_image(
                alloc,
                shell.root,
                &shell.cap,
                placement,
                &mut frames,
                source,
                port,
                INPUT_MAX,
            ),
            Err(_) => Status::NoMemory,
        },
        ShellKind::Chain => match FileFrames::<ChainLayout>::new(alloc) {
            Ok(mut frames) => serve_chain_image(
                alloc,
                shell.root,
                &shell.cap,
                placement,
                &mut frames,
                source,
                port,
                INPUT_MAX,
            ),
            Err(_) => Status::NoMemory,
        },
    }
}
