//! The top call.

ghost use Rattle.std.specs.Prelude.{◌≡◌, ◌≢◌, ◌↔◌, ◌⊎◌, map, string_bytes, None, Some};
ghost use Rattle.serving.specs.Faults.{TellsFaults};
ghost use Rattle.serving.specs.Ran.{EndsOnce, moments, taking};
ghost use Rattle.tsd_model.specs.Geometry.{IsLawful};
ghost use Rattle.tsd_serve.specs.Did.{Did};
ghost use Rattle.tsd_serve.specs.Prompt.{AnswersByRounds, AnswersPromptly};
ghost use Rattle.tsd_words.specs.Words.{IsInLimits, command_of};
ghost use Rattle.tsd_words.specs.declared.commands.Command.TheVariants as command;

use crate::files::file_frames;
use crate::grouped::group_frames;
use audit_runs::{audit_image, verify_image};
use fs_trees::ShellKind;
use image_copy::copy_image;
use image_device::{Port, Source};
use image_runs::{
    Telling, check_image, format_image, load_image, serve_fresh, serve_image, upgrade_image,
};
use image_shell::{serve_chain_image, serve_inode_image};
use place_policy::PlaceBook;
use request_frames::FrameCutter;
use script_text::LineCutter;
use serving::INPUT_MAX;
use shell_server::{ChainLayout, InodeLayout, ShellLines};
use std::alloc::Global;
use tsd_model::PlaceKind;
use tsd_words::{Command, Fresh, Shell, Status, command};

/// Does what the words say over the image beside the port: `fresh BLOCKS SECTORS READCAP WRITECAP PLACE` formats it and
/// answers the lines of the input until it ends, `run PLACE` opens it and answers lines, `serve PLACE` opens it and
/// answers frames, `group PLACE` as well, with group commit. `shell KIND ROOT CAP PLACE` opens it, mounts the tree of
/// files under a block, and answers lines on that; `files KIND ROOT CAP PLACE` as well, but frames. `format BLOCKS
/// SECTORS SLOTS PRIMARIES SEED` makes a disk, `check` and `info` tell what an image is, `load SEED COUNT PLACE`
/// carries out the requests of a seed, and `upgrade` has an image keep digests in place of capabilities. `audit` puts a
/// certificate of which blocks are reached, and `verify` reads one and tells what it shows. `copyfs KIND ROOT CAP KIND
/// ROOT CAP PLACE` copies the tree of files under one block to another block.
///
/// Each reply is put whole before the next request is carried out; by `group` once all of its group are committed.
#[tactic(auto, using(crate::proofs::Statuses::no_usage_ending, crate::proofs::Statuses::no_source_ending))]
pub fn tsd<S: Source, P: Port>(
    alloc: Global,
    words: &Vec<String>,
    source: &mut S,
    port: &mut P,
    places: &PlaceBook,
) -> Status
    // Usage comes exactly where the words are no command, and before any call.
    /// promise (with untouched_source, untouched_port): Usage comes exactly where the words are no command, and before
    /// any call.
    ensures usage { (result ≡ Status.Usage) ↔ (command_of (map string_bytes words.now.items) ≡ None) }
    ensures untouched_source { result ≡ Status.Usage → source.new ≡ source.old }
    ensures untouched_port { result ≡ Status.Usage → port.new ≡ port.old }
    // By command and status: what came in, what was sent, what a crash at any moment may have left, and what the disk
    // is after Done.
    /// promise: **The headline, as a clause of the call that the program makes**: by command and status what came in,
    /// what was sent, what a crash at any moment may have left, and what the disk is after Done.
    ensures did { Did (command_of (map string_bytes words.now.items)) result
        (taking S.told S.taken S.left_bytes S.ended source.old source.new) (moments P.told P.view port.old port.new) }
    // What is written before each reply has a bound, and what is written behind it; where the input was cut short,
    // nothing is done behind the last one but that.
    /// promise: With `run`, `serve` and `fresh` each reply is sent whole when so often was written since its request
    /// came as is said of `serve_core_in`, and at most 400 writes come after it; after SourceFault, TooLong and
    /// Truncated nothing is written but these. With `shell` and `files` the last is alone said, of the last answer.
    /// With each the requests that were answered so are the first of those that came in, and all of them unless the
    /// device or the sending failed.
    ensures prompt { P.told → AnswersPromptly (command_of (map string_bytes words.now.items)) result
        (taking S.told S.taken S.left_bytes S.ended source.old source.new) P.view port.old port.new }
    /// promise: With `group`, **round by round**: bytes came, and then all requests were answered by turns, and their
    /// replies sent, that were whole in what had come. A turn is a group, with at most 236 writes from its first call
    /// to its last reply, or a request on the disk itself. Of what comes in a round all but the last 65,536 bytes make
    /// one request whole at most. After SourceFault, TooLong and Truncated nothing was written or sent behind the last
    /// round.
    ensures rounds { P.told → AnswersByRounds (command_of (map string_bytes words.now.items)) result
        (taking S.told S.taken S.left_bytes S.ended source.old source.new) P.view port.old port.new }
    // Nothing more is taken once the end was found.
    /// promise: Nothing is taken after the end of the input was found.
    ensures once { EndsOnce (S.ends source.old) (S.ends source.new) }
    /// promise: A count of faults rose exactly where the status is that fault's.
    ensures faults { TellsFaults result (S.faults source.old) (S.faults source.new) (P.view port.old)
        (P.view port.new) }
{
    match command(words) {
        Some(words) => obey(alloc, words, source, port, places),
        None => Status::Usage,
    }
}

/// Does what a command says.
#[tactic(auto, using(crate::proofs::Statuses::other_endings))]
pub(crate) fn obey<S: Source, P: Port>(
    alloc: Global,
    words: Command,
    source: &mut S,
    port: &mut P,
    places: &PlaceBook,
) -> Status
    requires { IsInLimits words }
    ensures other { result ≢ Status.Usage }
    // By command and status: what came in, what was sent, what a crash at any moment may have left, and what the disk
    // is after Done.
    ensures did { Did (Some words) result
        (taking S.told S.taken S.left_bytes S.ended source.old source.new) (moments P.told P.view port.old port.new) }
    // What is written before each reply has a bound, and what is written behind it; where the input was cut short,
    // nothing is done behind the last one but that.
    ensures prompt { P.told → AnswersPromptly (Some words) result
        (taking S.told S.taken S.left_bytes S.ended source.old source.new) P.view port.old port.new }
    ensures rounds { P.told → AnswersByRounds (Some words) result
        (taking S.told S.taken S.left_bytes S.ended source.old source.new) P.view port.old port.new }
    ensures once { EndsOnce (S.ends source.old) (S.ends source.new) }
    ensures faults { TellsFaults result (S.faults source.old) (S.faults source.new) (P.view port.old)
        (P.view port.new) }
{
    match words {
        Command::Fresh(fresh) => fresh_lines(alloc, &fresh, source, port, places),
        Command::Format(words) => format_image(port, &words),
        Command::Run(kind) => run_lines(alloc, kind, source, port, places),
        Command::Serve(kind) => run_frames(alloc, kind, source, port, places),
        Command::Group(kind) => group_frames(alloc, kind, source, port, places),
        Command::Shell(shell) => shell_lines(alloc, &shell, source, port, places),
        Command::Files(shell) => file_frames(alloc, &shell, source, port, places),
        Command::Check => check_image(alloc, port, Telling::Clean),
        Command::Info => check_image(alloc, port, Telling::Info),
        Command::Load(words) => load_image(alloc, &words, places.pick(words.kind), port),
        Command::Upgrade => upgrade_image(alloc, port),
        Command::Audit => audit_image(alloc, port),
        Command::Verify => verify_image(alloc, source, port),
        Command::CopyFs(words) => copy_image(alloc, &words, places.pick(words.kind), port),
    }
}

/// Formats an image and answers lines.
#[tactic(auto, using(crate::proofs::Statuses::no_usage_fresh))]
fn fresh_lines<S: Source, P: Port>(
    alloc: Global,
    fresh: &Fresh,
    source: &mut S,
    port: &mut P,
    places: &PlaceBook,
) -> Status
    requires lawful { IsLawful fresh.now.geometry }
    requires single { fresh.now.geometry.primaries ≡ 1 }
    ensures other { result ≢ Status.Usage }
    ensures did { Did (Some (command.Fresh fresh.now)) result
        (taking S.told S.taken S.left_bytes S.ended source.old source.new) (moments P.told P.view port.old port.new) }
    ensures prompt { P.told → AnswersPromptly (Some (command.Fresh fresh.now)) result
        (taking S.told S.taken S.left_bytes S.ended source.old source.new) P.view port.old port.new }
    ensures once { EndsOnce (S.ends source.old) (S.ends source.new) }
    ensures faults { TellsFaults result (S.faults source.old) (S.faults source.new) (P.view port.old)
        (P.view port.new) }
{
    let mut cutter = LineCutter::new();
    serve_fresh(
        alloc,
        &fresh.geometry,
        &fresh.caps,
        places.pick(fresh.kind),
        &mut cutter,
        source,
        port,
        INPUT_MAX,
    )
}

/// Opens an image and answers lines.
#[tactic(auto, using(crate::proofs::Statuses::no_usage))]
fn run_lines<S: Source, P: Port>(
    alloc: Global,
    kind: PlaceKind,
    source: &mut S,
    port: &mut P,
    places: &PlaceBook,
) -> Status
    ensures other { result ≢ Status.Usage }
    ensures did { Did (Some (command.Run kind)) result
        (taking S.told S.taken S.left_bytes S.ended source.old source.new) (moments P.told P.view port.old port.new) }
    ensures prompt { P.told → AnswersPromptly (Some (command.Run kind)) result
        (taking S.told S.taken S.left_bytes S.ended source.old source.new) P.view port.old port.new }
    ensures once { EndsOnce (S.ends source.old) (S.ends source.new) }
    ensures faults { TellsFaults result (S.faults source.old) (S.faults source.new) (P.view port.old)
        (P.view port.new) }
{
    let mut cutter = LineCutter::new();
    serve_image(
        alloc,
        places.pick(kind),
        &mut cutter,
        source,
        port,
        INPUT_MAX,
    )
}

/// Opens an image and answers frames.
#[tactic(auto, using(crate::proofs::Statuses::no_usage))]
fn run_frames<S: Source, P: Port>(
    alloc: Global,
    kind: PlaceKind,
    source: &mut S,
    port: &mut P,
    places: &PlaceBook,
) -> Status
    ensures other { result ≢ Status.Usage }
    ensures did { Did (Some (command.Serve kind)) result
        (taking S.told S.taken S.left_bytes S.ended source.old source.new) (moments P.told P.view port.old port.new) }
    ensures prompt { P.told → AnswersPromptly (Some (command.Serve kind)) result
        (taking S.told S.taken S.left_bytes S.ended source.old source.new) P.view port.old port.new }
    ensures once { EndsOnce (S.ends source.old) (S.ends source.new) }
    ensures faults { TellsFaults result (S.faults source.old) (S.faults source.new) (P.view port.old)
        (P.view port.new) }
{
    match FrameCutter::new(alloc) {
        Ok(mut cutter) => serve_image(
            alloc,
            places.pick(kind),
            &mut cutter,
            source,
            port,
            INPUT_MAX,
        ),
        Err(_) => Status::NoMemory,
    }
}

/// Opens an image and answers the lines of a shell over the tree in it.
#[tactic(auto, using(crate::proofs::Statuses::no_usage_shell))]
fn shell_lines<S: Source, P: Port>(
    alloc: Global,
    shell: &Shell,
    source: &mut S,
    port: &mut P,
    places: &PlaceBook,
) -> Status
    ensures other { result ≢ Status.Usage }
    ensures did { Did (Some (command.Shell shell.now)) result
        (taking S.told S.taken S.left_bytes S.ended source.old source.new) (moments P.told P.view port.old port.new) }
    ensures prompt { P.told → AnswersPromptly (Some (command.Shell shell.now)) result
        (taking S.told S.taken S.left_bytes S.ended source.old source.new) P.view port.old port.new }
    ensures once { EndsOnce (S.ends source.old) (S.ends source.new) }
    ensures faults { TellsFaults result (S.faults source.old) (S.faults source.new) (P.view port.old)
        (P.view port.new) }
{
    let placement = places.pick(shell.kind);
    match shell.layout {
        ShellKind::Inode => {
            let mut lines: ShellLines<InodeLayout> = ShellLines::new();
            serve_inode_image(
                alloc, shell.root, &shell.cap, placement, &mut lines, source, port, INPUT_MAX,
            )
        }
        ShellKind::Chain => {
            let mut lines: ShellLines<ChainLayout> = ShellLines::new();
            serve_chain_image(
                alloc, shell.root, &shell.cap, placement, &mut lines, source, port, INPUT_MAX,
            )
        }
    }
}
