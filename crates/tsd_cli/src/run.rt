//! The program over what it is given: its words, an input, and where its output and its errors go.

ghost use Rattle.std.specs.Prelude.{◌≡◌, ◌≢◌, ◌<◌, ◌+◌, ◌*◌, ◌^◌, slice_index, IsOk, IsErr};
ghost use Rattle.tsd_model.specs.Rank.{rank_of, zones_after};
ghost use Rattle.tsd_model.specs.declared.requests.PlaceKind.TheVariants.{Low, Near, Spread};

use crate::asking::is_kept;
use crate::ended::{Cause, Ended, tell_cause};
use crate::help::{HELP, VERSION, text_of};
use crate::line::{Line, Target};
use crate::opening::{copied, cut_off, look, mirrored, opening_of};
use crate::testing::flaw_of;
use crate::usage::Misread;
use crate::words::{WordFault, meant};
use file_stations::{FileSides, FileStation, Named, NamedImage, Progress};
use image_device::{Failed, MemStation, Source};
use image_files::{
    Content, ImageFile, IntoFile, Mark, Opening, Shown, Trouble, are_one, content_of,
};
use mirror_device::Side;
use place_policy::{PlaceBook, Placement, ZONE_TURNS, low_rank, near_rank, spread_rank, zone_rank};
use script_text::OutBuf;
use std::alloc::{AllocError, Global};
use std::io::{self, Write};
use std::marker::Brand;
use tsd_model::PlaceKind;
use tsd_serve::{Command, MirrorStatus, Status, command, mirror_status_line, tsd, tsd_mirror};

/// Does what the words say, and ends with a status. A status that isn't Done is told in a line of errors, and a second
/// line says why, where the system or a word does.
pub fn run<S: Source, O: Write, E: Write>(
    rt: &HostRuntime,
    words: Vec<String>,
    input: &mut S,
    output: &mut O,
    errors: &mut E,
) -> MirrorStatus {
    let ended = match first_of(&words) {
        "--help" | "-h" => Ended::of_text(put_out(output, HELP.as_bytes())),
        "--version" | "-V" => Ended::of_text(put_out(output, VERSION.as_bytes())),
        "help" => help(words, output),
        _ => match serve(rt, words, input, output, errors) {
            Ok(ended) => ended,
            Err(_) => Ended::alone(Status::NoMemory),
        },
    };
    tell(errors, &ended.status);
    tell_cause(errors, &ended.cause);
    ended.status
}

/// The first word, or none.
fn first_of(words: &Vec<String>) -> &str {
    match words.first() {
        Some(word) => word.as_str(),
        None => "",
    }
}

/// Puts out the text of the topic behind `help`, or without one that of `--help`.
fn help<O: Write>(words: Vec<String>, output: &mut O) -> Ended {
    let text = match words.as_slice() {
        [_] => Some(HELP),
        [_, topic] => text_of(topic.as_str()),
        _ => None,
    };
    match text {
        Some(text) => Ended::of_text(put_out(output, text.as_bytes())),
        None => Ended::misread(Misread::Topic(words)),
    }
}

/// How a run is asked to serve what it serves.
#[derive(Clone, Copy)]
struct Asked<'a> {
    /// The words of the command, each as it is meant.
    command: &'a Vec<String>,

    /// Whether what is no disk may be overwritten.
    overwrites: bool,

    /// In which order free blocks are taken.
    book: &'a PlaceBook,
}

/// Serves the image that the first word names, or the two behind `mirror`, as those behind it say.
fn serve<S: Source, O: Write, E: Write>(
    rt: &HostRuntime,
    words: Vec<String>,
    input: &mut S,
    output: &mut O,
    errors: &mut E,
) -> Result<Ended, AllocError> {
    let is_nothing = words.is_empty();
    let line = Line::of(rt.alloc(), words)?;
    let meant = match all_meant(rt, &line.command)? {
        Ok(meant) => meant,
        Err(fault) => {
            return Ok(Ended {
                status: MirrorStatus::Ended(fault.status()),
                cause: Cause::Word(fault),
            });
        }
    };
    let Line {
        overwrites,
        target,
        command: given,
    } = line;
    let is_mirror = matches!(target, Target::Sides(..) | Target::NoSides);
    let ended = with_placements(rt, target, overwrites, &meant, input, output, errors)?;
    let is_told = matches!(ended.cause, Cause::OneFile(..));
    Ok(match ended.status {
        MirrorStatus::Ended(Status::Usage) if is_told => ended,
        MirrorStatus::Ended(Status::Usage) if is_nothing => Ended::misread(Misread::Nothing),
        MirrorStatus::Ended(Status::Usage) => Ended::misread(Misread::Command {
            given,
            meant,
            is_mirror,
        }),
        _ => ended,
    })
}

/// The words that those of a command stand for, or the first that stands for none.
fn all_meant(
    rt: &HostRuntime,
    words: &Vec<String>,
) -> Result<Result<Vec<String>, WordFault>, AllocError> {
    let alloc = rt.alloc();
    let mut found = Vec::new(alloc);
    for word in words {
        match meant(rt, String::from_str(alloc, word.as_str())?) {
            Ok(word) => found.push(word)?,
            Err(fault) => return Ok(Err(fault)),
        }
    }
    Ok(Ok(found))
}

/// Makes the placements and serves.
fn with_placements<S: Source, O: Write, E: Write>(
    rt: &HostRuntime,
    target: Target,
    overwrites: bool,
    command: &Vec<String>,
    input: &mut S,
    output: &mut O,
    errors: &mut E,
) -> Result<Ended, AllocError> {
    let alloc = rt.alloc();
    let turns = ZONE_TURNS;
    let low = Box::new(
        alloc,
        |hint: u32, block: u32| -> u64
            ensures { result ≡ rank_of Low hint block }
        { low_rank(hint, block) },
    )?;
    let near = Box::new(
        alloc,
        |hint: u32, block: u32| -> u64
            ensures { result ≡ rank_of Near hint block }
        { near_rank(hint, block) },
    )?;
    let spread = Box::new(
        alloc,
        |hint: u32, block: u32| -> u64
            ensures { result ≡ rank_of Spread hint block }
        { spread_rank(hint, block) },
    )?;
    let zone = Box::new(
        alloc,
        move |hint: u32, block: u32| -> u64
            ensures { result ≡ 2 ^ 32 * slice_index turns (zones_after hint block) + block }
        { zone_rank(&turns, hint, block) },
    )?;
    let book = PlaceBook::new(
        Placement::new(PlaceKind::Low, low),
        Placement::new(PlaceKind::Near, near),
        Placement::new(PlaceKind::Spread, spread),
        Placement::new(PlaceKind::Zone, zone),
    );
    tell_equal(errors, command);
    let asked = Asked {
        command,
        overwrites,
        book: &book,
    };
    Ok(match target {
        Target::Memory => serve_memory(alloc, command, &book, input, output),
        Target::File(path) => serve_file(rt, path, asked, input, output, errors),
        Target::Sides(first, second) => {
            serve_sides(rt, (first, second), asked, input, output, errors)
        }
        Target::NoSides => Ended::alone(Status::Usage),
    })
}

/// Why the image at a path isn't opened so, or nothing where it may be.
fn refusal<S: Source, E: Write>(
    rt: &HostRuntime,
    path: &str,
    opening: Opening,
    asked: Asked<'_>,
    input: &mut S,
    errors: &mut E,
) -> Option<Trouble> {
    let content = match look(rt, path, opening, asked.overwrites) {
        Ok(content) => content,
        Err(trouble) => return Some(trouble),
    };
    let is_lost = content == Content::Disk && matches!(opening, Opening::Made { .. });
    if is_lost && !asked.overwrites && is_kept(rt, path, asked.book, input, errors) {
        return Some(Trouble::Declined);
    }
    None
}

/// Serves an image in a file. Each reply is written to the output as soon as it is made.
fn serve_file<S: Source, O: Write, E: Write>(
    rt: &HostRuntime,
    path: String,
    asked: Asked<'_>,
    input: &mut S,
    output: &mut O,
    errors: &mut E,
) -> Ended {
    let image = match opening_of(asked.command) {
        Some(opening) => match refusal(rt, path.as_str(), opening, asked, input, errors) {
            Some(trouble) => return Ended::refused(Cause::of_image(path, trouble)),
            None => ImageFile::open(rt, path.as_str(), opening),
        },
        None => Err(Trouble::NotOpen),
    };
    if is_made(&image) {
        forget_mark(rt, path.as_str());
    }
    tell_readers(errors, path.as_str(), &image);
    let mut station = FileStation::new(rt.alloc(), image, output, Progress::of(rt));
    let status = tsd(rt.alloc(), asked.command, input, &mut station, asked.book);
    let status = with_end(status, station.finish());
    let cause = match (station.trouble(), station.output_trouble()) {
        (Some(trouble), _) => Cause::Image {
            path,
            trouble,
            unsure: station.unsure(),
        },
        (None, Some(trouble)) => Cause::Output(trouble),
        (None, None) => cut_cause(rt, path, &status),
    };
    Ended {
        status: MirrorStatus::Ended(status),
        cause,
    }
}

/// The status of a run whose last writes went out, or failed.
fn with_end(status: Status, end: Result<(), Failed>) -> Status
    ensures fault { IsErr end → status ≡ Status.Done → result ≡ Status.DeviceFault }
    ensures other { IsOk end → result ≡ status }
{
    match (status, end) {
        (Status::Done, Err(Failed)) => Status::DeviceFault,
        _ => status,
    }
}

/// The same over two images.
fn with_ends(status: MirrorStatus, ends: (Result<(), Failed>, Result<(), Failed>)) -> MirrorStatus {
    match (status, ends) {
        (MirrorStatus::Ended(Status::Done), (Err(Failed), Ok(()))) => {
            MirrorStatus::SideLost(Side::First)
        }
        (MirrorStatus::Ended(Status::Done), (Ok(()), Err(Failed))) => {
            MirrorStatus::SideLost(Side::Second)
        }
        (MirrorStatus::Ended(Status::Done), (Err(Failed), Err(Failed)))
        | (MirrorStatus::SideLost(Side::First), (_, Err(Failed)))
        | (MirrorStatus::SideLost(Side::Second), (Err(Failed), _)) => {
            MirrorStatus::Ended(Status::DeviceFault)
        }
        _ => status,
    }
}

/// What is told of an image that stands for no world: whether its file was cut off.
fn cut_cause(rt: &HostRuntime, path: String, status: &Status) -> Cause {
    if !matches!(status, Status::NotImage(_)) {
        return Cause::Untold;
    }
    match cut_off(rt, path.as_str()) {
        Some((has, needs)) => Cause::CutOff { path, has, needs },
        None => Cause::Untold,
    }
}

/// Whether a disk is made in an image that was opened.
fn is_made(image: &Result<ImageFile, Trouble>) -> bool {
    match image {
        Ok(file) => file.is_made(),
        Err(_) => false,
    }
}

/// Takes the mark of an image away in which a disk is made: what that went on with is lost.
fn forget_mark(rt: &HostRuntime, path: &str) {
    if let Ok(mark) = Mark::of(rt, path) {
        let _gone = mark.take_away(rt);
    }
}

/// Serves two images in files as one disk. Each reply is written to the output as soon as it is made, and what fails of
/// an image is told at once.
fn serve_sides<S: Source, O: Write, E: Write>(
    rt: &HostRuntime,
    paths: (String, String),
    asked: Asked<'_>,
    input: &mut S,
    output: &mut O,
    errors: &mut E,
) -> Ended {
    if are_one(rt, paths.0.as_str(), paths.1.as_str()) {
        let (first, second) = paths;
        return Ended {
            status: MirrorStatus::Ended(Status::Usage),
            cause: Cause::OneFile(first, second),
        };
    }
    let paths = match tested(rt, paths, asked, output) {
        Ok(paths) => paths,
        Err(ended) => return ended,
    };
    let (first, second) = match open_sides(rt, paths, asked, input, errors) {
        Ok(opened) => opened,
        Err(ended) => return ended,
    };
    tell_readers(errors, first.named.path.as_str(), &first.image);
    tell_readers(errors, second.named.path.as_str(), &second.image);
    let mut sides = FileSides::new(rt, first, second, output, Progress::of(rt), errors);
    let (status, _) = tsd_mirror::<_, _, Brand>(
        rt.alloc(),
        asked.command,
        input,
        &mut sides,
        asked.book,
    );
    let status = with_ends(status, sides.finish());
    let cause = match sides.output_trouble() {
        Some(trouble) => Cause::Output(trouble),
        None => Cause::Untold,
    };
    Ended { status, cause }
}

/// These two paths, where the first image stands for a world, or a command doesn't open one, or it can't be told: else
/// the run ends before the second one is opened.
fn tested<O: Write>(
    rt: &HostRuntime,
    paths: (String, String),
    asked: Asked<'_>,
    output: &mut O,
) -> Result<(String, String), Ended> {
    let is_kept = match opening_of(asked.command) {
        Some(opening) => mirrored(opening) == Opening::Kept,
        None => false,
    };
    let into = IntoFile::of(rt, paths.0.as_str());
    if !is_kept || into.output || into.errors {
        return Ok(paths);
    }
    let Ok(Some(flaw)) = flaw_of(rt, paths.0.as_str(), asked.book) else {
        return Ok(paths);
    };
    let says = matches!(command(asked.command), Some(Command::Check | Command::Info));
    if says {
        if let Err(trouble) = put_out(output, flaw.line.as_slice()) {
            return Err(Ended::of_text(Err(trouble)));
        }
    }
    let (first, _) = paths;
    let cause = cut_cause(rt, first, &flaw.status);
    Err(Ended {
        status: MirrorStatus::Ended(flaw.status),
        cause,
    })
}

/// Opens two images as a command asks for it: the second to hold a copy, once the first is open. Where one of them is
/// refused nothing is made; a second one that can't be read is lost.
fn open_sides<S: Source, E: Write>(
    rt: &HostRuntime,
    paths: (String, String),
    asked: Asked<'_>,
    input: &mut S,
    errors: &mut E,
) -> Result<(NamedImage, NamedImage), Ended> {
    let (first, second) = paths;
    let Some(opening) = opening_of(asked.command) else {
        return Err(Ended::alone(Status::Usage));
    };
    let (opening, copied) = (mirrored(opening), copied(opening));
    if let Some(trouble) = refusal(rt, first.as_str(), opening, asked, input, errors) {
        return Err(Ended::refused(Cause::of_image(first, trouble)));
    }
    let unread = match refusal(rt, second.as_str(), copied, asked, input, errors) {
        None => None,
        Some(Trouble::System(error)) => Some(Trouble::System(error)),
        Some(trouble) => return Err(Ended::refused(Cause::of_image(second, trouble))),
    };
    let (first, second) = in_order(rt, first, second, copied)?;
    let image = ImageFile::open(rt, first.as_str(), opening);
    let copy = match (&image, unread) {
        (Ok(_), None) => ImageFile::open(rt, second.as_str(), copied),
        (Ok(_), Some(trouble)) => Err(trouble),
        (Err(_), _) => Err(Trouble::NotOpen),
    };
    Ok((named(rt, first, image)?, named(rt, second, copy)?))
}

/// These two paths, where the first image may be copied to the second one: it may not where that went on alone later.
fn in_order(
    rt: &HostRuntime,
    first: String,
    second: String,
    copied: Opening,
) -> Result<(String, String), Ended> {
    if copied != Opening::Copied {
        return Ok((first, second));
    }
    let mark = marked(rt, first.as_str())?;
    let other = marked(rt, second.as_str())?;
    let is_disk = matches!(content_of(rt, second.as_str(), None), Ok(Content::Disk));
    if is_disk && other.is_later(&mark) {
        let mark = other.into_place();
        return Err(Ended::refused(Cause::WentOn {
            first,
            second,
            mark,
        }));
    }
    Ok((first, second))
}

/// An image with its mark.
fn named(
    rt: &HostRuntime,
    path: String,
    image: Result<ImageFile, Trouble>,
) -> Result<NamedImage, Ended> {
    let mark = marked(rt, path.as_str())?;
    Ok(NamedImage {
        named: Named { path, mark },
        image,
    })
}

/// The mark of the image at a path, or the place for it.
fn marked(rt: &HostRuntime, path: &str) -> Result<Mark, Ended> {
    match Mark::of(rt, path) {
        Ok(mark) => Ok(mark),
        Err(error) => Err(match String::from_str(rt.alloc(), path) {
            Ok(path) => Ended::refused(Cause::of_image(path, Trouble::Mark(error))),
            Err(_) => Ended::alone(Status::NoMemory),
        }),
    }
}

/// Tells who may read the capabilities of a disk that is made in a file, besides its owner.
fn tell_readers<E: Write>(errors: &mut E, path: &str, image: &Result<ImageFile, Trouble>) {
    if let Ok(file) = image {
        if let Some(readers) = file.readers() {
            let path = Shown { name: path };
            let _told = writeln!(
                errors,
                "tsd: {path}: it holds capabilities, and {readers} may read it"
            );
        }
    }
}

/// Tells where a disk is made whose primary block has one capability for both, so that who may read it may write it.
fn tell_equal<E: Write>(errors: &mut E, words: &Vec<String>) {
    if let Some(Command::Fresh(fresh)) = command(words) {
        if fresh.caps.read == fresh.caps.write {
            let _told = writeln!(
                errors,
                "tsd: READCAP and WRITECAP are one: who may read block 0 may write it too"
            );
        }
    }
}

/// Serves a disk in memory. What it sent is written to the output at the end.
fn serve_memory<S: Source, O: Write>(
    alloc: Global,
    command: &Vec<String>,
    book: &PlaceBook,
    input: &mut S,
    output: &mut O,
) -> Ended {
    let mut station = MemStation::new(alloc, Vec::new(alloc));
    let status = tsd(alloc, command, input, &mut station, book);
    match put_out(output, station.sent()) {
        Ok(()) => Ended::alone(unless_short(status, station.short())),
        fault => Ended::of_text(fault),
    }
}

/// A station in memory fails only for want of memory, which it counts in `short`.
fn unless_short(status: Status, short: u64) -> Status
    ensures none { short ≡ 0 → result ≡ status }
    ensures device { 0 < short → status ≡ Status.DeviceFault → result ≡ Status.NoMemory }
    ensures put { 0 < short → status ≡ Status.PutFault → result ≡ Status.NoMemory }
    ensures other { status ≢ Status.DeviceFault → status ≢ Status.PutFault → result ≡ status }
{
    match status {
        Status::DeviceFault | Status::PutFault if short != 0 => Status::NoMemory,
        other => other,
    }
}

/// Writes bytes to an output.
fn put_out<O: Write>(output: &mut O, bytes: &[u8]) -> Result<(), Trouble> {
    output.write_all(bytes)?;
    Ok(())
}

/// Writes a status's line, unless all was done. Where that fails there is nothing more to tell.
pub fn tell<E: Write>(errors: &mut E, status: &MirrorStatus) {
    if *status == MirrorStatus::Ended(Status::Done) {
        return;
    }
    let mut line = OutBuf::new();
    mirror_status_line(status, &mut line);
    let _told = errors.write_all(line.as_slice());
}
