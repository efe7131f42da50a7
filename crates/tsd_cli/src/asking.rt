//! What is asked at a terminal before a disk is lost.

use file_stations::{FileStation, InputSource, Progress};
use image_device::Source;
use image_files::{ImageFile, Opening, Sectors, Shown};
use image_layout::read_header;
use place_policy::PlaceBook;
use script_text::fields::parse_number;
use std::alloc::AllocError;
use std::io::{self, IsTerminal, Write};
use tsd_serve::{Status, tsd};

/// The most bytes of an answer that are read.
const ANSWER_MAX: usize = 80;

/// What is known of a disk that would be lost.
#[derive(Clone, Copy, Debug, PartialEq, Eq)]
enum Loss {
    /// It has no block but its primary ones, or it can't be opened: then that is told where a new one is to be made.
    None,

    /// So many of its blocks are live.
    Live(u32),

    /// It can't be read as a disk.
    Unread,
}

/// Whether the disk in the file at a path stays, since who sits at the terminal wants that. Where there is no terminal
/// nobody is asked.
pub fn is_kept<S: Source, E: Write>(
    rt: &HostRuntime,
    path: &str,
    book: &PlaceBook,
    input: &mut S,
    errors: &mut E,
) -> bool {
    if !rt.stdin().is_terminal() || !rt.stderr().is_terminal() {
        return false;
    }
    let name = Shown { name: path };
    let _asked = match loss_of(rt, path, book) {
        Ok(Loss::None) => return false,
        Ok(Loss::Live(count)) => write!(
            errors,
            "tsd: {name}: it holds a disk with {count} live blocks. Make a new one in its place? (yes or no) "
        ),
        _ => write!(
            errors,
            "tsd: {name}: it holds a disk that can't be read. Make a new one in its place? (yes or no) "
        ),
    };
    !says_yes(input)
}

/// What would be lost of the disk in the file at a path, by what `check` finds.
fn loss_of(rt: &HostRuntime, path: &str, book: &PlaceBook) -> Result<Loss, AllocError> {
    let alloc = rt.alloc();
    let Ok(mut image) = ImageFile::open(rt, path, Opening::Looked) else {
        return Ok(Loss::None);
    };
    let mut sector = [0u8; 512];
    let header = match image.read(0, &mut sector) {
        Ok(()) => read_header(&sector),
        Err(_) => return Ok(Loss::Unread),
    };
    let Ok(header) = header else {
        return Ok(Loss::Unread);
    };
    let mut command = Vec::new(alloc);
    command.push(String::from_str(alloc, "check")?)?;
    let mut sent = Vec::new(alloc);
    let mut nothing = InputSource::new(io::empty());
    let mut station = FileStation::new(alloc, Ok(image), &mut sent, Progress::of(rt));
    let status = tsd(alloc, &command, &mut nothing, &mut station, book);
    let finished = station.finish();
    drop(station);
    Ok(match (status, live_in(sent.as_slice())) {
        _ if finished.is_err() => Loss::Unread,
        (Status::Done, Some(live)) if live <= header.geometry.primaries => Loss::None,
        (Status::Done, Some(live)) => Loss::Live(live),
        _ => Loss::Unread,
    })
}

/// The number of live blocks in the line of `check`, its second word.
fn live_in(line: &[u8]) -> Option<u32> {
    let mut words = line.split(|byte| byte.is_ascii_whitespace());
    let _clean = words.next()?;
    parse_number(words.next()?)
}

/// Whether the next line of an input says yes. No byte behind it is taken.
fn says_yes<S: Source>(input: &mut S) -> bool {
    let mut line = [b' '; ANSWER_MAX];
    for place in line.iter_mut() {
        let mut byte = [0u8; 1];
        match input.take(&mut byte) {
            Ok(1) if byte[0] != b'\n' => *place = byte[0],
            _ => break,
        }
    }
    matches!(line.trim_ascii(), b"yes" | b"y" | b"YES")
}
