//! What stands for standard streams that are closed, and which of them go into a file.

use crate::image_file::is_one_file;
use std::fs::{self, Metadata};
use std::io::{self, PipeReader};
use std::os::fd::AsRawFd;

/// The last of the descriptors 0, 1 and 2, which are those of the standard streams.
pub const LAST_STANDARD: i32 = 2;

/// What stands for those standard streams that were closed when the program began, so that nothing else is opened as
/// one of them: for each the reading end of a pipe that nobody writes to. A read of it finds the end, and a write to it
/// fails.
#[derive(Drop)]
pub struct StandIns {
    _held: [Option<PipeReader>; 3],
}

impl StandIns {
    /// Takes the places of the streams that are closed. The system gives the lowest descriptor that is free, so once it
    /// gives one past the last standard stream, none of the three is.
    pub fn take(rt: &HostRuntime) -> io::Result<StandIns> {
        let mut held = [None, None, None];
        for position in held.iter_mut() {
            let end = silent_end(rt)?;
            if end.as_raw_fd() > LAST_STANDARD {
                break;
            }
            *position = Some(end);
        }
        Ok(StandIns { _held: held })
    }
}

/// The reading end of a pipe that nobody writes to.
fn silent_end(rt: &HostRuntime) -> io::Result<PipeReader> {
    let (reader, _writer) = io::pipe(rt)?;
    Ok(reader)
}

/// Where standard output and standard error go, as the system has it among the descriptors of this process.
const OUTPUT: &str = "/proc/self/fd/1";

const ERRORS: &str = "/proc/self/fd/2";

/// Which of the standard streams go into the file at a path.
#[derive(Clone, Copy, Debug, PartialEq, Eq)]
pub struct IntoFile {
    /// Standard output does.
    pub output: bool,

    /// Standard error does.
    pub errors: bool,
}

impl IntoFile {
    /// Of the file at a path. Where it is missing nothing goes there; where the system shows no descriptors none can be
    /// compared.
    pub fn of(rt: &HostRuntime, path: &str) -> IntoFile {
        match fs::metadata(rt, path) {
            Ok(file) => IntoFile {
                output: is_of(rt, OUTPUT, &file),
                errors: is_of(rt, ERRORS, &file),
            },
            Err(_) => IntoFile {
                output: false,
                errors: false,
            },
        }
    }
}

/// Whether a descriptor is of this file.
fn is_of(rt: &HostRuntime, descriptor: &str, file: &Metadata) -> bool {
    match fs::metadata(rt, descriptor) {
        Ok(stream) => is_one_file(&stream, file),
        Err(_) => false,
    }
}
