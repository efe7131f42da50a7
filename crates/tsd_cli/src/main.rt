//! The program `tsd`.
//!
//! What it stands on: `tsd_serve` for the top call; `image_files` and `file_stations` for images in files and the
//! standard streams; the closures that rank blocks are made here.
//!
//! What it promises: the contract of the top call over the objects that are made here. What the command line and a file
//! that a word names are on a real machine is trusted. Tests alone show it: its stored run, and the script
//! `tests/edge`, which runs the built program.
#![tactic(auto)]

mod asking;
mod ended;
mod help;
mod line;
mod opening;
mod run;
mod testing;
mod usage;
mod words;

use file_stations::InputSource;
use image_files::{StandIns, Trouble};
use opening::tells_into_image;
use run::{run, tell};
use std::io::{self, Stderr, Write};
use std::process::ExitCode;
use tsd_serve::{MirrorStatus, Status};
use words::{NoWords, arguments, tell_not_text};

fn main(rt: HostRuntime) -> ExitCode {
    let mut errors = rt.stderr();
    // Before anything else is opened.
    let status = match StandIns::take(&rt) {
        Ok(_held) => answer(&rt, &mut errors),
        Err(error) => {
            let status = MirrorStatus::Ended(Status::DeviceFault);
            tell(&mut errors, &status);
            tell_stream(&mut errors, "streams", &Trouble::from(error));
            status
        }
    };
    ExitCode::from(status.code())
}

/// Does what the command line says, over the standard streams.
fn answer(rt: &HostRuntime, errors: &mut Stderr) -> MirrorStatus {
    let words = match arguments(rt) {
        Ok(words) => words,
        Err(why) => {
            let status = MirrorStatus::Ended(why.status());
            tell(errors, &status);
            if why == NoWords::NotText {
                let _told = tell_not_text(rt, errors);
            }
            return status;
        }
    };
    let mut input = InputSource::new(rt.stdin());
    let mut output = io::writer(rt);
    if tells_into_image(rt, words.as_slice()) {
        return run(rt, words, &mut input, &mut output, &mut io::sink());
    }
    let status = run(rt, words, &mut input, &mut output, errors);
    if let Some(trouble) = input.trouble() {
        tell_stream(errors, "input", &trouble);
    }
    status
}

/// Writes why a call on a standard stream failed.
fn tell_stream<E: Write>(errors: &mut E, name: &str, trouble: &Trouble) {
    let _told = writeln!(errors, "tsd: standard {name}: {trouble}");
}
