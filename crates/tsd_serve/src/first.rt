//! The first of two images, tested before anything is written to the second one.

ghost use Rattle.std.specs.Prelude.{◌≡◌, ◌↔◌, ◌∷◌, ◌++◌, [], IfErr, IfOk, IsTrue, Some};
ghost use Rattle.image_runs.specs.Opened.{status_of};
ghost use Rattle.tsd_words.specs.StatusText.{fault_text};
ghost use Rattle.tsd_words.specs.declared.status.Status.TheVariants as status;
ghost use Rattle.tsd_serve.specs.MirrorTest.{HasPassed, HasPut, HasStopped, HasTold, OpensImage, TellsWhatIsWrong};

use image_layout::ImageFault;
use image_probe::{OpenFault, test_first};
use mirror_device::{Sides, put_all};
use script_text::OutBuf;
use std::alloc::Global;
use tsd_words::{Command, Status, image_line};

/// Puts the first side through the tests of an image where the command opens one. Where it stands for no world, or that
/// can't be told, it gives the sides back with the status that says why.
pub(crate) fn test_sides<P: Sides>(
    alloc: Global,
    words: &Command,
    sides: P,
) -> Result<P, (Status, P)>
    ensures passed { IfOk result (λ rest. HasPassed P.told (Some words.now) (P.view sides) (P.view rest)) }
    ensures stopped { IfErr result (λ end. HasStopped P.told (Some words.now) end.0 (P.view sides) (P.view end.1)) }
{
    if !opens_image(words) {
        return Ok(sides);
    }
    let (tested, sides) = test_first(alloc, sides);
    match tested {
        Ok(()) => Ok(sides),
        Err(why) => Err(tell(words, why, sides)),
    }
}

/// The status that says why an image isn't opened. Where the command tells what is wrong with an image, its line is
/// put; a put that fails is the status then.
fn tell<P: Sides>(words: &Command, why: OpenFault, sides: P) -> (Status, P)
    ensures { HasTold P.told P.view (Some words.now) (status_of why) result.0 sides result.1 }
{
    match why {
        OpenFault::Image(fault) => tell_fault(words, fault, sides),
        OpenFault::Device => (Status::DeviceFault, sides),
        OpenFault::NoMemory => (Status::NoMemory, sides),
    }
}

/// The same of an image that stands for no world.
fn tell_fault<P: Sides>(words: &Command, fault: ImageFault, sides: P) -> (Status, P)
    ensures { HasTold P.told P.view (Some words.now) (status.NotImage fault) result.0 sides result.1 }
{
    if tells_what_is_wrong(words) {
        return put_fault(fault, sides);
    }
    (Status::NotImage(fault), sides)
}

/// Puts the line of a fault.
fn put_fault<P: Sides>(fault: ImageFault, sides: P) -> (Status, P)
    ensures { HasPut P.told (fault_text fault ++ 10 ∷ []) (status.NotImage fault) result.0 (P.view sides)
        (P.view result.1) }
{
    let mut line = OutBuf::new();
    image_line(&fault, &mut line);
    put_line(line.as_slice(), Status::NotImage(fault), sides)
}

/// Puts a line. The status is as it was, unless a put fails.
fn put_line<P: Sides>(line: &[u8], status: Status, sides: P) -> (Status, P)
    ensures { HasPut P.told line.now status result.0 (P.view sides) (P.view result.1) }
{
    let mut sides = sides;
    match put_all(&mut sides, line) {
        Ok(()) => (status, sides),
        Err(_) => (Status::PutFault, sides),
    }
}

/// Whether a command opens an image: each does but those that make one.
fn opens_image(words: &Command) -> bool
    ensures { IsTrue result ↔ OpensImage (Some words.now) }
{
    !matches!(words, Command::Fresh(_) | Command::Format(_))
}

/// Whether a command tells what is wrong with an image.
fn tells_what_is_wrong(words: &Command) -> bool
    ensures { IsTrue result ↔ TellsWhatIsWrong (Some words.now) }
{
    matches!(words, Command::Check | Command::Info)
}
