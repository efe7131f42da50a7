//! `verify`: what a certificate shows of an image.

ghost use Rattle.std.specs.Prelude.{◌≡◌, ℕ, List, Option, length, IfErr};
ghost use Rattle.image_device.specs.Counts.{CountsFaultOf};
ghost use Rattle.image_device.specs.Runs.{IsFirm};
ghost use Rattle.image_world.specs.Behind.{LeavesBehind};
ghost use Rattle.recovery.specs.Opening.{IsForeign, IsUntouched, LeavesData, SparesDamaged};
ghost use Rattle.script_text.specs.Pieces.{all_lines};
ghost use Rattle.serving.specs.Faults.{TellsFaults};
ghost use Rattle.serving.specs.Ran.{EndsOnce, moments, taking};
ghost use Rattle.volume_laws.specs.Volume.{IsVolumeReady, told_by};
ghost use Rattle.image_runs.specs.Looking.{OnlyLooks, OnlyOpens};
ghost use Rattle.image_runs.specs.Opened.{IsJudged};
ghost use Rattle.audit_runs.specs.Answering.{HasAnswered, IsUnanswered, IsUnread};
ghost use Rattle.audit_runs.specs.Taking.{IsReadAs};
ghost use Rattle.audit_runs.specs.Verify.{IsVerdictOver, IsAnswerOf, VerifyRan};

use crate::taking::take_lines;
use image_audit::{Certificate, FormFault, fault_line, verdict_line, verify};
use image_device::{Device, Port, Source};
use image_runs::{open_volume, put_text};
use script_text::OutBuf;
use std::alloc::Global;
use tsd_words::Status;
use volume::Volume;

/// Opens an image, reads the lines of an input to its end as a certificate, and puts one line: that exactly the listed
/// blocks are reached, or the first thing that is wrong.
///
/// The status is Done, NotImage where the image stands for no world, DeviceFault, SourceFault or PutFault where that
/// count rose, TooLong where a byte after the first 2^40 came, or NoMemory where none was found to open the image or
/// for the certificate, before anything is taken.
pub fn verify_image<S: Source, P: Port>(alloc: Global, source: &mut S, port: &mut P) -> Status
    /// promise: The lines of the input are answered, however it was cut, up to its end: with the number of the first
    /// line that is refused, or by the case that applies. All memory is taken before the first line is. Each image left
    /// stands for the same world as the one at the start, or for none as that one.
    ensures ran { VerifyRan result (taking S.told S.taken S.left_bytes S.ended source.old source.new)
        (moments P.told P.view port.old port.new) }
    /// promise (with spared, behind): Where the image fails one of the first three tests, nothing is written, and it
    /// reads as before; where it fails another, nothing is lost that a repair could use, whatever is answered; what
    /// lies after the image is as it was.
    ensures untouched { P.told → IsForeign (P.view port.old).reads
        → IsUntouched (P.view port.old) (P.view port.new) }
    ensures spared { P.told → SparesDamaged (P.view port.old) (P.view port.new) }
    // However it ends, a crash at any moment leaves what lies behind the image as it was.
    ensures behind { P.told → IsFirm (P.view port.old) → LeavesBehind (P.view port.old) (P.view port.new) }
    ensures once { EndsOnce (S.ends source.old) (S.ends source.new) }
    /// promise (with kept): Where nothing is left to be done on the image nothing is written, and else no more than an
    /// opening writes, however it ends; the data of all blocks is as it was in each image left, of free ones too.
    ensures only { P.told → OnlyLooks (P.view port.old) (P.view port.new) }
    ensures kept { P.told → IsFirm (P.view port.old) → LeavesData (P.view port.old) (P.view port.new) }
    ensures faults { TellsFaults result (S.faults source.old) (S.faults source.new) (P.view port.old)
        (P.view port.new) }
{
    let mut line = OutBuf::new();
    match answer(alloc, source, port, &mut line) {
        Ok(()) => put_text(port, &line, Status::Done),
        Err(why) => why,
    }
}

/// Opens an image and reads a certificate. The line is left that says what it shows.
fn answer<S: Source, D: Device>(
    alloc: Global,
    source: &mut S,
    dev: &mut D,
    line: &mut OutBuf,
) -> Result<(), Status>
    ensures answered { HasAnswered result (taking S.told S.taken S.left_bytes S.ended source.old source.new)
        (λ _ bytes. D.told → IsAnswerOf (D.view dev.old).reads bytes line.new) }
    ensures judged { D.told → IfErr result (IsJudged (D.view dev.old).reads) }
    ensures stops { IfErr result IsUnanswered }
    // It does no more than open the image.
    ensures opens { OnlyOpens D.told (D.view dev.old) (D.view dev.new) }
    ensures once { EndsOnce (S.ends source.old) (S.ends source.new) }
    ensures source_faults { CountsFaultOf Status.SourceFault result (S.faults source.old) (S.faults source.new) }
    ensures faults { CountsFaultOf Status.DeviceFault result (D.view dev.old).faults (D.view dev.new).faults }
{
    match open_volume(alloc, dev) {
        Ok(volume) => read_and_verify(alloc, &volume, source, line),
        Err(why) => Err(why),
    }
}

/// Reads a certificate of an open volume. The line is left that says what it shows.
fn read_and_verify<S: Source>(
    alloc: Global,
    volume: &Volume,
    source: &mut S,
    line: &mut OutBuf,
) -> Result<(), Status>
    requires { IsVolumeReady volume.now }
    ensures answered { HasAnswered result (taking S.told S.taken S.left_bytes S.ended source.old source.new)
        (λ _ bytes. IsVerdictOver (told_by volume.now) (all_lines bytes) line.new) }
    ensures stops { IfErr result IsUnread }
    ensures once { EndsOnce (S.ends source.old) (S.ends source.new) }
    ensures faults { CountsFaultOf Status.SourceFault result (S.faults source.old) (S.faults source.new) }
{
    let Ok(mut certificate) = Certificate::new(alloc, volume.geometry().blocks) else {
        return Err(Status::NoMemory);
    };
    match take_lines(&mut certificate, source) {
        Ok(fault) => {
            *line = answer_line(volume, &certificate, fault);
            Ok(())
        }
        Err(why) => Err(why),
    }
}

/// What is answered to the lines that a certificate was read of.
fn answer_line(volume: &Volume, certificate: &Certificate, fault: Option<FormFault>) -> OutBuf
    requires ready { IsVolumeReady volume.now }
    requires blocks { length certificate.now.entries ≡ volume.now.tables.geometry.blocks }
    ensures { (lines : List (List ℕ))
        → IsReadAs (told_by volume.now).geometry.blocks lines fault certificate.now.entries
        → IsVerdictOver (told_by volume.now) lines result }
{
    match fault {
        Some(fault) => fault_line(&fault),
        None => verdict_line(&verify(volume, certificate)),
    }
}
