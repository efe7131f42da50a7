//! The lines of an input, taken as a certificate.

ghost use Rattle.std.specs.Prelude.{◌≡◌, ◌<◌, ◌-◌, ◌^◌, ◌⊎◌, ◌++◌, ◌∷◌, [], ℕ, List, Option, None, length};
ghost use Rattle.std.specs.Prelude.{replicate, IfErr};
ghost use Rattle.image_device.specs.Counts.{CountsFaultOf};
ghost use Rattle.serving.specs.Ran.{EndsOnce, taking};
ghost use Rattle.image_audit.specs.declared.listing.Listing.{Listing as Said};
ghost use Rattle.audit_runs.specs.Answering.{HasAnswered};
ghost use Rattle.audit_runs.specs.Taking.{HasTaken, IsReadAs};
ghost use Rattle.script_text.specs.Pieces.{all_lines};

use crate::lines::ListingLines;
use image_audit::{Certificate, FormFault, Listing};
use image_device::Source;
use serving::{INPUT_MAX, Intake, Next};
use tsd_words::Status;

/// Reads the lines of an input to its end, as those of a certificate that lists nothing yet. What comes is the fault of
/// the first line that it refuses, where it refuses one.
pub(crate) fn take_lines<S: Source>(
    certificate: &mut Certificate,
    source: &mut S,
) -> Result<Option<FormFault>, Status>
    requires none { certificate.old.entries ≡ replicate (length certificate.old.entries) None }
    requires new { certificate.old.lines ≡ 0 }
    ensures blocks { length certificate.new.entries ≡ length certificate.old.entries }
    ensures read { HasAnswered result (taking S.told S.taken S.left_bytes S.ended source.old source.new) (λ fault bytes.
        IsReadAs (length certificate.old.entries) (all_lines bytes) fault certificate.new.entries) }
    ensures failing { IfErr result (λ why. (why ≡ Status.SourceFault) ⊎ (why ≡ Status.TooLong)) }
    ensures once { EndsOnce (S.ends source.old) (S.ends source.new) }
    ensures faults { CountsFaultOf Status.SourceFault result (S.faults source.old) (S.faults source.new) }
{
    let mut lines = ListingLines::new();
    let mut intake = Intake::new(INPUT_MAX);
    let mut fault = None;
    let mut said = None;
    loop {
        match intake.next::<S, ListingLines>(&mut lines, source, &mut said) {
            Next::Request => fault = take_one(certificate, fault, said),
            Next::End => return Ok(fault),
            Next::CutOff => return Ok(fault),
            Next::Fault => return Err(Status::SourceFault),
            Next::TooLong => return Err(Status::TooLong),
        }
    }
}

/// Takes what one more line says, unless one was refused.
fn take_one(
    certificate: &mut Certificate,
    fault: Option<FormFault>,
    said: Option<Listing>,
) -> Option<FormFault>
    ensures blocks { length certificate.new.entries ≡ length certificate.old.entries }
    ensures taken { (blocks : ℕ) (before : List (Option Said)) → length before < 2 ^ 64 - 1
        → HasTaken blocks before fault certificate.old
        → HasTaken blocks (before ++ said ∷ []) result certificate.new }
{
    if fault.is_some() {
        return fault;
    }
    match certificate.take(said) {
        Ok(()) => None,
        Err(fault) => Some(fault),
    }
}
