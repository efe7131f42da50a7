//! An image opened and served in groups, over a port that is lent.

ghost use Rattle.std.specs.Prelude.{◌≡◌, ◌≤◌, []};
ghost use Rattle.image_device.specs.Runs.{IsFirm};
ghost use Rattle.image_world.specs.Behind.{LeavesBehind};
ghost use Rattle.recovery.specs.Opening.{IsForeign, IsUntouched, SparesDamaged};
ghost use Rattle.serving.specs.Faults.{TellsFaults};
ghost use Rattle.serving.specs.Prompt.{IsOfPort};
ghost use Rattle.serving.specs.Ran.{EndsOnce, moments, taking};
ghost use Rattle.image_runs.specs.Opened.{IsJudged};
ghost use Rattle.image_groups.specs.Served.{ImageRanByRounds, ImageRanInGroups};

use crate::run::serve_image_in_groups;
use image_device::{Port, Source};
use lent_port::{Lender, Lent, Loan};
use place_policy::Placement;
use serving::{INPUT_MAX, Protocol, Replies};
use std::alloc::Global;
use std::marker::Brand;
use tsd_model::Request;
use tsd_words::Status;

/// Opens an image and serves the requests of an input in groups, as [`serve_image_in_groups`] does, over a port that
/// stays where it is.
pub fn serve_port_in_groups<S: Source, P: Port, R: Protocol<Request = Request> + Replies>(
    alloc: Global,
    placement: &Placement,
    protocol: &mut R,
    source: &mut S,
    port: &mut P,
    limit: u64,
) -> Status
    requires few { limit ≤ INPUT_MAX }
    requires fresh { R.was_fed [] protocol.old }
    ensures read { P.told → IsJudged (P.view port.old).reads result }
    // What came in and what was sent, by status; what a crash at any moment may have left; and what the disk is after
    // Done.
    /// promise: What `serve_image_in_groups` says of a port that it takes and gives back holds of a port that stays
    /// where it is.
    ensures ran { ImageRanInGroups result R.voice R.spelling placement.now.kind limit
        (taking S.told S.taken S.left_bytes S.ended source.old source.new) (moments P.told P.view port.old port.new) }
    /// promise: What `serve_image_in_groups` says of its rounds holds of such a port too.
    ensures rounds { P.told → ImageRanByRounds result R.voice R.spelling placement.now.kind (IsOfPort P.view) limit
        (taking S.told S.taken S.left_bytes S.ended source.old source.new) (P.view port.old) (P.view port.new) }
    // Where the image fails one of the tests that need no write, nothing is written, and the disk reads as before;
    // where it fails another, nothing is lost that a repair could use, whatever is answered.
    ensures untouched { P.told → IsForeign (P.view port.old).reads
        → IsUntouched (P.view port.old) (P.view port.new) }
    ensures spared { P.told → SparesDamaged (P.view port.old) (P.view port.new) }
    // However it ended, a crash at any moment leaves what lies behind the image as it was.
    /// promise: A crash at any moment leaves what lies after the end of the image as it was; of the records that say so
    /// there is one, and none is picked.
    ensures behind { P.told → IsFirm (P.view port.old) → ∥ LeavesBehind (P.view port.old) (P.view port.new) ∥₁ }
    ensures once { EndsOnce (S.ends source.old) (S.ends source.new) }
    ensures faults { TellsFaults result (S.faults source.old) (S.faults source.new) (P.view port.old)
        (P.view port.new) }
{
    let loan = Loan { port };
    let served = serve_loan::<S, P, R, Brand>(alloc, placement, protocol, source, loan, limit);
    served.1
}

/// The same over a loan, which it gives back.
fn serve_loan<'a, S: Source, P: Port, R: Protocol<Request = Request> + Replies, K: Lender>(
    alloc: Global,
    placement: &Placement,
    protocol: &mut R,
    source: &mut S,
    loan: Loan<'a, P>,
    limit: u64,
) -> (Loan<'a, P>, Status)
    requires few { limit ≤ INPUT_MAX }
    requires fresh { R.was_fed [] protocol.old }
    requires lender { loan.port.ghost_name ≡ K.name }
    ensures lender { result.0.port.ghost_name ≡ K.name }
    ensures read { P.told → IsJudged (P.view loan.entry.port.now).reads result.1 }
    ensures ran { ImageRanInGroups result.1 R.voice R.spelling placement.now.kind limit
        (taking S.told S.taken S.left_bytes S.ended source.old source.new)
        (moments P.told P.view loan.entry.port.now result.0.port.now) }
    ensures rounds { P.told → ImageRanByRounds result.1 R.voice R.spelling placement.now.kind (IsOfPort P.view) limit
        (taking S.told S.taken S.left_bytes S.ended source.old source.new) (P.view loan.entry.port.now)
        (P.view result.0.port.now) }
    ensures untouched { P.told → IsForeign (P.view loan.entry.port.now).reads
        → IsUntouched (P.view loan.entry.port.now) (P.view result.0.port.now) }
    ensures spared { P.told → SparesDamaged (P.view loan.entry.port.now) (P.view result.0.port.now) }
    ensures behind { P.told → IsFirm (P.view loan.entry.port.now)
        → ∥ LeavesBehind (P.view loan.entry.port.now) (P.view result.0.port.now) ∥₁ }
    ensures once { EndsOnce (S.ends source.old) (S.ends source.new) }
    ensures faults { TellsFaults result.1 (S.faults source.old) (S.faults source.new) (P.view loan.entry.port.now)
        (P.view result.0.port.now) }
{
    let lent = Lent::<P, K>::new(loan);
    let (lent, status) = serve_image_in_groups(alloc, placement, protocol, source, lent, limit);
    (lent.into_loan(), status)
}
