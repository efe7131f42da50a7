//! Outcomes of calls as outcomes of requests. Each puts a reply into the room for it, also where there was a failure:
//! so the room is written in each case, and needn't be cleared before.

ghost use Rattle.std.specs.Prelude.{◌≡◌, Ok};
ghost use Rattle.tsd_model.specs.declared.replies.Reply.TheVariants as reply;
ghost use Rattle.tsd_core.specs.Carrying.{left_in, replied};

use image_device::Failed;
use tsd_model::{BlockList, Data, Reply, Rule};

/// A rule refuses it.
pub(crate) fn refused(rule: Rule, into: &mut Reply) -> Result<(), Failed>
    ensures { left_in result into.new ≡ Ok (reply.Refused rule) }
{
    *into = Reply::Refused(rule);
    Ok(())
}

/// The request is done.
pub(crate) fn done(outcome: Result<(), Failed>, into: &mut Reply) -> Result<(), Failed>
    ensures { left_in result into.new ≡ replied outcome (λ x. reply.Done) }
{
    *into = Reply::Done;
    outcome
}

/// So many blocks became free.
pub(crate) fn gone(outcome: Result<u32, Failed>, into: &mut Reply) -> Result<(), Failed>
    ensures { left_in result into.new ≡ replied outcome (λ count. reply.Gone count) }
{
    *into = Reply::Gone(outcome.unwrap_or(0));
    outcome?;
    Ok(())
}

/// These bytes were read.
pub(crate) fn bytes(
    outcome: Result<(), Failed>,
    bytes: Data,
    into: &mut Reply,
) -> Result<(), Failed>
    ensures { left_in result into.new ≡ replied outcome (λ x. reply.Bytes bytes) }
{
    *into = Reply::Bytes(bytes);
    outcome
}

/// These blocks are new.
pub(crate) fn blocks(
    outcome: Result<(), Failed>,
    blocks: BlockList,
    into: &mut Reply,
) -> Result<(), Failed>
    ensures { left_in result into.new ≡ replied outcome (λ x. reply.Blocks blocks) }
{
    *into = Reply::Blocks(blocks);
    outcome
}

/// What is answered by a call that left this reply.
#[inline(always)]
pub(crate) fn answered(outcome: Result<(), Failed>, reply: Reply) -> Result<Reply, Failed>
    ensures { result ≡ left_in outcome reply }
{
    outcome?;
    Ok(reply)
}
