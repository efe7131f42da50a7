// A batch and the bytes that wait for it, put on a real device.
ghost use Rattle.std.specs.Prelude.{◌≡◌, ◌≤◌, ◌+◌, ◌++◌, length, OnOk};
ghost use Rattle.image_device.specs.Counts.{Rose};
ghost use Rattle.image_device.specs.Runs.{IsFirm, LeavesOnly};
ghost use Rattle.image_device.specs.View.{IsPart};
ghost use Rattle.image_layout.specs.Ring.{bodies};
ghost use Rattle.intent_journal.specs.Home.{home, overlaid, is_journal, AgreeBut};
ghost use Rattle.intent_journal.specs.Ring.{IsRingAt};
ghost use Rattle.gathering.specs.Left.{most_writes, IsLeftByFlush};

use crate::room::commit_some;
use image_device::{Failed, Port, put_all};
use intent_journal::{Batch, Ring};

/// Why a group wasn't ended.
#[derive(Clone, Copy, Debug, PartialEq, Eq, Drop)]
pub enum FlushFault {
    /// The disk failed: its count of faults rose. Nothing was sent.
    Device,

    /// The port failed: its count of faults rose. The group counts, and a front of its bytes may be sent.
    Put,

    /// There was no memory, or no room in the batch. Nothing of the group counts, and nothing was sent.
    Room,
}

impl From<Failed> for FlushFault {
    ghost use Rattle.std.specs.Prelude.{◌≡◌};
    ghost use Rattle.gathering.specs.declared.flush.FlushFault.TheVariants.{Device as DeviceFault};

    ghost from_gives = { λ _ e. e ≡ DeviceFault };

    fn from(_: Failed) -> FlushFault {
        FlushFault::Device
    }
}

/// Commits a batch, unless it is empty, and then sends these bytes.
pub(crate) fn flush_to<P: Port>(
    inner: &mut P,
    ring: &mut Ring,
    batch: &Batch,
    waiting: &[u8],
) -> Result<(), FlushFault>
    requires at { P.told → IsRingAt ring.old (P.view inner.old) }
    requires firm { P.told → IsFirm (P.view inner.old) }
    ensures done { P.told → OnOk result (AgreeBut is_journal (overlaid batch.now (home (P.view inner.old).reads))
        (home (P.view inner.new).reads)) }
    ensures at { P.told → OnOk result (IsRingAt ring.new (P.view inner.new)) }
    ensures firm { P.told → OnOk result (IsFirm (P.view inner.new)) }
    ensures sent { P.told → OnOk result ((P.view inner.new).sent ≡ (P.view inner.old).sent ++ waiting.now) }
    ensures put_done { P.told → result ≡ Err FlushFault.Put → AgreeBut is_journal
        (overlaid batch.now (home (P.view inner.old).reads)) (home (P.view inner.new).reads) }
    ensures put_at { P.told → result ≡ Err FlushFault.Put → IsRingAt ring.new (P.view inner.new) }
    ensures put_firm { P.told → result ≡ Err FlushFault.Put → IsFirm (P.view inner.new) }
    ensures put_sent { P.told → result ≡ Err FlushFault.Put
        → IsPart (P.view inner.old).sent waiting.now (P.view inner.new).sent }
    ensures unsent { P.told → result ≡ Err FlushFault.Device → (P.view inner.new).sent ≡ (P.view inner.old).sent }
    ensures any_moment { P.told → LeavesOnly (P.view inner.old) (P.view inner.new)
        (IsLeftByFlush batch.now waiting.now (P.view inner.old)) }
    ensures device { result ≡ Err FlushFault.Device → Rose (P.view inner.old).faults (P.view inner.new).faults }
    ensures put { result ≡ Err FlushFault.Put → Rose (P.view inner.old).put_faults (P.view inner.new).put_faults }
    ensures room { result ≡ Err FlushFault.Room → ⊥ }
    ensures no_device { (result ≡ Err FlushFault.Device → ⊥) → (P.view inner.new).faults ≡ (P.view inner.old).faults }
    ensures no_put { (result ≡ Err FlushFault.Put → ⊥) → (P.view inner.new).put_faults ≡ (P.view inner.old).put_faults }
    ensures later { (P.view inner.old).clock ≤ (P.view inner.new).clock }
    ensures most { (P.view inner.new).writes ≤ (P.view inner.old).writes + most_writes (length batch.now) }
    ensures fits { length batch.now ≤ bodies }
{
    commit_some(inner, ring, batch)?;
    if put_all(inner, waiting).is_err() {
        return Err(FlushFault::Put);
    }
    Ok(())
}
