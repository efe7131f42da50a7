//! Records as a version keeps them.

ghost use Rattle.std.specs.Prelude.{◌≡◌, map};
ghost use Rattle.image_layout.specs.Header.{IsVersion};
ghost use Rattle.tsd_model.specs.Records.{kept, upgraded_record};
ghost use Rattle.cap_store.specs.Store.{IsRecord};

use tsd_model::caps::CAP_BYTES;
use tsd_model::records::{kept, upgraded_record};
use tsd_model::{Cap, CapPair, KeptCap, Record};

/// What a position has before it is read or written.
pub(crate) const BLANK: Record = Record {
    read: KeptCap::Plain(Cap {
        bytes: [0; CAP_BYTES],
    }),
    write: KeptCap::Plain(Cap {
        bytes: [0; CAP_BYTES],
    }),
};

/// What a version keeps of a pair of capabilities.
pub(crate) fn record_of(version: u32, caps: &CapPair) -> Record
    requires { IsVersion version }
    ensures value { result ≡ kept version caps.now }
    ensures kept { IsRecord version result }
{
    kept(version, caps)
}

/// Keeps of each capability its digest alone.
pub(crate) fn upgrade_each(records: &mut [Record])
    ensures { records.new ≡ map upgraded_record records.old }
{
    for held in records.iter_mut() {
        *held = upgraded_record(held);
    }
}
