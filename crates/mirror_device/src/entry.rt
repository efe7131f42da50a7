// What was done to two stations in memory.
ghost use Rattle.std.specs.Prelude.{◌≡◌, ◌<◌, ◌++◌, [], ◌∷◌, vec_len, vec_capacity, OnOk};

use crate::side::Side;
use std::alloc::AllocError;

#[derive(Drop)]
pub(crate) enum LogEntry {
    Write {
        side: Side,
        sector: u32,
        bytes: Box<[u8; 512]>,
    },
    Sync {
        side: Side,
    },
    Put {
        piece: Vec<u8>,
    },
    /// A sector of a side was set from outside, which leaves it firm.
    Poke {
        side: Side,
        sector: u32,
        bytes: Box<[u8; 512]>,
    },
    /// A call on a side failed, which raised its count of faults to this.
    Fail {
        side: Side,
        faults: u64,
    },
}

/// Which sides failed a call for which the record had no room, in the order in which they first did.
/// From then on nothing more is recorded, and the count of faults of such a side stands at the greatest
/// `u64`, so that no later call changes it.
#[derive(Clone, Copy, Debug, PartialEq, Eq)]
pub(crate) enum Lapse {
    Never,
    Of(Side),
    /// This side and then the other one.
    OfBoth(Side),
}

/// Makes room for one entry more in a record from which none is missing.
pub(crate) fn make_room(log: &mut Vec<LogEntry>, lapse: Lapse) -> Result<(), AllocError>
    ensures items { log.new.items ≡ log.old.items }
    ensures whole { OnOk result (lapse ≡ Lapse.Never) }
    ensures room { OnOk result (vec_len log.new < vec_capacity log.new) }
{
    if lapse != Lapse::Never {
        return Err(AllocError);
    }
    log.reserve(1)
}

/// Keeps an entry for which there is room.
pub(crate) fn keep(log: &mut Vec<LogEntry>, entry: LogEntry)
    requires { vec_len log.old < vec_capacity log.old }
    ensures { log.new.items ≡ log.old.items ++ entry ∷ [] }
{
    let _ = log.push(entry);
}
