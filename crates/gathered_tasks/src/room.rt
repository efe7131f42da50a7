// What asks need beside a core.
ghost use Rattle.std.specs.Prelude.{IfOk};

use gathering::Room;
use intent_journal::Ring;
use std::alloc::Global;
use tsd_model::NoMemory;

/// What asks need beside a core so that the tasks of each are one commit: room for a batch, and a place for the records
/// of the journal. Taken once.
#[derive(Drop)]
pub struct AskRoom {
    /// The records that are on the device and not in place yet. None where the core has them.
    pub ring: Ring,
    /// What was gathered. It is away only while a task is carried out on it.
    pub room: Option<Room>,
}

impl AskRoom {
    ghost use Rattle.gathered_tasks.specs.Rooms.{IsFree};

    /// Room for asks, with nothing in it. This alone takes memory.
    pub fn new(alloc: Global) -> Result<AskRoom, NoMemory>
        ensures { IfOk result IsFree }
    {
        let ring = Ring::new(alloc)?;
        let room = Room::new(alloc)?;
        Ok(AskRoom {
            ring,
            room: Some(room),
        })
    }
}
