// Tasks carried out on a disk in memory, and on the device below it.
ghost use Rattle.std.specs.Prelude.{◌≡◌, ◌+◌, ◌≤◌, [], ℕ, length, true, is_some, OnOk, IfOk};
ghost use Rattle.image_device.specs.Calls.{Uses};
ghost use Rattle.image_layout.specs.Ring.{bodies};
ghost use Rattle.image_world.specs.Stands.{world_of};
ghost use Rattle.gathered_tasks.specs.Held.{GoesOn, IsInMemory, IsReadyInMemory, held_state};
ghost use Rattle.gathering.specs.Gathered.{gone_on, HasRested};
ghost use Rattle.gathering.specs.Left.{most_writes};
ghost use Rattle.gathered_tasks.specs.Rooms.{gathered};

use crate::room::AskRoom;
use crate::task::Task;
use gathering::{Base, Going, Part};
use image_device::{Device, Failed};
use std::marker::Brand;
use tsd_core::Core;
use tsd_model::Reply;

/// How many homes a batch has at most.
const HOMES_MAX: usize = 113;

/// A device through a reference.
#[derive(Drop)]
struct Below<'a, P: Device> {
    dev: &'a mut P,
}

/// Does a task in memory: the device is only read.
pub fn in_memory<P: Device, T: Task>(
    core: &mut Core,
    dev: &mut P,
    room: &mut AskRoom,
    task: &T,
) -> Result<Reply, Failed>
    requires here { is_some room.old.room ≡ true }
    requires ready { IsReadyInMemory core.old }
    requires at { P.told → IsInMemory core.old room.old.ring (gathered room.old) (P.view dev.old) }
    requires fits { (most : ℕ) × T.is_bound task.now core.old.volume most
        × (length (gathered room.old) + most ≤ bodies) }
    ensures here { is_some room.new.room ≡ true }
    /// promise (with given, told): A task in memory is answered, and changes the disk in memory, as on a device of its
    /// own, and fails only where a read of the device does.
    ensures goes_on { GoesOn P.told core.old core.new room.new.ring (gathered room.old) (gathered room.new)
        (P.view dev.old) (P.view dev.new)
        (T.next task.now (held_state core.old (gathered room.old) (P.view dev.old))) result }
    ensures given { P.told → IfOk result (λ r. T.given task.now
        (held_state core.old (gathered room.old) (P.view dev.old)) r
        (held_state core.new (gathered room.new) (P.view dev.new))) }
    ensures told { IfOk result (λ r. T.told_given task.now core.old r core.new) }
    /// promise (with ring, writes): Nothing is written on the device.
    ensures reads { P.told → (P.view dev.new).reads ≡ (P.view dev.old).reads }
    ensures ring { room.new.ring ≡ room.old.ring }
    ensures writes { (P.view dev.new).writes ≡ (P.view dev.old).writes }
    /// promise: What was gathered grows by one home at most for each time that it writes.
    ensures few { (most : ℕ) → T.is_bound task.now core.old.volume most
        → length (gathered room.new) ≤ length (gathered room.old) + most }
{
    let mut outcome = Err(Failed);
    let below = Below { dev };
    let _left = in_slots::<P, T, Brand>(core, below, room, task, &mut outcome);
    outcome
}

/// The same over the device and what was gathered that proofs pick, where the device is given back. What else comes of
/// it goes through references, so that the device is seen to be the one that was lent.
fn in_slots<'a, P: Device, T: Task, K: Going>(
    core: &mut Core,
    below: Below<'a, P>,
    room: &mut AskRoom,
    task: &T,
    outcome: &mut Result<Reply, Failed>,
) -> Below<'a, P>
    requires device { below.dev.ghost_name ≡ K.device }
    requires batch { gathered room.old ≡ K.batch }
    requires rests { P.told → HasRested K.start (P.view below.dev.now) }
    requires counts { Uses 0 K.start (P.view below.dev.now) }
    requires faults { (P.view below.dev.now).faults ≡ K.start.faults }
    requires here { is_some room.old.room ≡ true }
    requires ready { IsReadyInMemory core.old }
    requires at { P.told → IsInMemory core.old room.old.ring K.batch K.start }
    requires fits { (most : ℕ) × T.is_bound task.now core.old.volume most × (length K.batch + most ≤ bodies) }
    ensures device { result.dev.ghost_name ≡ K.device }
    ensures here { is_some room.new.room ≡ true }
    ensures goes_on { GoesOn P.told core.old core.new room.old.ring K.batch (gathered room.new) K.start
        (P.view result.dev.now) (T.next task.now (held_state core.old K.batch K.start)) outcome.new }
    ensures given { P.told → IfOk outcome.new (λ r. T.given task.now (held_state core.old K.batch K.start) r
        (held_state core.new (gathered room.new) (P.view result.dev.now))) }
    ensures told { IfOk outcome.new (λ r. T.told_given task.now core.old r core.new) }
    ensures reads { P.told → (P.view result.dev.now).reads ≡ K.start.reads }
    ensures ring { room.new.ring ≡ room.old.ring }
    ensures writes { (P.view result.dev.now).writes ≡ K.start.writes }
    ensures few { (most : ℕ) → T.is_bound task.now core.old.volume most
        → length (gathered room.new) ≤ length K.batch + most }
{
    let base = Base {
        dev: below.dev,
        room: room.room.take().unwrap(),
    };
    let mut part = Part::<P, K>::new(base, &room.ring);
    *outcome = task.run(core, &mut part);
    let Base { dev, room: kept } = part.leave();
    room.room = Some(kept);
    Below { dev }
}

/// Does a task on the device itself, with nothing gathered: the records of the journal are put in place before it and
/// behind it.
pub fn on_device<D: Device, T: Task>(
    core: &mut Core,
    dev: &mut D,
    room: &mut AskRoom,
    task: &T,
) -> Result<Reply, Failed>
    requires here { is_some room.old.room ≡ true }
    requires ready { IsReadyInMemory core.old }
    requires at { D.told → IsInMemory core.old room.old.ring (gathered room.old) (D.view dev.old) }
    requires none { gathered room.old ≡ [] }
    ensures here { is_some room.new.room ≡ true }
    /// promise (with given, told, none): The task is done on the device. A crash leaves the world that was on the
    /// device, the one in memory, or the next one.
    ensures goes_on { GoesOn D.told core.old core.new room.new.ring (gathered room.old) (gathered room.new)
        (D.view dev.old) (D.view dev.new)
        (T.next task.now (held_state core.old (gathered room.old) (D.view dev.old))) result }
    ensures given { D.told → IfOk result (λ r. T.given task.now
        (held_state core.old (gathered room.old) (D.view dev.old)) r
        (held_state core.new (gathered room.new) (D.view dev.new))) }
    ensures told { IfOk result (λ r. T.told_given task.now core.old r core.new) }
    ensures base { D.told → OnOk result (world_of (D.view dev.new).reads ≡ world_of (gone_on []
        (D.view dev.new).reads)) }
    ensures none { gathered room.new ≡ [] }
{
    if room.ring.checkpoint(dev).is_err() {
        core.spend();
        return Err(Failed);
    }
    task.run(core, dev)
}

/// Commits what was gathered as one batch, if anything was.
pub fn commit<D: Device>(core: &mut Core, dev: &mut D, room: &mut AskRoom) -> Result<(), Failed>
    requires here { is_some room.old.room ≡ true }
    requires ready { IsReadyInMemory core.old }
    requires at { D.told → IsInMemory core.old room.old.ring (gathered room.old) (D.view dev.old) }
    ensures here { is_some room.new.room ≡ true }
    /// promise (with state, base, none): What was gathered is on the device then, as one batch. A crash before the end
    /// leaves the world that was on the device, or the one in memory.
    ensures goes_on { GoesOn D.told core.old core.new room.new.ring (gathered room.old) (gathered room.new)
        (D.view dev.old) (D.view dev.new)
        (world_of (gone_on (gathered room.old) (D.view dev.old).reads)) result }
    ensures state { D.told → OnOk result (held_state core.new (gathered room.new) (D.view dev.new) ≡ held_state core.old
        (gathered room.old) (D.view dev.old)) }
    ensures same { OnOk result (core.new ≡ core.old) }
    ensures base { D.told → OnOk result (world_of (D.view dev.new).reads ≡ world_of (gone_on (gathered room.old)
        (D.view dev.old).reads)) }
    ensures none { OnOk result (gathered room.new ≡ []) }
    /// promise (with few): It writes 236 sectors at most; nothing where nothing was gathered, and else at most 123 more
    /// than homes were.
    ensures most { (D.view dev.new).writes ≤ (D.view dev.old).writes + 236 }
    ensures few { (D.view dev.new).writes ≤ (D.view dev.old).writes + most_writes (length (gathered room.old)) }
{
    let mut kept = room.room.take().unwrap();
    let outcome = kept.commit(dev, &mut room.ring);
    room.room = Some(kept);
    if outcome.is_err() {
        core.spend();
        return Err(Failed);
    }
    Ok(())
}

/// Whether so many writes more fit into what was gathered.
pub fn has_room(room: &AskRoom, writes: u32) -> bool
    requires { writes ≤ bodies }
    /// promise (with has): True exactly where so many writes more fit.
    ensures fits { result ≡ true → length (gathered room.now) + writes ≤ bodies }
    ensures has { is_some room.now.room ≡ true → length (gathered room.now) + writes ≤ bodies → result ≡ true }
{
    match &room.room {
        Some(room) => room.homes() + writes as usize <= HOMES_MAX,
        None => false,
    }
}
