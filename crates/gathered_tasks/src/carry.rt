// A request carried out, in memory where there is room.
ghost use Rattle.std.specs.Prelude.{◌≡◌, ◌+◌, ◌≤◌, [], length, true, is_some, Some, OnOk, OnErr, IfOk, IfSome};
ghost use Rattle.image_device.specs.Counts.{CountsFault};
ghost use Rattle.image_device.specs.Runs.{LeavesPart};
ghost use Rattle.image_layout.specs.Ring.{bodies};
ghost use Rattle.image_world.specs.Behind.{behind};
ghost use Rattle.image_world.specs.Debt.{owed};
ghost use Rattle.image_world.specs.Stands.{world_of};
ghost use Rattle.gathering.specs.Gathered.{gone_on};
ghost use Rattle.tsd_model.specs.Run.{IsAnswer};
ghost use Rattle.volume_laws.specs.Writes.{Works};
ghost use Rattle.tsd_core.specs.Applying.{IsToldAnswer, next_world};
ghost use Rattle.tsd_core.specs.Core.{IsCoreAt, IsCoreReady, told_state};
ghost use Rattle.tsd_core.specs.Work.{SameSize};
ghost use Rattle.gathered_tasks.specs.Bounds.{HasRoomFor, IsBound, ReclaimsNothing, room_for, step_cost, takes_freed};
ghost use Rattle.gathered_tasks.specs.Carried.{HoldsOn, IsAmong, CarriesOut, LeavesBaseOrNow};
ghost use Rattle.gathered_tasks.specs.Held.{GoesOn, IsInMemory, IsReadyInMemory, held_state};
ghost use Rattle.gathered_tasks.specs.Rooms.{IsFree, gathered};

use crate::bound::writes_at_most;
use crate::hold::{commit, has_room, in_memory, on_device};
use crate::room::AskRoom;
use crate::task::{Asking, Stepping};
use core_blocks::Placing;
use image_device::{Device, Failed};
use tsd_core::Core;
use tsd_model::{Reply, Request};

/// How many steps of reclamation are made before a request that wants what they give back.
const STEPS: u32 = 64;

/// How often a step writes at most.
const STEP: u32 = 69;

/// How many homes a batch has at most.
const ROOM: u32 = 113;

/// The core's journal goes to the room: what follows is gathered.
pub fn begin(core: &mut Core, room: &mut AskRoom)
    requires ready { IsCoreReady core.old }
    requires free { IsFree room.old }
    ensures ready { IsReadyInMemory core.new }
    /// promise (with ring, here, none): The room has the records of the core's journal, and nothing else changes.
    ensures core { core.new ≡ record core.old { volume = record core.old.volume { ring = [] } } }
    ensures ring { room.new.ring ≡ core.old.volume.ring }
    ensures here { is_some room.new.room ≡ true }
    ensures none { gathered room.new ≡ [] }
{
    core.swap_ring(&mut room.ring);
}

/// Carries out a request: in memory where the batch has room for it, else after a commit, or on the device itself.
pub fn carry_out<D: Device, L: Placing>(
    core: &mut Core,
    dev: &mut D,
    room: &mut AskRoom,
    placement: &L,
    request: &Request,
) -> Result<Reply, Failed>
    requires here { is_some room.old.room ≡ true }
    requires ready { IsReadyInMemory core.old }
    requires at { D.told → IsInMemory core.old room.old.ring (gathered room.old) (D.view dev.old) }
    ensures here { is_some room.new.room ≡ true }
    /// promise (with given, told): A request is answered by the rules of the disk. A crash before the end leaves the
    /// world that was on the device, the one in memory, or the one after the request.
    ensures goes_on { GoesOn D.told core.old core.new room.new.ring (gathered room.old) (gathered room.new)
        (D.view dev.old) (D.view dev.new) (next_world (L.kind placement.now) (held_state core.old (gathered room.old)
        (D.view dev.old)) request.now) result }
    ensures given { D.told → IfOk result (λ r. IsAnswer (L.kind placement.now) (held_state core.old (gathered room.old)
        (D.view dev.old)) request.now r (held_state core.new (gathered room.new) (D.view dev.new))) }
    ensures told { IfOk result (λ r. IsToldAnswer (L.kind placement.now) core.old request.now r core.new) }
    /// promise: What is on the device then is what was there, what was in memory, or what is in memory now.
    ensures base { D.told → OnOk result (IsAmong (world_of (D.view dev.old).reads) (world_of (gone_on
        (gathered room.old) (D.view dev.old).reads)) (world_of (gone_on (gathered room.new) (D.view dev.new).reads))
        (world_of (D.view dev.new).reads)) }
    /// promise: A request for which nothing is reclaimed, and what was gathered has room, writes nothing on the device.
    ensures quiet { HasRoomFor core.old (gathered room.old) request.now
        → (D.view dev.new).writes ≡ (D.view dev.old).writes }
    /// promise: What was gathered grows then by the room that the request is given at most.
    ensures grows { HasRoomFor core.old (gathered room.old) request.now → length (gathered room.new)
        ≤ length (gathered room.old) + room_for core.old.volume.tables.geometry request.now }
{
    settle(core, dev, room, request)?;
    ask(core, dev, room, placement, request)
}

/// Commits what was gathered, and the journal goes back to the core.
pub fn finish<D: Device>(core: &mut Core, dev: &mut D, room: &mut AskRoom) -> Result<(), Failed>
    requires here { is_some room.old.room ≡ true }
    requires ready { IsReadyInMemory core.old }
    requires at { D.told → IsInMemory core.old room.old.ring (gathered room.old) (D.view dev.old) }
    ensures ready { OnOk result (IsCoreReady core.new) }
    ensures at { D.told → OnOk result (IsCoreAt core.new (D.view dev.new)) }
    ensures free { OnOk result (IsFree room.new) }
    /// promise: The core has the journal again, and nothing else in it changes.
    ensures core { OnOk result (core.new ≡ record core.old {
      volume = record core.old.volume {
        ring =
            core.new.volume.ring;
      };
    }) }
    /// promise (with any_moment, behind): What was in memory is on the device then. A crash before the end leaves that,
    /// or what was on the device.
    ensures world { D.told → OnOk result (world_of (D.view dev.new).reads ≡ world_of (gone_on (gathered room.old)
        (D.view dev.old).reads)) }
    ensures any_moment { D.told → LeavesBaseOrNow (gathered room.old) (D.view dev.old) (D.view dev.new) }
    ensures behind { D.told → LeavesPart (behind core.old.volume.tables.geometry) (D.view dev.old) (D.view dev.new) }
    ensures sent { D.told → (D.view dev.new).sent ≡ (D.view dev.old).sent }
    ensures size { SameSize core.old core.new }
    ensures told { OnOk result (told_state core.new ≡ told_state core.old) }
    ensures spent { OnErr result (core.new.volume.is_spent ≡ true) }
    ensures works { Works (D.view dev.old) (D.view dev.new) }
    ensures faults { CountsFault result (D.view dev.old).faults (D.view dev.new).faults }
    /// promise: It writes 236 sectors at most.
    ensures most { (D.view dev.new).writes ≤ (D.view dev.old).writes + 236 }
{
    // All that was gathered becomes one batch here.
    commit(core, dev, room)?;
    core.swap_ring(&mut room.ring);
    Ok(())
}

/// Whether it wants blocks or a slot that reclamation may give back.
fn wants_freed(request: &Request) -> bool
    ensures { result ≡ takes_freed request.now }
{
    matches!(
        request,
        Request::Alloc { .. } | Request::Contig { .. } | Request::Create { .. }
    )
}

/// How often a request writes at most, where an empty batch has room for so much.
fn fitting(core: &Core, request: &Request) -> Option<u32>
    requires { IsCoreReady core.now }
    ensures most { IfSome result (λ most. IsBound core.now.volume request.now most × (most ≤ bodies)) }
    ensures room { ReclaimsNothing core.now request.now
        → room_for core.now.volume.tables.geometry request.now ≤ bodies
        → result ≡ Some (room_for core.now.volume.tables.geometry request.now) }
{
    match writes_at_most(core, request) {
        Some(most) if most <= ROOM => Some(most),
        _ => None,
    }
}

/// Commits what was gathered, unless so many writes more fit into it.
fn make_room<D: Device>(
    core: &mut Core,
    dev: &mut D,
    room: &mut AskRoom,
    writes: u32,
) -> Result<(), Failed>
    requires here { is_some room.old.room ≡ true }
    requires ready { IsReadyInMemory core.old }
    requires at { D.told → IsInMemory core.old room.old.ring (gathered room.old) (D.view dev.old) }
    requires few { writes ≤ bodies }
    ensures here { is_some room.new.room ≡ true }
    ensures holds { HoldsOn D.told core.old core.new room.new.ring (gathered room.old) (gathered room.new)
        (D.view dev.old) (D.view dev.new) result }
    ensures same { OnOk result (core.new ≡ core.old) }
    ensures fits { OnOk result (length (gathered room.new) + writes ≤ bodies) }
    ensures quiet { length (gathered room.old) + writes ≤ bodies
        → (D.view dev.new).writes ≡ (D.view dev.old).writes }
    ensures keeps { length (gathered room.old) + writes ≤ bodies → gathered room.new ≡ gathered room.old }
{
    if has_room(room, writes) {
        return Ok(());
    }
    commit(core, dev, room)
}

/// Makes some steps of reclamation in memory, or as many as are left, before a request that wants what they give back.
fn settle<D: Device>(
    core: &mut Core,
    dev: &mut D,
    room: &mut AskRoom,
    request: &Request,
) -> Result<(), Failed>
    requires here { is_some room.old.room ≡ true }
    requires ready { IsReadyInMemory core.old }
    requires at { D.told → IsInMemory core.old room.old.ring (gathered room.old) (D.view dev.old) }
    ensures here { is_some room.new.room ≡ true }
    ensures holds { HoldsOn D.told core.old core.new room.new.ring (gathered room.old) (gathered room.new)
        (D.view dev.old) (D.view dev.new) result }
    ensures still { (takes_freed request.now ≡ true → owed core.old.volume.tables ≡ 0)
        → (core.new ≡ core.old) × (gathered room.new ≡ gathered room.old) × (dev.new ≡ dev.old) }
{
    if !wants_freed(request) {
        return Ok(());
    }
    for _ in 0..STEPS {
        settle_step(core, dev, room)?;
    }
    Ok(())
}

/// Makes one step of reclamation in memory, if one is left.
fn settle_step<D: Device>(core: &mut Core, dev: &mut D, room: &mut AskRoom) -> Result<(), Failed>
    requires here { is_some room.old.room ≡ true }
    requires ready { IsReadyInMemory core.old }
    requires at { D.told → IsInMemory core.old room.old.ring (gathered room.old) (D.view dev.old) }
    ensures here { is_some room.new.room ≡ true }
    ensures holds { HoldsOn D.told core.old core.new room.new.ring (gathered room.old) (gathered room.new)
        (D.view dev.old) (D.view dev.new) result }
    ensures still { owed core.old.volume.tables ≡ 0
        → (core.new ≡ core.old) × (gathered room.new ≡ gathered room.old) × (dev.new ≡ dev.old) }
    ensures quiet { length (gathered room.old) + step_cost ≤ bodies
        → (D.view dev.new).writes ≡ (D.view dev.old).writes }
{
    if !core.is_owed() {
        return Ok(());
    }
    make_room(core, dev, room, STEP)?;
    in_memory(core, dev, room, &Stepping)?;
    Ok(())
}

/// Carries out a request: in memory where an empty batch has room for it, else after a commit on the device itself.
fn ask<D: Device, L: Placing>(
    core: &mut Core,
    dev: &mut D,
    room: &mut AskRoom,
    placement: &L,
    request: &Request,
) -> Result<Reply, Failed>
    requires here { is_some room.old.room ≡ true }
    requires ready { IsReadyInMemory core.old }
    requires at { D.told → IsInMemory core.old room.old.ring (gathered room.old) (D.view dev.old) }
    ensures here { is_some room.new.room ≡ true }
    ensures carried { CarriesOut D.told (L.kind placement.now) request.now core.old core.new room.new.ring
        (gathered room.old) (gathered room.new) (D.view dev.old) (D.view dev.new) result }
    ensures quiet { HasRoomFor core.old (gathered room.old) request.now
        → (D.view dev.new).writes ≡ (D.view dev.old).writes }
    ensures grows { HasRoomFor core.old (gathered room.old) request.now → length (gathered room.new)
        ≤ length (gathered room.old) + room_for core.old.volume.tables.geometry request.now }
{
    match fitting(core, request) {
        Some(most) => {
            make_room(core, dev, room, most)?;
            in_memory(core, dev, room, &Asking { placement, request })
        }
        None => {
            commit(core, dev, room)?;
            on_device(core, dev, room, &Asking { placement, request })
        }
    }
}
