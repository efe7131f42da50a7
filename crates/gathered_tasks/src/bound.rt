// How often a request writes at most.
ghost use Rattle.std.specs.Prelude.{◌≡◌, ◌≤◌, ◌<◌, length, true, Some, IfSome};
ghost use Rattle.image_layout.specs.Ring.{bodies};
ghost use Rattle.image_world.specs.Tables.{pairs_of};
ghost use Rattle.volume_laws.specs.Writes.{batch_cost, zeroed_cost};
ghost use Rattle.image_world.specs.Debt.{owed};
ghost use Rattle.tsd_core.specs.Core.{IsCoreReady, told_world};
ghost use Rattle.gathered_tasks.specs.Bounds.{IsBound, ReclaimsNothing, once_cost, room_for};

use tsd_core::Core;
use tsd_model::{Geometry, Request};

/// More blocks, or more sectors of one, than a batch holds.
const MANY: u32 = 114;

/// How often a request writes at most where the journal is empty before it and emptied behind it; none where it waits,
/// or for so many blocks that no batch holds them.
pub fn writes_at_most(core: &Core, request: &Request) -> Option<u32>
    requires { IsCoreReady core.now }
    /// promise: A request writes so often at most where the journal is empty before it and emptied behind it.
    ensures most { IfSome result (λ most. IsBound core.now.volume request.now most) }
    /// promise: For a request for which nothing is reclaimed, and that a batch holds, it is the room that the request
    /// is given.
    ensures room { ReclaimsNothing core.now request.now
        → room_for core.now.volume.tables.geometry request.now ≤ bodies
        → result ≡ Some (room_for core.now.volume.tables.geometry request.now) }
    /// promise: It is that room or none, and it is none where something is reclaimed before the request or by it.
    ensures some { IfSome result (λ most. ReclaimsNothing core.now request.now
        × (most ≡ room_for core.now.volume.tables.geometry request.now)) }
{
    let geometry = core.geometry();
    match request {
        Request::Write { .. } => of_homes(geometry.sectors),
        Request::SetCap { .. } => of_homes(1),
        Request::Delete { .. } => of_homes(2),
        Request::Create { .. } if has_slot(core, &geometry) => of_homes(2),
        Request::Create { .. } | Request::Sweep { .. } => None,
        Request::Alloc { count, .. } => blocks_at_most(core, *count),
        Request::Contig { count, .. } => blocks_at_most(core, *count),
        _ => Some(0),
    }
}

/// Whether a new pointer finds an empty slot: none is still held by a pair that is to be reclaimed.
fn has_slot(core: &Core, geometry: &Geometry) -> bool
    requires ready { IsCoreReady core.now }
    requires size { geometry.now ≡ core.now.volume.tables.geometry }
    ensures finds { result ≡ true
        → length (pairs_of core.now.volume.tables) < core.now.volume.tables.geometry.slots }
    ensures settled { result ≡ true → owed core.now.volume.tables ≡ 0 }
    ensures has { owed core.now.volume.tables ≡ 0
        → length (pairs_of core.now.volume.tables) < core.now.volume.tables.geometry.slots → result ≡ true }
{
    !core.is_owed() && core.pointers() < geometry.slots
}

/// The same for so many new blocks.
fn blocks_at_most(core: &Core, count: u32) -> Option<u32>
    requires { IsCoreReady core.now }
    ensures most { IfSome result (λ most. (owed core.now.volume.tables ≡ 0)
        × (zeroed_cost (told_world core.now).geometry count ≤ most)) }
    ensures some { IfSome result (λ most. (owed core.now.volume.tables ≡ 0)
        × (most ≡ zeroed_cost (told_world core.now).geometry count)) }
    ensures room { owed core.now.volume.tables ≡ 0 → zeroed_cost (told_world core.now).geometry count ≤ bodies
        → result ≡ Some (zeroed_cost (told_world core.now).geometry count) }
{
    if core.is_owed() || count > MANY {
        return None;
    }
    let zeros = core.geometry().sectors.checked_mul(count)?;
    zeros.checked_add(2 * (3 * count) + 3)
}

/// How often one batch of so many homes writes at most, its records in place behind it.
fn of_homes(homes: u32) -> Option<u32>
    ensures most { IfSome result (λ most. once_cost homes ≤ most) }
    ensures some { IfSome result (λ most. most ≡ batch_cost homes) }
    ensures room { batch_cost homes ≤ bodies → result ≡ Some (batch_cost homes) }
{
    if homes > MANY {
        return None;
    }
    Some(2 * homes + 3)
}
