//! A step of reclamation in a batch.

ghost use Rattle.std.specs.Prelude.{◌≡◌, ◌≤◌, [], true, false, length};
ghost use Rattle.tsd_model.specs.World.{World};
ghost use Rattle.reclaim.specs.Ahead.{IsStepping, IsAheadOf};
ghost use Rattle.reclaim.specs.Stepping.{after_step};
ghost use Rattle.image_world.specs.Tables.{Tables};
ghost use Rattle.volume_laws.specs.Steps.{MayTake, PairsAreTaken, with_slots_and_counts, MayPut, IsStepPut, with_all};
ghost use Rattle.volume_laws.specs.Steps.{live_after};

use block_alloc::LiveMap;
use intent_journal::Batch;
use pointer_table::PointerTable;
use reclaim::{Ahead, OutStep};
use ref_counts::RefCounts;

/// Takes the pairs from a block to these targets away, and puts the sectors that they change into an empty batch.
fn put_pairs(
    batch: &mut Batch,
    pointers: &mut PointerTable,
    counts: &mut RefCounts,
    source: u32,
    targets: &[u32],
)
    requires none { batch.old ≡ [] }
    requires few { length targets.now ≤ 16 }
    requires tables { (t : Tables) × MayTake t pointers.old counts.old source targets.now }
    ensures taken { (t : Tables) → MayTake t pointers.old counts.old source targets.now
        → PairsAreTaken t source targets.now (with_slots_and_counts t pointers.new counts.new) batch.new }
    ensures slots { pointers.new.geometry ≡ pointers.old.geometry }
    ensures counts { counts.new.geometry ≡ counts.old.geometry }
{
    for target in targets {
        let slot = pointers.remove(source, *target).unwrap();
        counts.lower(*target);
        let count = counts.patch(*target);
        let _ = batch.put(slot.sector, &slot.bytes);
        let _ = batch.put(count.sector, &count.bytes);
    }
}

/// Makes a step in memory, and puts the sectors that it changes into an empty batch.
pub fn put_step(
    batch: &mut Batch,
    pointers: &mut PointerTable,
    counts: &mut RefCounts,
    live: &mut LiveMap,
    step: &OutStep,
)
    requires none { batch.old ≡ [] }
    requires tables { (t : Tables) × MayPut t pointers.old counts.old live.old step.now }
    ensures put { (t : Tables) → MayPut t pointers.old counts.old live.old step.now
        → IsStepPut t step.now (with_all t pointers.new counts.new live.new) batch.new }
    ensures slots { pointers.new.geometry ≡ pointers.old.geometry }
    ensures counts { counts.new.geometry ≡ counts.old.geometry }
    ensures live { live.new.geometry ≡ live.old.geometry }
    ensures shown { live.new.unhidden ≡ live_after live.old.unhidden step.now.block step.now.freed }
{
    put_pairs(batch, pointers, counts, step.block, step.targets.as_slice());
    if step.freed {
        live.set_free(step.block);
        let bits = live.patch(step.block);
        let _ = batch.put(bits.sector, &bits.bytes);
    }
}

/// Tells what is kept ahead of a step that was made, where it is right.
pub fn note_step(ahead: &mut Ahead, is_ready: bool, step: &OutStep)
    requires told { is_ready ≡ true → (w : World) × IsStepping w step.now ahead.old }
    ensures ahead { is_ready ≡ true → (w : World) → IsStepping w step.now ahead.old
        → IsAheadOf (after_step w step.now) ahead.new }
    ensures same { is_ready ≡ false → ahead.new ≡ ahead.old }
{
    if is_ready {
        ahead.done(step);
    }
}
