//! The next step of a sweep.

ghost use Rattle.std.specs.Prelude.{◌≡◌, ◌⊎◌, ℕ, ◌<◌, ◌≤◌, ◌&&◌, nat_le, not, false, [], length};
ghost use Rattle.std.specs.Prelude.{IfSome, IsNone, IsTrue, ◌↔◌};
ghost use Rattle.tsd_model.specs.Reach.{reach, swept};
ghost use Rattle.tsd_model.specs.World.{World, is_live, has_number};
ghost use Rattle.block_alloc.specs.LiveMap.{is_live as is_live_in};
ghost use Rattle.graph_laws.specs.Graph.{HasGraphOf};
ghost use Rattle.cycle_sweep.specs.Marked.{is_marked};
ghost use Rattle.cycle_sweep.specs.Sweep.{MaySweep, AreSweptBy, IsAloneAfter, IsStuck, is_last};
ghost use Rattle.reclaim.specs.Stepping.{TakesAll};
ghost use Rattle.reclaim.specs.Tables.{graph_of, AreTables, HaveCounts};

use crate::marks::Marks;
use block_alloc::LiveMap;
use pointer_table::PointerTable;
use reclaim::{OutStep, STEP_TARGETS, first_targets};
use ref_counts::RefCounts;
use tsd_model::BlockList;

/// The next step of a sweep, at a live block that isn't marked and where one may be taken: its first 16 targets, or all
/// where it has no more. The block is freed exactly where pairs lead neither from it nor to it then. None exactly where
/// each live block is marked.
///
/// Carrying the step out means to take away the pairs from the block to these targets and, if it is freed, the block.
/// The search goes round all blocks, and begins where the last step was.
pub fn next_sweep_step(
    pointers: &PointerTable,
    counts: &RefCounts,
    live: &LiveMap,
    marks: &mut Marks,
) -> Option<OutStep>
    requires tables { AreTables pointers.now live.now }
    requires counts { HaveCounts pointers.now live.now counts.now }
    requires marks { (b : ℕ) → is_marked marks.old b ≡ has_number (reach (graph_of pointers.now live.now)) b }
    /// promise (with wide): A live unmarked block, with 16 of its pairs or all that are left.
    ensures step { IfSome result (λ s. MaySweep (graph_of pointers.now live.now) s) }
    /// promise: The block is freed exactly where no pair leads from it or to it then.
    ensures freed { IfSome result (λ s. IsTrue s.freed ↔ IsAloneAfter (graph_of pointers.now live.now) s) }

    // It takes 16 targets, or all that are left.
    ensures wide { IfSome result (λ s. TakesAll (graph_of pointers.now live.now) s ⊎ (length s.targets ≡ 16)) }

    /// promise: What a disk with this graph sweeps to is the same after the step, and there is less of it.
    ensures kept { IfSome result (λ s. AreSweptBy (graph_of pointers.now live.now) s) }
    /// promise (with swept): None exactly where each live block is marked; then the world is swept.
    ensures none { IsNone result ↔ ((b : ℕ) → IsTrue (is_live (graph_of pointers.now live.now) b)
        → IsTrue (is_marked marks.old b)) }

    // A disk with this graph is swept then.
    ensures swept { IsNone result → (r : World) → HasGraphOf (graph_of pointers.now live.now) r → swept r ≡ r }
    ensures marks { marks.new ≡ marks.old }
{
    let step = step_around(pointers, counts, live, marks);
    if let Some(found) = &step {
        marks.set_position(found.block);
    }
    step
}

/// The step at a live block that isn't marked and where one may be taken. The search goes round all blocks.
fn step_around(
    pointers: &PointerTable,
    counts: &RefCounts,
    live: &LiveMap,
    marks: &Marks,
) -> Option<OutStep>
    requires tables { AreTables pointers.now live.now }
    requires counts { HaveCounts pointers.now live.now counts.now }
    requires marks { (b : ℕ) → is_marked marks.now b ≡ has_number (reach (graph_of pointers.now live.now)) b }
    ensures step { IfSome result (λ s. MaySweep (graph_of pointers.now live.now) s) }
    ensures freed { IfSome result (λ s. IsTrue s.freed ↔ IsAloneAfter (graph_of pointers.now live.now) s) }
    ensures wide { IfSome result (λ s. TakesAll (graph_of pointers.now live.now) s ⊎ (length s.targets ≡ 16)) }
    ensures stuck { IsNone result → (b : ℕ) → IsTrue (is_live (graph_of pointers.now live.now) b)
        → is_marked marks.now b ≡ false → IsStuck (graph_of pointers.now live.now) b }
{
    let blocks = live.geometry().blocks;
    let position = marks.position().min(blocks);
    let step = step_within(pointers, counts, live, marks, position, blocks);
    if step.is_some() {
        return step;
    }
    step_within(pointers, counts, live, marks, 0, position)
}

/// The step at the first live block from `start` on and below `end` that isn't marked and where one may be taken.
fn step_within(
    pointers: &PointerTable,
    counts: &RefCounts,
    live: &LiveMap,
    marks: &Marks,
    start: u32,
    end: u32,
) -> Option<OutStep>
    requires tables { AreTables pointers.now live.now }
    requires counts { HaveCounts pointers.now live.now counts.now }
    requires marks { (b : ℕ) → is_marked marks.now b ≡ has_number (reach (graph_of pointers.now live.now)) b }
    requires end { end ≤ pointers.now.geometry.blocks }
    ensures step { IfSome result (λ s. MaySweep (graph_of pointers.now live.now) s) }
    ensures freed { IfSome result (λ s. IsTrue s.freed ↔ IsAloneAfter (graph_of pointers.now live.now) s) }
    ensures wide { IfSome result (λ s. TakesAll (graph_of pointers.now live.now) s ⊎ (length s.targets ≡ 16)) }
    ensures stuck { IsNone result → (b : ℕ) → start ≤ b → b < end
        → IsTrue (is_live (graph_of pointers.now live.now) b) → is_marked marks.now b ≡ false
        → IsStuck (graph_of pointers.now live.now) b }
{
    for block in start..end {
        if is_unmarked(live, marks, block) {
            let step = step_at(pointers, counts, live, block);
            if step.is_some() {
                return step;
            }
        }
    }
    None
}

/// Whether a block is live and isn't marked. A hidden block is live here.
fn is_unmarked(live: &LiveMap, marks: &Marks, block: u32) -> bool
    requires { block < live.now.geometry.blocks }
    ensures { result ≡ (is_live_in live.now.live block && not (is_marked marks.now block)) }
{
    live.raw_live(block) && !marks.is_marked(block)
}

/// The step at an unreached block, if one may be taken there now.
fn step_at(
    pointers: &PointerTable,
    counts: &RefCounts,
    live: &LiveMap,
    block: u32,
) -> Option<OutStep>
    requires tables { AreTables pointers.now live.now }
    requires counts { HaveCounts pointers.now live.now counts.now }
    requires block { block < pointers.now.geometry.blocks }
    requires live { IsTrue (is_live (graph_of pointers.now live.now) block) }
    requires unreached { has_number (reach (graph_of pointers.now live.now)) block ≡ false }
    ensures step { IfSome result (λ s. MaySweep (graph_of pointers.now live.now) s) }
    ensures freed { IfSome result (λ s. IsTrue s.freed ↔ IsAloneAfter (graph_of pointers.now live.now) s) }
    ensures wide { IfSome result (λ s. TakesAll (graph_of pointers.now live.now) s ⊎ (length s.targets ≡ 16)) }
    ensures none { IsNone result → IsStuck (graph_of pointers.now live.now) block }
{
    let all = pointers.least_targets(block, STEP_TARGETS + 1);
    let targets = first_targets(all.as_slice());
    let own = has_block(targets.as_slice(), block);
    let into = counts.count(block);
    let freed = is_freed(all.len(), into, own);
    if is_idle(freed, &targets) {
        None
    } else {
        Some(OutStep {
            block,
            targets,
            freed,
        })
    }
}

fn has_block(blocks: &[u32], block: u32) -> bool
    ensures { result ≡ has_number blocks.now block }
{
    blocks.iter().any(|other| *other == block)
}

/// Whether a step takes all pairs from a block, and none to it is left.
fn is_freed(targets: usize, into: u32, own: bool) -> bool
    ensures { result ≡ (nat_le targets 16 && is_last into own) }
{
    targets <= STEP_TARGETS && is_last(into, own)
}

/// Whether a step would do nothing.
fn is_idle(freed: bool, targets: &BlockList) -> bool
    ensures { IsTrue result ↔ ((freed ≡ false) × (targets.now ≡ [])) }
{
    !freed && targets.is_empty()
}

/// Whether no pair to a block is left once its own pair is taken, if it has one.
fn is_last(into: u32, own: bool) -> bool
    ensures { result ≡ is_last into own }
{
    if own { into == 1 } else { into == 0 }
}
