//! One step of reclamation, at a lost block.

ghost use Rattle.std.specs.Prelude.{◌≡◌, ◌⊎◌, true, length, IsTrue, ◌↔◌};
ghost use Rattle.graph_laws.specs.Steps.{IsLost};
ghost use Rattle.reclaim.specs.Stepping.{MayStep, TakesAll, AreKeptBy};
ghost use Rattle.reclaim.specs.Tables.{graph_of, AreTables};

use crate::out_step::OutStep;
use crate::targets::{STEP_TARGETS, first_targets};
use block_alloc::LiveMap;
use pointer_table::PointerTable;

/// The step at a lost block: its first 16 targets, or all where it has no more, and then it is freed.
pub(crate) fn step_at(pointers: &PointerTable, live: &LiveMap, block: u32) -> OutStep
    requires tables { AreTables pointers.now live.now }
    requires lost { IsLost (graph_of pointers.now live.now) block }
    ensures block { result.block ≡ block }
    ensures step { MayStep (graph_of pointers.now live.now) result }
    ensures freed { IsTrue result.freed ↔ TakesAll (graph_of pointers.now live.now) result }
    ensures wide { (result.freed ≡ true) ⊎ (length result.targets ≡ 16) }
    ensures kept { AreKeptBy (graph_of pointers.now live.now) result }
{
    let all = pointers.least_targets(block, STEP_TARGETS + 1);
    OutStep {
        block,
        targets: first_targets(all.as_slice()),
        freed: all.len() <= STEP_TARGETS,
    }
}
