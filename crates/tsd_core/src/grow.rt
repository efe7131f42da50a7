//! Allocation. Each call puts a reply into its room first, so that the room is written on each of its ways.

ghost use Rattle.std.specs.Prelude.{◌≡◌, ℕ, ◌+◌, ◌<◌, ◌≤◌, true, false, length};
ghost use Rattle.std.specs.Prelude.{Ok};
ghost use Rattle.tsd_model.specs.World.{is_live};
ghost use Rattle.tsd_model.specs.declared.caps.Shown.{Shown as AnyShown};
ghost use Rattle.tsd_model.specs.declared.requests.PlaceKind.{PlaceKind};
ghost use Rattle.tsd_model.specs.declared.requests.Request.TheVariants as ask;
ghost use Rattle.tsd_core.specs.Core.{IsCoreReady, IsCoreAt, told_world};
ghost use Rattle.tsd_core.specs.Carrying.{IsKnown, IsCarriedOut, left_in};
ghost use Rattle.tsd_model.specs.Placing.{chosen, chosen_run, hint_block, runs};
ghost use Rattle.tsd_model.specs.Step.{run_at};
ghost use Rattle.tsd_model.specs.Verdict.{is_empty};
ghost use Rattle.tsd_model.specs.World.{free_count};
ghost use Rattle.tsd_model.specs.declared.requests.Hint.{Hint as AnyHint};
ghost use Rattle.std.specs.List.{range_with_len};
ghost use Rattle.tsd_core.specs.Seen.{dropped_each};
ghost use Rattle.grant_table.specs.Table.{with_sessions};
ghost use Rattle.tsd_core.specs.Growing.{AreToBeTaken};

use crate::disk::Core;
use crate::outcome::{blocks, refused};
use block_alloc::RunRefusal;
use grant_table::Grants;
use image_device::{Device, Failed};
use place_policy::Placement;
use tsd_model::ranks::hint_block;
use tsd_model::{BlockList, Hint, Reply, Rule};

impl Core {
    /// Takes free blocks and points to them.
    #[inline(never)]
    pub(crate) fn alloc<D: Device>(
        &mut self,
        dev: &mut D,
        placement: &Placement,
        source: u32,
        hint: &Hint,
        count: u32,
        into: &mut Reply,
    ) -> Result<(), Failed>
        requires source { is_live (told_world self.old) source ≡ true }
        requires count { (1 ≤ count) × (count ≤ 32) }
        requires enough { count ≤ free_count (told_world self.old) }
        requires room { length (told_world self.old).pairs + count ≤ (told_world self.old).geometry.slots }
        requires known { IsKnown self.old.volume }
        requires ready { IsCoreReady self.old }
        requires at { D.told → IsCoreAt self.old (D.view dev.old) }
        ensures { (session : ℕ) (shown : AnyShown)
            → IsCarriedOut D.told placement.now.kind (ask.Alloc session source shown hint.now count) self.old self.new
            (D.view dev.old) (D.view dev.new) (left_in result into.new) }
    {
        *into = Reply::Done;
        match self.volume.choose(placement, hint_block(hint), count) {
            Ok(blocks) => self.grow(dev, source, blocks, into),
            Err(short) => {
                let rule = Rule::Full {
                    free: short.free,
                    wanted: short.wanted,
                };
                refused(rule, into)
            }
        }
    }

    /// The same with blocks in a row.
    #[inline(never)]
    pub(crate) fn contig<D: Device>(
        &mut self,
        dev: &mut D,
        placement: &Placement,
        source: u32,
        hint: &Hint,
        count: u32,
        into: &mut Reply,
    ) -> Result<(), Failed>
        requires source { is_live (told_world self.old) source ≡ true }
        requires count { (1 ≤ count) × (count ≤ 32) }
        requires enough { count ≤ free_count (told_world self.old) }
        requires run { is_empty (runs (told_world self.old) count) ≡ false }
        requires room { length (told_world self.old).pairs + count ≤ (told_world self.old).geometry.slots }
        requires known { IsKnown self.old.volume }
        requires ready { IsCoreReady self.old }
        requires at { D.told → IsCoreAt self.old (D.view dev.old) }
        ensures { (session : ℕ) (shown : AnyShown)
            → IsCarriedOut D.told placement.now.kind (ask.Contig session source shown hint.now count) self.old self.new
            (D.view dev.old) (D.view dev.new) (left_in result into.new) }
    {
        *into = Reply::Done;
        match self.volume.choose_run(placement, hint_block(hint), count) {
            Ok(first) => self.grow(dev, source, run_of(first, count), into),
            Err(RunRefusal::Short { free, wanted }) => {
                refused(Rule::Full { free, wanted }, into)
            }
            Err(RunRefusal::NoRun { free, wanted }) => {
                refused(Rule::NoRun { free, wanted }, into)
            }
        }
    }

    /// Makes these free blocks live, and points to them. What sessions still hold at them ends first.
    fn grow<D: Device>(
        &mut self,
        dev: &mut D,
        source: u32,
        new_blocks: BlockList,
        into: &mut Reply,
    ) -> Result<(), Failed>
        requires source { is_live (told_world self.old) source ≡ true }
        requires new { AreToBeTaken (told_world self.old) new_blocks }
        requires room { length (told_world self.old).pairs + length new_blocks ≤ (told_world self.old).geometry.slots }
        requires known { IsKnown self.old.volume }
        requires ready { IsCoreReady self.old }
        requires at { D.told → IsCoreAt self.old (D.view dev.old) }
        ensures alloc { (kind : PlaceKind) (session : ℕ) (shown : AnyShown) (h : AnyHint) (count : ℕ)
            → new_blocks ≡ chosen kind (told_world self.old) h count
            → IsCarriedOut D.told kind (ask.Alloc session source shown h count) self.old self.new (D.view dev.old)
            (D.view dev.new) (left_in result into.new) }
        ensures contig { (kind : PlaceKind) (session : ℕ) (shown : AnyShown) (h : AnyHint) (count : ℕ)
            → new_blocks ≡ run_at (chosen_run kind (told_world self.old) h count) count
            → IsCarriedOut D.told kind (ask.Contig session source shown h count) self.old self.new (D.view dev.old)
            (D.view dev.new) (left_in result into.new) }
    {
        drop_at(&mut self.grants, new_blocks.as_slice());
        let outcome = self.volume.allocate(dev, source, &new_blocks);
        blocks(outcome, new_blocks, into)
    }
}

/// Nothing is held at these blocks any more, in any session.
fn drop_at(grants: &mut Grants, blocks: &[u32])
    ensures { grants.new ≡ with_sessions grants.old (dropped_each blocks.now grants.old.sessions) }
{
    for block in blocks {
        grants.drop_in_all(*block);
    }
}

/// So many blocks in a row.
fn run_of(first: u32, count: u32) -> BlockList
    requires few { count ≤ 32 }
    requires fits { first + count ≤ 1048576 }
    ensures { result ≡ range_with_len first count }
{
    let mut run = BlockList::new();
    for block in first..first + count {
        let _ = run.push(block);
    }
    run
}
