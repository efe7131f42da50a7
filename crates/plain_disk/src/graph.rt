//! Which blocks are reached and which are doomed.

ghost use Rattle.std.specs.Prelude.{◌≡◌, ◌==◌, ◌&&◌, ◌||◌, not, IfOk};
ghost use Rattle.std.specs.List.{list_any, list_all};
ghost use Rattle.tsd_model.specs.World.{has_number, primary_blocks};
ghost use Rattle.tsd_model.specs.Reach.{is_led_from, reach_round, reach};
ghost use Rattle.tsd_model.specs.Doomed.{is_led_only_from, hangs_on, doomed_round, doomed};

use crate::world::World;
use std::alloc::{AllocError, Global};
use tsd_model::NoMemory;

/// The blocks that the primary blocks lead to, they included, ascending.
pub fn plain_reach(alloc: Global, world: &World) -> Result<Vec<u32>, NoMemory>
    /// promise: The blocks that are reached from the primary ones, ascending.
    ensures { IfOk result (λ v. v.items ≡ reach world.now) }
{
    let mut reached = primary_blocks(alloc, world)?;
    let count = world.geometry().blocks;
    for round in 0..count {
        reached = reach_round(alloc, world, reached.as_slice())?;
    }
    Ok(reached)
}

/// The doomed blocks, ascending: those that would be reclaimed now.
pub fn plain_doomed(alloc: Global, world: &World) -> Result<Vec<u32>, NoMemory>
    /// promise: The doomed blocks, ascending: those that would be reclaimed next.
    ensures { IfOk result (λ v. v.items ≡ doomed world.now) }
{
    let mut gone = Vec::new(alloc);
    let count = world.geometry().blocks;
    for round in 0..count {
        gone = doomed_round(alloc, world, gone.as_slice())?;
    }
    Ok(gone)
}

fn primary_blocks(alloc: Global, world: &World) -> Result<Vec<u32>, AllocError>
    ensures { IfOk result (λ v. v.items ≡ primary_blocks world.now) }
{
    (0..world.geometry().primaries).collect(alloc)
}

fn reach_round(alloc: Global, world: &World, reached: &[u32]) -> Result<Vec<u32>, AllocError>
    ensures { IfOk result (λ v. v.items ≡ reach_round world.now reached.now) }
{
    (0..world.geometry().blocks)
        .filter(|block| is_reached(world, reached, *block))
        .collect(alloc)
}

fn doomed_round(alloc: Global, world: &World, gone: &[u32]) -> Result<Vec<u32>, AllocError>
    ensures { IfOk result (λ v. v.items ≡ doomed_round world.now gone.now) }
{
    (0..world.geometry().blocks)
        .filter(|block| hangs_on(world, gone, *block))
        .collect(alloc)
}

fn is_reached(world: &World, reached: &[u32], block: u32) -> bool
    ensures { result ≡ (has_number reached.now block || is_led_from world.now reached.now block) }
{
    has_number(reached, block) || is_led_from(world.pairs(), reached, block)
}

fn is_led_from(pairs: &[(u32, u32)], from: &[u32], block: u32) -> bool
    ensures { result ≡ list_any (λ e. (e.1 == block) && has_number from.now e.0) pairs.now }
{
    pairs
        .iter()
        .any(|pair| pair.1 == block && has_number(from, pair.0))
}

fn hangs_on(world: &World, gone: &[u32], block: u32) -> bool
    ensures { result ≡ hangs_on world.now gone.now block }
{
    world.is_live(block) && !world.is_primary(block) && is_led_only_from(world.pairs(), gone, block)
}

fn is_led_only_from(pairs: &[(u32, u32)], gone: &[u32], block: u32) -> bool
    ensures { result ≡ list_all (λ e. not (e.1 == block) || has_number gone.now e.0) pairs.now }
{
    pairs
        .iter()
        .all(|pair| pair.1 != block || has_number(gone, pair.0))
}

/// Whether a list has this block.
pub fn has_number(list: &[u32], block: u32) -> bool
    ensures { result ≡ has_number list.now block }
{
    list.iter().any(|number| *number == block)
}
