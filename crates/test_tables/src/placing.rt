//! Placements, also such as count how often they are asked.

ghost use Rattle.std.specs.Prelude.{◌≡◌, IfOk};
ghost use Rattle.tsd_model.specs.Rank.{rank_of};
ghost use Rattle.tsd_model.specs.declared.requests.PlaceKind.TheVariants.{Low, Near};

use place_policy::{Placement, low_rank, near_rank};
use std::alloc::{AllocError, Global};
use std::cell::Cell;
use std::rc::Rc;
use tsd_model::PlaceKind;

/// The placement near the hint.
pub fn near(alloc: Global) -> Result<Placement, AllocError>
    ensures { IfOk result (λ placement. placement.kind ≡ Near) }
{
    let ranks = Box::new(
        alloc,
        |hint: u32, block: u32| -> u64
            ensures { result ≡ rank_of Near hint block }
        { near_rank(hint, block) },
    )?;
    Ok(Placement::new(PlaceKind::Near, ranks))
}

/// The placement from the lowest, where each call of its closure is counted.
pub fn counting_low(alloc: Global, calls: Rc<Cell<u32>>) -> Result<Placement, AllocError> {
    let ranks = Box::new(
        alloc,
        move |hint: u32, block: u32| -> u64
            ensures { result ≡ rank_of Low hint block }
        {
            calls.set(calls.get().wrapping_add(1));
            low_rank(hint, block)
        },
    )?;
    Ok(Placement::new(PlaceKind::Low, ranks))
}

/// The placement near the hint, where each call of its closure is counted.
pub fn counting_near(alloc: Global, calls: Rc<Cell<u32>>) -> Result<Placement, AllocError> {
    let ranks = Box::new(
        alloc,
        move |hint: u32, block: u32| -> u64
            ensures { result ≡ rank_of Near hint block }
        {
            calls.set(calls.get().wrapping_add(1));
            near_rank(hint, block)
        },
    )?;
    Ok(Placement::new(PlaceKind::Near, ranks))
}
