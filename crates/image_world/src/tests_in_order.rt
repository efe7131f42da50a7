//! The tests that take more than one table, in their order.

ghost use Rattle.std.specs.Prelude.{◌≡◌};
ghost use Rattle.image_world.specs.Testing.{IsTesting};
ghost use Rattle.pointer_table.specs.Table.{IsTable};

use crate::counting::{least_wrong_count, pairs_to_each};
use crate::ends::least_loose_pair;
use crate::fault::LoadFault;
use crate::primaries::least_free_primary;
use block_alloc::LiveMap;
use image_layout::ImageFault;
use pointer_table::PointerTable;
use ref_counts::RefCounts;
use std::alloc::Global;

/// Tests primary blocks, ends and counts, in this order.
pub(crate) fn test_tables(
    alloc: Global,
    pointers: &PointerTable,
    live: &LiveMap,
    counts: &RefCounts,
) -> Result<(), LoadFault>
    requires table { IsTable pointers.now }
    requires live { live.now.geometry ≡ pointers.now.geometry }
    requires counts { counts.now.geometry ≡ pointers.now.geometry }
    ensures { IsTesting pointers.now live.now counts.now result }
{
    if let Some(block) = least_free_primary(live) {
        return Err(LoadFault::Image(ImageFault::Primary { block }));
    }
    if let Some((source, target)) = least_loose_pair(pointers, live) {
        return Err(LoadFault::Image(ImageFault::EndNotLive { source, target }));
    }
    let found = pairs_to_each(alloc, pointers)?;
    if let Some(block) = least_wrong_count(counts, &found) {
        return Err(LoadFault::Image(ImageFault::Count {
            block,
            stored: counts.count(block),
            found: found[block as usize],
        }));
    }
    Ok(())
}
