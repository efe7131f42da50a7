//! All slots of a table threaded, as a load does it: in the order of the pairs, without a walk.

ghost use Rattle.std.specs.Prelude.{◌≡◌, IfOk, IfErr};
ghost use Rattle.pointer_table.specs.Empties.{AreInRow};
ghost use Rattle.pointer_table.specs.Indexed.{HasLinksAndHeads, IsIndex};
ghost use Rattle.pointer_table.specs.Order.{IsOrder};
ghost use Rattle.pointer_table.specs.Slots.{slot_at};
ghost use Rattle.pointer_table.specs.Table.{IsTable};

use crate::fault::TableFault;
use crate::index::Index;
use crate::order::pair_at;
use crate::slots::Slots;
use std::alloc::Global;
use tsd_model::Geometry;

/// The slots threaded all three ways, from the last pair of their order to the first: each becomes the first of its
/// groups.
pub(crate) fn by_order(
    alloc: Global,
    geometry: &Geometry,
    slots: &Slots,
    order: &[u32],
) -> Result<Index, TableFault>
    requires table { IsTable (record { geometry = geometry.now; slots = slots.now }) }
    requires order { IsOrder slots.now order.now }
    ensures index { IfOk result (IsIndex (slot_at slots.now)) }
    ensures room { IfOk result (HasLinksAndHeads geometry.now.blocks geometry.now.slots) }
    ensures row { IfOk result (λ x. AreInRow (slot_at slots.now) x.by_bucket.next) }
    ensures err { IfErr result (λ e. e ≡ TableFault.NoMemory) }
{
    let mut index = Index::none(alloc, geometry)?;
    let mut left = order.len();
    while left > 0 {
        left -= 1;
        let position = order[left];
        if let Some((source, target)) = pair_at(slots, position) {
            index.add_first(position, source, target);
        }
    }
    Ok(index)
}
