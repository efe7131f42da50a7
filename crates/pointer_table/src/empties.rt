//! The list of the empty slots, by the links by bucket, which empty slots don't use otherwise.

ghost use Rattle.std.specs.Prelude.{◌≡◌, ◌<◌, length, count_by, is_some};
ghost use Rattle.pointer_table.specs.Empties.{AreEmpties, AreInRow};
ghost use Rattle.pointer_table.specs.Indexed.{HasLinksAndHeads, IsIndex};
ghost use Rattle.pointer_table.specs.Slots.{slot_at};
ghost use Rattle.pointer_table.specs.Threads.{no_link};

use crate::index::Index;
use crate::links::NO_LINK;
use crate::order::pair_at;
use crate::slots::Slots;

/// Links the empty slots to a list, ascending. Those behind the last slot in memory are in a row already.
pub(crate) fn link_empties(slots: &Slots, index: &mut Index)
    requires few { length slots.now < no_link }
    requires index { IsIndex (slot_at slots.now) index.old }
    requires room { HasLinksAndHeads (length index.old.by_source.heads) (length slots.now) index.old }
    requires row { AreInRow (slot_at slots.now) index.old.by_bucket.next }
    ensures index { IsIndex (slot_at slots.now) index.new }
    ensures room { HasLinksAndHeads (length index.old.by_source.heads) (length slots.now) index.new }
    ensures empties { AreEmpties slots.now (count_by is_some slots.now) index.new.empty index.new.by_bucket.next }
{
    let mut left = slots.end();
    index.empty = if left < slots.len() {
        left as u32
    } else {
        NO_LINK
    };
    while left > 0 {
        left -= 1;
        if pair_at(slots, left as u32).is_none() {
            index.give_empty(left as u32);
        }
    }
}
