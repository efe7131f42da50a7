//! New blocks in tables and in a batch.

ghost use Rattle.std.specs.Prelude.{◌≡◌, ℕ, ◌+◌, ◌*◌, ◌<◌, ◌≤◌, ◌∷◌, [], true, false};
ghost use Rattle.std.specs.Prelude.{length, slice_set, IsTrue};
ghost use Rattle.image_device.specs.Image.{Image, put_at};
ghost use Rattle.image_layout.specs.Ring.{bodies};
ghost use Rattle.intent_journal.specs.Home.{overlaid};
ghost use Rattle.intent_journal.specs.Homes.{is_lawful_home};
ghost use Rattle.pointer_table.specs.Table.{pairs};
ghost use Rattle.block_alloc.specs.LiveMap.{is_live};
ghost use Rattle.volume_laws.specs.Growing.{parts_of, PartsFit, HasRoom, HidesNone, IsGrown};

use block_alloc::LiveMap;
use image_layout::Patch;
use intent_journal::Batch;
use pointer_table::PointerTable;
use ref_counts::RefCounts;

/// Puts a patch into a batch that has room.
pub(crate) fn put_patch(batch: &mut Batch, patch: &Patch)
    requires home { IsTrue (is_lawful_home patch.now.sector) }
    requires room { length batch.old < bodies }
    ensures few { length batch.new ≤ length batch.old + 1 }
    ensures laid { (x : Image) (n : ℕ) → overlaid batch.new x n ≡ put_at patch.now.sector patch.now.bytes
        (overlaid batch.old x) n }
{
    let _ = batch.put(patch.sector, &patch.bytes);
}

/// Makes a free block live, with a pointer to it from a source.
fn put_one(
    batch: &mut Batch,
    pointers: &mut PointerTable,
    counts: &mut RefCounts,
    live: &mut LiveMap,
    source: u32,
    block: u32,
)
    requires fit { PartsFit live.old.geometry (parts_of pointers.old counts.old live.old) }
    requires source { is_live live.old.live source ≡ true }
    requires inside { block < live.old.geometry.blocks }
    requires free { is_live live.old.live block ≡ false }
    requires room { length (pairs pointers.old) < live.old.geometry.slots }
    requires few { length batch.old + 3 ≤ bodies }
    ensures grown { IsGrown live.old.geometry source (block ∷ []) (parts_of pointers.old counts.old live.old)
        (parts_of pointers.new counts.new live.new) batch.old batch.new }
    ensures live { live.new ≡ record live.old {
      live = slice_set live.old.live block true;
      unhidden = slice_set
          live.old.unhidden block true;
    } }
    ensures pairs { length (pairs pointers.new) ≡ length (pairs pointers.old) + 1 }
    ensures shown { HidesNone live.old → HidesNone live.new }
{
    let slot = pointers.add(source, block).unwrap();
    put_patch(batch, &slot);
    counts.raise(block);
    put_patch(batch, &counts.patch(block));
    live.set_live(block);
    put_patch(batch, &live.patch(block));
}

/// Makes free blocks live, with a pointer to each from a source.
pub fn put_new(
    batch: &mut Batch,
    pointers: &mut PointerTable,
    counts: &mut RefCounts,
    live: &mut LiveMap,
    source: u32,
    blocks: &[u32],
)
    requires none { batch.old ≡ [] }
    requires fit { PartsFit live.old.geometry (parts_of pointers.old counts.old live.old) }
    requires room { HasRoom live.old.geometry (parts_of pointers.old counts.old live.old) source blocks.now }
    requires most { length blocks.now ≤ 32 }
    ensures grown { IsGrown live.old.geometry source blocks.now (parts_of pointers.old counts.old live.old)
        (parts_of pointers.new counts.new live.new) [] batch.new }

    // Where no block is hidden, none is then.
    ensures shown { HidesNone live.old → HidesNone live.new }
{
    for index in 0..blocks.len() {
        put_one(batch, pointers, counts, live, source, blocks[index]);
    }
}
