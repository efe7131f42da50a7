//! The test of counts: each block's count is the number of pairs to it.

ghost use Rattle.std.specs.Prelude.{◌≡◌, length, IfOk, MatchOption};
ghost use Rattle.image_world.specs.Tests.{AreFound, AreSame, IsLeastWrong};
ghost use Rattle.pointer_table.specs.Table.{IsTable};

use pointer_table::PointerTable;
use ref_counts::RefCounts;
use std::alloc::{AllocError, Global};

/// The number of pairs to each block. It looks once at each slot up to the last that holds a pair.
pub(crate) fn pairs_to_each(alloc: Global, pointers: &PointerTable) -> Result<Vec<u32>, AllocError>
    requires { IsTable pointers.now }
    ensures each { IfOk result (λ found. length found.items ≡ pointers.now.geometry.blocks) }
    ensures found { IfOk result (λ found. AreFound found.items pointers.now) }
{
    let mut found = vec![in alloc; 0u32; pointers.geometry().blocks as usize]?;
    for slot in 0..pointers.slots_end() {
        if let Some((_, target)) = pointers.pair_in(slot) {
            found[target as usize] += 1;
        }
    }
    Ok(found)
}

/// The least block whose count isn't the number of pairs that was found to lead to it.
pub(crate) fn least_wrong_count(counts: &RefCounts, found: &[u32]) -> Option<u32>
    requires { length found.now ≡ counts.now.geometry.blocks }
    ensures { MatchOption result (AreSame counts.now.counts found.now counts.now.geometry.blocks)
        (λ b. IsLeastWrong counts.now.counts found.now counts.now.geometry.blocks b) }
{
    for block in 0..counts.geometry().blocks {
        if counts.count(block) != found[block as usize] {
            return Some(block);
        }
    }
    None
}
