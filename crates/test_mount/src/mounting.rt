//! Mounting worlds laid by hand, each on a disk of its own.

use crate::laying::{ByHand, has_pairs, lay};
use fixtures_fs::{Site, Tested, again, begun};
use fs_trees::FsRefusal;
use std::alloc::Global;
use std::process::Abort;

/// A disk of sixteen blocks on which a world is laid.
fn laid<F: Tested>(rt: &impl Abort, alloc: Global, world: &ByHand) -> Site<F> {
    let mut site = begun::<F>(alloc, 1, 16, 64).expect(rt, "ample memory");
    lay(
        rt,
        &mut site.disk,
        world.blocks,
        world.pairs,
        world.said,
        world.case,
    );
    site
}

/// How many blocks are free.
fn free<F: Tested>(rt: &impl Abort, site: &mut Site<F>) -> u32 {
    site.free().expect(rt, "no fault")
}

/// Mounts, which is stopped behind so many requests; gives whether it was done.
fn mounts_within<F: Tested>(rt: &impl Abort, site: &mut Site<F>, asks: u64, case: &str) -> bool {
    site.disk.left = asks;
    let answered = site.mount();
    let is_fault = answered == Err(FsRefusal::Device);
    assert_eq!(rt; is_fault, site.disk.is_stopped, "{case}: behind {asks}");
    answered.is_ok()
}

/// Mounts once more, and asserts that just these pairs are left and just so many blocks are free.
fn is_tidy<F: Tested>(
    rt: &impl Abort,
    site: &mut Site<F>,
    left: &[(u32, u32)],
    unused: u32,
    asks: u64,
    case: &str,
) {
    assert_eq!(rt; site.mount(), Ok(()), "{case}: behind {asks}");
    has_pairs(rt, &mut site.disk, left, case);
    assert_eq!(rt; free(rt, site), unused, "{case}: behind {asks}");
}

/// Lays a tree and mounts it, which is stopped behind so many requests and begun again by a file system that knows
/// nothing of it; gives whether it was done the first time.
fn tidied_within<F: Tested>(
    rt: &impl Abort,
    alloc: Global,
    world: &ByHand,
    left: &[(u32, u32)],
    unused: u32,
    asks: u64,
) -> bool {
    let mut site = laid::<F>(rt, alloc, world);
    let is_done = mounts_within(rt, &mut site, asks, world.case);
    let mut site = again(alloc, site).expect(rt, "ample memory");
    is_tidy(rt, &mut site, left, unused, asks, world.case);
    is_done
}

/// Lays a tree, mounts it, and asserts that just these pairs are left and just so many blocks are free, also where
/// mounting is stopped behind so many requests and begun again.
pub fn tidied<F: Tested>(
    rt: &impl Abort,
    alloc: Global,
    world: &ByHand,
    left: &[(u32, u32)],
    unused: u32,
) {
    for asks in 0..60 {
        if tidied_within::<F>(rt, alloc, world, left, unused, asks) {
            assert!(rt; asks > 0, "{}", world.case);
            return;
        }
    }
    rt.abort()
}

/// Asserts that a world is left alone by a mount, which finds no tree.
fn is_left_alone<F: Tested>(rt: &impl Abort, site: &mut Site<F>, pairs: &[(u32, u32)], case: &str) {
    let before = free(rt, site);
    assert_eq!(rt; site.mount(), Err(FsRefusal::NotThisFs), "{case}");
    has_pairs(rt, &mut site.disk, pairs, case);
    assert_eq!(rt; free(rt, site), before, "{case}");
}

/// Lays a world that is no tree, and asserts that it is left alone.
pub fn left_alone<F: Tested>(rt: &impl Abort, alloc: Global, world: &ByHand) {
    let mut site = laid::<F>(rt, alloc, world);
    is_left_alone(rt, &mut site, world.pairs, world.case);
}
