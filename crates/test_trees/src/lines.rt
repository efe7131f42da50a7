//! Lines of the shell, each with its answer, and what tests need of a site.

use chain_fs::ChainFs;
use fixtures_fs::{Site, Tested, again, answer_to, begun, bytes_of, expanded, name_path};
use fs_trees::Path;
use inode_fs::InodeFs;
use std::alloc::Global;
use std::process::Abort;
use tsd_model::Data;

/// The file system of inodes over a plain disk.
pub type InodeSite = Site<InodeFs>;

/// The file system of chains over a plain disk.
pub type ChainSite = Site<ChainFs>;

/// A fresh disk of so many sectors a block, blocks and slots, and a file system of which nothing is mounted.
pub fn fresh<F: Tested>(
    rt: &impl Abort,
    alloc: Global,
    (sectors, blocks, slots): (u32, u32, u32),
) -> Site<F> {
    begun(alloc, sectors, blocks, slots).expect(rt, "ample memory")
}

/// The same disk, mounted by a file system that knows nothing of it.
pub fn mounted_again<F: Tested>(rt: &impl Abort, alloc: Global, site: Site<F>) -> Site<F> {
    let mut site = again(alloc, site).expect(rt, "ample memory");
    assert_eq!(rt; site.mount(), Ok(()));
    site
}

/// The path that a word spells.
pub fn path_of(rt: &impl Abort, word: &[u8]) -> Path {
    name_path(word).expect(rt, "a path")
}

/// The bytes that a text of digits spells.
pub fn data_of(rt: &impl Abort, alloc: Global, digits: &str) -> Data {
    bytes_of(alloc, digits).expect(rt, "digits")
}

/// Asserts that a line is answered so. In both texts `61*3` stands for `616161`.
pub fn answers<F: Tested>(
    rt: &impl Abort,
    alloc: Global,
    site: &mut Site<F>,
    line: &str,
    wanted: &str,
) {
    let mut text = expanded(alloc, wanted).expect(rt, "ample memory");
    assert!(rt; text.push(b'\n').is_ok());
    match answer_to(alloc, site, line) {
        Ok(said) => assert_eq!(rt; said.as_slice(), text.as_slice(), "{line}"),
        Err(_) => panic!(rt; "{line}"),
    }
}

/// Asserts that each line is answered so, one after the other.
pub fn run<F: Tested>(rt: &impl Abort, alloc: Global, site: &mut Site<F>, rows: &[(&str, &str)]) {
    for (line, wanted) in rows {
        answers(rt, alloc, site, line, wanted);
    }
}

/// Asserts that on a fresh disk of this size each line is answered so by the file system of inodes.
pub fn run_fresh(rt: &impl Abort, alloc: Global, size: (u32, u32, u32), rows: &[(&str, &str)]) {
    let mut site: InodeSite = fresh(rt, alloc, size);
    run(rt, alloc, &mut site, rows);
}

/// The same, and then what is answered once the disk was mounted again.
pub fn run_and_mount<F: Tested>(
    rt: &impl Abort,
    alloc: Global,
    size: (u32, u32, u32),
    rows: &[(&str, &str)],
    then: &[(&str, &str)],
) {
    let mut site: Site<F> = fresh(rt, alloc, size);
    run(rt, alloc, &mut site, rows);
    let mut site = mounted_again(rt, alloc, site);
    run(rt, alloc, &mut site, then);
}
