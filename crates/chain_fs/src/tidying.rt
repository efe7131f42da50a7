//! Pairs that the tree doesn't name are let go of, cluster by cluster.
#![tactic(none)]

ghost use Rattle.std.specs.Prelude.{◌≡◌, [], ◌∷◌, OnOk, ℕ};
ghost use Rattle.fs_trees.specs.ChainTree.{Chains, ChainFile, blocks_of};
ghost use Rattle.fs_client.specs.Trimming.{Trims, IsClean};
ghost use Rattle.chain_fs.specs.Tidying.{named_of, AreClean, FilesAreClean, IsFileHere, MayTidy, MayTidyFile};
ghost use Rattle.chain_fs.specs.Tidying.{MayTidyPage};

use chain_reading::{Page, read_page, read_part};
use fs_client::{Client, delete_others};
use fs_port::Blocks;
use fs_trees::FsRefusal;

/// Deletes the pairs out of a file's clusters that these don't name.
fn tidy_file<K: Blocks>(client: &Client, disk: &mut K, first: u32) -> Result<(), FsRefusal>
    ghost kept: { Chains }
    requires { MayTidyFile K.told client.now kept (K.view disk.old) first }
    ensures trims { Trims K.told client.now (named_of kept) (K.view disk.old) (K.view disk.new) result }
    ensures clean { K.told → OnOk result ((f : ChainFile) → IsFileHere client.now kept (K.view disk.old) first f
        → AreClean (named_of kept) (K.view disk.new).world (blocks_of f.chain)) }
{
    let mut block = first;
    for turn in 0..disk.geometry().blocks {
        let part = match read_part(client, disk, block) {
            Ok(part) => part,
            Err(refusal) => return Err(refusal),
        };
        match delete_others(client, disk, block, &part) {
            Ok(()) => {}
            Err(refusal) => return Err(refusal),
        }
        match part.cluster.cluster().next() {
            Some(next) => block = next,
            None => return Ok(()),
        }
    }
    Err(FsRefusal::NotThisFs)
}

/// Deletes the pairs out of the files of a cluster's entries that these don't name.
fn tidy_files<K: Blocks>(client: &Client, disk: &mut K, page: &Page) -> Result<(), FsRefusal>
    ghost kept: { Chains }
    requires { MayTidyPage K.told client.now kept (K.view disk.old) page.now }
    ensures trims { Trims K.told client.now (named_of kept) (K.view disk.old) (K.view disk.new) result }
    ensures clean { K.told → OnOk result (FilesAreClean kept (K.view disk.new).world page.now.block) }
{
    for position in 0..page.cluster.count() {
        match tidy_file(client, disk, page.cluster.block(position)) {
            Ok(()) => {}
            Err(refusal) => return Err(refusal),
        }
    }
    Ok(())
}

/// Deletes the pairs out of a cluster of the directory, and out of its files, that these don't name.
fn tidy_page<K: Blocks>(client: &Client, disk: &mut K, page: &Page) -> Result<(), FsRefusal>
    ghost kept: { Chains }
    requires { MayTidyPage K.told client.now kept (K.view disk.old) page.now }
    ensures trims { Trims K.told client.now (named_of kept) (K.view disk.old) (K.view disk.new) result }
    ensures own { K.told → OnOk result (AreClean (named_of kept) (K.view disk.new).world (page.now.block ∷ [])) }
    ensures clean { K.told → OnOk result (FilesAreClean kept (K.view disk.new).world page.now.block) }
{
    match delete_others(client, disk, page.block, page) {
        Ok(()) => tidy_files(client, disk, page),
        Err(refusal) => Err(refusal),
    }
}

/// Deletes all pairs out of the tree's clusters that these don't name. Only a fault refuses it.
pub fn tidy<K: Blocks>(client: &Client, disk: &mut K) -> Result<(), FsRefusal>
    ghost kept: { Chains }
    requires { MayTidy K.told client.now kept (K.view disk.old) }
    ensures trims { Trims K.told client.now (named_of kept) (K.view disk.old) (K.view disk.new) result }
    ensures clean { K.told → OnOk result ((a : ℕ) → IsClean (named_of kept) (K.view disk.new).world a) }
{
    let mut block = client.root;
    for turn in 0..disk.geometry().blocks {
        let page = match read_page(client, disk, block) {
            Ok(page) => page,
            Err(refusal) => return Err(refusal),
        };
        match tidy_page(client, disk, &page) {
            Ok(()) => {}
            Err(refusal) => return Err(refusal),
        }
        match page.cluster.cluster().next() {
            Some(next) => block = next,
            None => return Ok(()),
        }
    }
    Err(FsRefusal::NotThisFs)
}
