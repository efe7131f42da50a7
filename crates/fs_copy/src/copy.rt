//! A tree, copied.

ghost use Rattle.std.specs.Prelude.{◌≡◌, ◌≢◌, ◌⊎◌, true, cond, None, IfOk, IfErr, OnOk};
ghost use Rattle.fs_trees.specs.declared.refusal.FsRefusal.TheVariants as fs;
ghost use Rattle.fs_laws.specs.Apart.{AreApart};
ghost use Rattle.fs_port.specs.Calls.{IsValidNow};
ghost use Rattle.fs_port.specs.Files.{HasTree, IsClientReady, has_dirs, mounted_now};
ghost use Rattle.fs_port.specs.Runs.{Looks};
ghost use Rattle.fs_copy.specs.Copies.{CopiesTree, CopyRuns, copy_refusal};
ghost use Rattle.fs_copy.specs.Going.{IsSource, tree_under};
ghost use Rattle.fs_copy.specs.Nesting.{first_dir};

use crate::copied::Copied;
use crate::nested::first_dir;
use crate::refusal::CopyRefusal;
use crate::walk::copy_entries;
use fs_port::{Blocks, Files};
use fs_trees::{FsRefusal, Path};
use fs_walks::Walks;

/// What a refusal of a step is to a copy.
fn copy_refusal(why: FsRefusal) -> CopyRefusal
    ensures { result ≡ copy_refusal why }
{
    match why {
        FsRefusal::Device => CopyRefusal::Device,
        refusal => CopyRefusal::Into { refusal },
    }
}

/// The first directory of the source's tree but `/`, where the target has none. Where the source's layout has none,
/// nothing is asked.
fn nested_dir<K: Blocks, A: Walks, B: Files>(
    disk: &mut K,
    from: &mut A,
    into: &B,
) -> Result<Option<Path>, FsRefusal>
    requires set { IsSource K.told (A.view from.old) (K.view disk.old) }
    ensures told { K.told → IfOk result (λ path. path ≡ cond (has_dirs (B.view into.now).kind) None
        (first_dir (tree_under (A.view from.old) (K.view disk.old)))) }
    ensures only { K.told → IfErr result (λ e. e ≢ fs.Device → ⊥) }
    ensures looks { Looks K.told (K.view disk.old) (K.view disk.new) result }
    ensures same { A.view from.new ≡ A.view from.old }
{
    if into.has_dirs() {
        return Ok(None);
    }
    if !from.has_dirs() {
        return Ok(None);
    }
    first_dir(disk, from)
}

/// Copies the tree under one root to another root of the same disk, in either layout, in place of what is there. The
/// source is mounted, and no block is reached from both roots. Afterwards the target is mounted.
///
/// `Nested` comes exactly where the target's layout has no directories and the tree has one, and then nothing has
/// changed. `Into` is the refusal of a step; the target has the tree after those before it. `Device` comes only where
/// the disk's count of faults rose. A disk that tells nothing may answer what no tree gives: that is `Into` too.
pub fn copy_tree<K: Blocks, A: Walks, B: Files>(
    disk: &mut K,
    from: &mut A,
    into: &mut B,
) -> Result<Copied, CopyRefusal>
    requires from_ready { IsClientReady (A.view from.old) (K.view disk.old) }
    requires into_ready { IsClientReady (B.view into.old) (K.view disk.old) }
    requires mounted { (A.view from.old).mounted ≡ true }
    requires valid { K.told → IsValidNow (K.view disk.old) }
    requires tree { K.told → HasTree (A.view from.old) (K.view disk.old) }
    requires apart { K.told → AreApart (K.view disk.old).world (A.view from.old).root (B.view into.old).root }
    /// promise: After Ok the target's root has the source's tree; a refusal leaves the tree after the steps before it;
    /// `Nested` comes exactly where the target's layout has no directories and the tree has one, and then nothing has
    /// changed.
    /// promise: A crash leaves the source's tree, and under the target's root what was there before or the tree after
    /// some of the steps; where the target's layout can't hold the tree, it leaves all as it was.
    ensures copies { K.told → CopiesTree (A.view from.old) (B.view into.old) (K.view disk.old) (K.view disk.new)
        result }
    /// promise: `Device` comes only where the disk's count of faults rose; each other answer leaves that as it was.
    ensures runs { CopyRuns (K.view disk.old) (K.view disk.new) result }
    ensures from_same { A.view from.new ≡ A.view from.old }
    ensures into_mounted { OnOk result (B.view into.new ≡ mounted_now (B.view into.old)) }
    ensures into_same { (B.view into.new ≡ B.view into.old) ⊎ (B.view into.new ≡ mounted_now (B.view into.old)) }
{
    let nested = match nested_dir(disk, from, into) {
        Ok(nested) => nested,
        Err(why) => return Err(copy_refusal(why)),
    };
    match nested {
        Some(path) => return Err(CopyRefusal::Nested { path }),
        None => {}
    }
    match into.make(disk) {
        Ok(()) => {}
        Err(why) => return Err(copy_refusal(why)),
    }
    match copy_entries(disk, from, into) {
        Ok(copied) => Ok(copied),
        Err(why) => Err(copy_refusal(why)),
    }
}
