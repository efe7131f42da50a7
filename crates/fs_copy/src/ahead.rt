//! The names of a directory in order, of which some are read ahead.

ghost use Rattle.std.specs.Prelude.{◌≡◌, ◌≢◌, true, IfErr, IfOk, IfSome};
ghost use Rattle.fs_trees.specs.Tree.{at, is_dir, names_in};
ghost use Rattle.fs_trees.specs.declared.refusal.FsRefusal.TheVariants as no;
ghost use Rattle.fs_port.specs.Files.{above};
ghost use Rattle.fs_port.specs.Runs.{Looks};
ghost use Rattle.fs_copy.specs.Going.{IsSource, tree_under};
ghost use Rattle.fs_copy.specs.Walk.{AreAhead};

use arrayvec::ArrayVec;
use fs_port::Blocks;
use fs_trees::{FsRefusal, Name, Path};
use fs_walks::{NAMES_AT_ONCE, Walks};

/// The least name in a directory above another; the empty name is below all. It is the first of those that were read
/// ahead; where there are none, some are read.
pub fn next_name<K: Blocks, A: Walks>(
    disk: &mut K,
    from: &mut A,
    path: &Path,
    after: &Name,
    ahead: &mut ArrayVec<Name, NAMES_AT_ONCE>,
) -> Result<Option<Name>, FsRefusal>
    requires set { IsSource K.told (A.view from.old) (K.view disk.old) }
    requires dir { K.told → is_dir (at (tree_under (A.view from.old) (K.view disk.old)) path.now) ≡ true }
    requires ahead { K.told → AreAhead (tree_under (A.view from.old) (K.view disk.old)) path.now after.now
        ahead.old.items }
    ensures told { K.told → IfOk result (λ next. next ≡ above after.now (names_in (at (tree_under (A.view from.old)
        (K.view disk.old)) path.now))) }
    ensures ahead { K.told → IfOk result (λ next. IfSome next (λ name. AreAhead (tree_under (A.view from.old)
        (K.view disk.old)) path.now name ahead.new.items)) }
    ensures only { K.told → IfErr result (λ e. e ≢ no.Device → ⊥) }
    ensures looks { Looks K.told (K.view disk.old) (K.view disk.new) result }
    ensures same { A.view from.new ≡ A.view from.old }
{
    if let Some(next) = ahead.pop_at(0) {
        return Ok(Some(next));
    }
    match from.names_after(disk, path, after, ahead) {
        Ok(()) => Ok(ahead.pop_at(0)),
        Err(why) => Err(why),
    }
}
