//! One entry of a tree, copied.

ghost use Rattle.std.specs.Prelude.{◌≡◌, [], ◌∷◌, take, true, None, IsTrue, IfOk};
ghost use Rattle.fs_trees.specs.Copying.{piece_max};
ghost use Rattle.fs_trees.specs.Tree.{at, bytes_in, is_dir, is_there};
ghost use Rattle.fs_trees.specs.declared.ask.ShellAsk.TheVariants as ask;
ghost use Rattle.fs_port.specs.Files.{has_dirs};
ghost use Rattle.fs_copy.specs.Going.{AreSet, IsFileAt, MakesSteps, IsSource, own_steps, file_size, tree_under};

use crate::pieces::{copy_file, size_of};
use fs_port::{Blocks, Files};
use fs_trees::{FsRefusal, Path};
use fs_walks::Walks;
use tsd_model::Data;

/// Copies what stands at a path: a file with its bytes, or a directory without what is inside. Answers how many bytes a
/// file has; None for a directory.
pub fn copy_entry<K: Blocks, A: Walks, B: Files>(
    disk: &mut K,
    from: &mut A,
    into: &mut B,
    path: &Path,
) -> Result<Option<u64>, FsRefusal>
    requires set { AreSet K.told (A.view from.old) (B.view into.old) (K.view disk.old) }
    requires there { K.told → IsTrue (is_there (at (tree_under (A.view from.old) (K.view disk.old)) path.now)) }
    requires hold { K.told → is_dir (at (tree_under (A.view from.old) (K.view disk.old)) path.now) ≡ true
        → has_dirs (B.view into.old).kind ≡ true }
    ensures goes { MakesSteps K.told (B.view into.old) (K.view disk.old) (K.view disk.new) (own_steps path.now
        (at (tree_under (A.view from.old) (K.view disk.old)) path.now)) result }
    ensures told { K.told → IfOk result (λ size. size ≡ file_size (at (tree_under (A.view from.old) (K.view disk.old))
        path.now)) }
    ensures from_same { A.view from.new ≡ A.view from.old }
    ensures into_same { B.view into.new ≡ B.view into.old }
{
    let mut first = Data::new();
    match from.read_part(disk, path, 0, &mut first) {
        Ok(()) => copy_begun(disk, from, into, path, &first),
        Err(FsRefusal::IsDir) => copy_dir(disk, into, path),
        Err(why) => Err(why),
    }
}

/// Copies a file of which this is the first piece. Answers how many bytes it has.
fn copy_begun<K: Blocks, A: Walks, B: Files>(
    disk: &mut K,
    from: &mut A,
    into: &mut B,
    path: &Path,
    first: &Data,
) -> Result<Option<u64>, FsRefusal>
    requires set { AreSet K.told (A.view from.old) (B.view into.old) (K.view disk.old) }
    requires file { K.told → IsFileAt (tree_under (A.view from.old) (K.view disk.old)) path.now }
    requires first { K.told
        → first.now ≡ take piece_max (bytes_in (at (tree_under (A.view from.old) (K.view disk.old)) path.now)) }
    ensures goes { MakesSteps K.told (B.view into.old) (K.view disk.old) (K.view disk.new) (own_steps path.now
        (at (tree_under (A.view from.old) (K.view disk.old)) path.now)) result }
    ensures told { K.told → IfOk result (λ size. size ≡ file_size (at (tree_under (A.view from.old) (K.view disk.old))
        path.now)) }
    ensures from_same { A.view from.new ≡ A.view from.old }
    ensures into_same { B.view into.new ≡ B.view into.old }
{
    let size = match size_of(disk, from, path, first) {
        Ok(size) => size,
        Err(why) => return Err(why),
    };
    match copy_file(disk, from, into, path, first, size) {
        Ok(()) => Ok(Some(size)),
        Err(why) => Err(why),
    }
}

/// Makes a directory. A disk that tells nothing may call an entry one where the target has none.
fn copy_dir<K: Blocks, B: Files>(
    disk: &mut K,
    into: &mut B,
    path: &Path,
) -> Result<Option<u64>, FsRefusal>
    requires set { IsSource K.told (B.view into.old) (K.view disk.old) }
    requires hold { K.told → has_dirs (B.view into.old).kind ≡ true }
    ensures goes { MakesSteps K.told (B.view into.old) (K.view disk.old) (K.view disk.new)
        (ask.MakeDir path.now ∷ []) result }
    ensures told { IfOk result (λ size. size ≡ None) }
    ensures same { B.view into.new ≡ B.view into.old }
{
    if !into.has_dirs() {
        return Err(FsRefusal::IsDir);
    }
    match into.make_dir(disk, path) {
        Ok(()) => Ok(None),
        Err(why) => Err(why),
    }
}
