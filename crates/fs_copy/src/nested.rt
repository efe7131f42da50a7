//! The first directory of a tree but `/`.

ghost use Rattle.std.specs.Prelude.{◌≡◌, ◌≢◌, IsTrue, IfOk, IfErr};
ghost use Rattle.fs_trees.specs.Tree.{at, is_dir, is_there};
ghost use Rattle.fs_trees.specs.declared.refusal.FsRefusal.TheVariants as no;
ghost use Rattle.fs_port.specs.Runs.{Looks};
ghost use Rattle.fs_copy.specs.Going.{IsSource, tree_under};
ghost use Rattle.fs_copy.specs.Nesting.{first_dir};

use fs_port::{Blocks, Files};
use fs_trees::{FsRefusal, NAMES_MAX, Name, Path};

/// Whether a directory stands at a path of a tree.
fn is_dir_at<K: Blocks, A: Files>(
    disk: &mut K,
    from: &mut A,
    path: &Path,
) -> Result<bool, FsRefusal>
    requires set { IsSource K.told (A.view from.old) (K.view disk.old) }
    requires there { K.told → IsTrue (is_there (at (tree_under (A.view from.old) (K.view disk.old)) path.now)) }
    ensures told { K.told → IfOk result (λ it. it ≡ is_dir (at (tree_under (A.view from.old) (K.view disk.old))
        path.now)) }
    ensures only { K.told → IfErr result (λ e. e ≢ no.Device → ⊥) }
    ensures looks { Looks K.told (K.view disk.old) (K.view disk.new) result }
    ensures same { A.view from.new ≡ A.view from.old }
{
    match from.size(disk, path) {
        Ok(_) => Ok(false),
        Err(FsRefusal::IsDir) => Ok(true),
        Err(why) => Err(why),
    }
}

/// The first directory of a tree but `/`. It stands in `/`, since each other is inside one. A disk that tells nothing
/// may go on without end: NotThisFs after 4,096 names.
pub fn first_dir<K: Blocks, A: Files>(disk: &mut K, from: &mut A) -> Result<Option<Path>, FsRefusal>
    requires set { IsSource K.told (A.view from.old) (K.view disk.old) }
    /// promise: The first directory of the tree but `/`.
    ensures told { K.told → IfOk result (λ path. path ≡ first_dir (tree_under (A.view from.old) (K.view disk.old))) }
    ensures only { K.told → IfErr result (λ e. e ≢ no.Device → ⊥) }
    ensures looks { Looks K.told (K.view disk.old) (K.view disk.new) result }
    ensures same { A.view from.new ≡ A.view from.old }
{
    let root = Path::new();
    let mut after = Name::new();
    let mut left = NAMES_MAX + 1;
    while left > 0 {
        let next = match from.name_after(disk, &root, &after) {
            Ok(next) => next,
            Err(why) => return Err(why),
        };
        let name = match next {
            Some(name) => name,
            None => return Ok(None),
        };
        let mut path = Path::new();
        match path.push(name) {
            Ok(()) => {}
            Err(_) => return Err(FsRefusal::NotThisFs),
        }
        let is_dir = match is_dir_at(disk, from, &path) {
            Ok(is_dir) => is_dir,
            Err(why) => return Err(why),
        };
        if is_dir {
            return Ok(Some(path));
        }
        after = match path.pop() {
            Some(last) => last,
            None => return Err(FsRefusal::NotThisFs),
        };
        left -= 1;
    }
    Err(FsRefusal::NotThisFs)
}
