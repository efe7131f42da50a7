//! The entries of a tree, copied in their order.

ghost use Rattle.std.specs.Prelude.{◌≡◌, ◌+◌, ◌*◌, ◌↔◌, [], ◌∷◌, ◌++◌, true, false, IfOk};
ghost use Rattle.fs_trees.specs.ChainTree.{names_max};
ghost use Rattle.fs_trees.specs.Copying.{entry_steps};
ghost use Rattle.fs_trees.specs.Names.{is_path};
ghost use Rattle.fs_trees.specs.Tree.{at, is_dir};
ghost use Rattle.fs_copy.specs.Counted.{IsCount};
ghost use Rattle.fs_copy.specs.Going.{AreSet, MakesSteps, tree_under};
ghost use Rattle.fs_copy.specs.Nesting.{CanMake};
ghost use Rattle.fs_copy.specs.Walk.{AreAhead, IsCountedOn, IsNextName, WalksOn, inside, todo};

use crate::ahead::next_name;
use crate::copied::Copied;
use crate::entry::copy_entry;
use arrayvec::ArrayVec;
use fs_port::{Blocks, Files};
use fs_trees::{FsRefusal, NAMES_MAX, Name, Path};
use fs_walks::{NAMES_AT_ONCE, Walks};
use image_device::WorkDone;
use tsd_model::Geometry;

/// How many turns the walk takes at most, of a disk of this size: one for each entry, one to leave each directory, and
/// one to end.
fn turns_max(geometry: &Geometry) -> u64
    ensures { result ≡ 2 * (geometry.now.blocks + names_max) + 1 }
{
    2 * (u64::from(geometry.blocks) + u64::from(NAMES_MAX)) + 1
}

/// One file more, with its bytes; a directory counts nothing.
fn counted(copied: Copied, size: Option<u64>) -> Copied
    ensures { IsCountedOn copied result size }
{
    match size {
        Some(bytes) => Copied {
            files: copied.files.saturating_add(1),
            bytes: copied.bytes.saturating_add(bytes),
        },
        None => copied,
    }
}

/// Goes back to the directory around, behind what it comes from. False at `/`.
fn leave(path: &mut Path, after: &mut Name) -> bool
    ensures on { result ≡ true → path.old ≡ path.new ++ after.new ∷ [] }
    ensures over { result ≡ false → path.old ≡ [] }
    ensures there { result ≡ false → path.new ≡ [] }
{
    match path.pop() {
        Some(last) => {
            *after = last;
            true
        }
        None => false,
    }
}

/// Copies the next entry of a directory, and goes inside where that is one.
fn enter<K: Blocks, A: Walks, B: Files>(
    disk: &mut K,
    from: &mut A,
    into: &mut B,
    path: &mut Path,
    after: &mut Name,
    copied: &mut Copied,
    ahead: &mut ArrayVec<Name, NAMES_AT_ONCE>,
    name: Name,
) -> Result<bool, FsRefusal>
    requires set { AreSet K.told (A.view from.old) (B.view into.old) (K.view disk.old) }
    requires next { K.told → IsNextName (tree_under (A.view from.old) (K.view disk.old)) path.old after.old name }
    requires ahead { K.told → AreAhead (tree_under (A.view from.old) (K.view disk.old)) path.old name
        ahead.old.items }
    requires hold { K.told → CanMake (B.view into.old).kind (todo (tree_under (A.view from.old) (K.view disk.old))
        path.old after.old) }
    ensures turns { WalksOn K.told (B.view into.old) (tree_under (A.view from.old) (K.view disk.old)) (K.view disk.old)
        (K.view disk.new) path.old path.new after.old after.new copied.old copied.new result }
    ensures ahead { K.told → IfOk result (λ more. more ≡ true → AreAhead (tree_under (A.view from.old)
        (K.view disk.old)) path.new after.new ahead.new.items) }
    ensures from_same { A.view from.new ≡ A.view from.old }
    ensures into_same { B.view into.new ≡ B.view into.old }
{
    match path.push(name) {
        Ok(()) => {}
        Err(_) => return Err(FsRefusal::NotThisFs),
    }
    let size = match copy_entry(disk, from, into, path) {
        Ok(size) => size,
        Err(why) => return Err(why),
    };
    *copied = counted(*copied, size);
    match size {
        Some(_) => Ok(leave(path, after)),
        None => {
            ahead.clear();
            *after = Name::new();
            Ok(true)
        }
    }
}

/// Copies the next entry of a directory, or leaves it where there is none. False at the end.
fn turn<K: Blocks, A: Walks, B: Files>(
    disk: &mut K,
    from: &mut A,
    into: &mut B,
    path: &mut Path,
    after: &mut Name,
    copied: &mut Copied,
    ahead: &mut ArrayVec<Name, NAMES_AT_ONCE>,
) -> Result<bool, FsRefusal>
    requires set { AreSet K.told (A.view from.old) (B.view into.old) (K.view disk.old) }
    requires dir { K.told → is_dir (at (tree_under (A.view from.old) (K.view disk.old)) path.old) ≡ true }
    requires ahead { K.told → AreAhead (tree_under (A.view from.old) (K.view disk.old)) path.old after.old
        ahead.old.items }
    requires hold { K.told → CanMake (B.view into.old).kind (todo (tree_under (A.view from.old) (K.view disk.old))
        path.old after.old) }
    ensures turns { WalksOn K.told (B.view into.old) (tree_under (A.view from.old) (K.view disk.old)) (K.view disk.old)
        (K.view disk.new) path.old path.new after.old after.new copied.old copied.new result }
    ensures ahead { K.told → IfOk result (λ more. more ≡ true → AreAhead (tree_under (A.view from.old)
        (K.view disk.old)) path.new after.new ahead.new.items) }
    ensures from_same { A.view from.new ≡ A.view from.old }
    ensures into_same { B.view into.new ≡ B.view into.old }
{
    let next = match next_name(disk, from, path, after, ahead) {
        Ok(next) => next,
        Err(why) => return Err(why),
    };
    match next {
        Some(name) => enter(disk, from, into, path, after, copied, ahead, name),
        None => {
            ahead.clear();
            Ok(leave(path, after))
        }
    }
}

/// Copies all entries of a tree, depth first with names ascending. Where the walk is, is the path of a directory and
/// the last name there that was copied; the empty name stands before all. A disk that tells nothing may go on without
/// end: NotThisFs after more entries than it can have.
pub fn copy_entries<K: Blocks, A: Walks, B: Files>(
    disk: &mut K,
    from: &mut A,
    into: &mut B,
) -> Result<Copied, FsRefusal>
    requires set { AreSet K.told (A.view from.old) (B.view into.old) (K.view disk.old) }
    requires hold { K.told → CanMake (B.view into.old).kind (entry_steps []
        (inside (tree_under (A.view from.old) (K.view disk.old)))) }
    ensures goes { MakesSteps K.told (B.view into.old) (K.view disk.old) (K.view disk.new) (entry_steps []
        (inside (tree_under (A.view from.old) (K.view disk.old)))) result }
    ensures count { K.told → IfOk result (λ copied. IsCount (tree_under (A.view from.old) (K.view disk.old)) copied) }
    ensures from_same { A.view from.new ≡ A.view from.old }
    ensures into_same { B.view into.new ≡ B.view into.old }
{
    let mut copied = Copied { files: 0, bytes: 0 };
    let mut path = Path::new();
    let mut after = Name::new();
    let mut ahead = ArrayVec::new();
    let mut left = turns_max(&disk.geometry());
    while left > 0 {
        let more = match turn(
            disk,
            from,
            into,
            &mut path,
            &mut after,
            &mut copied,
            &mut ahead,
        ) {
            Ok(more) => more,
            Err(why) => return Err(why),
        };
        disk.show_work_done(WorkDone::Copied {
            files: copied.files,
            bytes: copied.bytes,
        });
        if !more {
            return Ok(copied);
        }
        left -= 1;
    }
    Err(FsRefusal::NotThisFs)
}
