//! The bytes of a file, by its pieces.

ghost use Rattle.std.specs.Prelude.{◌≡◌, ◌≢◌, take, length, IfErr, IfOk};
ghost use Rattle.fs_trees.specs.Copying.{file_steps, piece_max};
ghost use Rattle.fs_trees.specs.Tree.{at, bytes_in};
ghost use Rattle.fs_trees.specs.declared.refusal.FsRefusal.TheVariants as no;
ghost use Rattle.fs_port.specs.Runs.{Looks};
ghost use Rattle.fs_copy.specs.Going.{AreSet, MakesSteps, IsFileAt, IsSource, tree_under};

use crate::batches::{PIECE_BYTES, PIECES_AT_ONCE, append_pieces, read_pieces};
use arrayvec::ArrayVec;
use fs_port::{Blocks, Files};
use fs_trees::{FsRefusal, Path};
use fs_walks::Walks;
use tsd_model::Data;
use tsd_model::lists::DATA_MAX;

/// How many bytes a file has of which this is the first piece. Where that isn't full, it is all of them.
pub fn size_of<K: Blocks, A: Files>(
    disk: &mut K,
    from: &mut A,
    path: &Path,
    first: &Data,
) -> Result<u64, FsRefusal>
    requires set { IsSource K.told (A.view from.old) (K.view disk.old) }
    requires file { K.told → IsFileAt (tree_under (A.view from.old) (K.view disk.old)) path.now }
    requires first { K.told
        → first.now ≡ take piece_max (bytes_in (at (tree_under (A.view from.old) (K.view disk.old)) path.now)) }
    ensures told { K.told → IfOk result (λ size. size ≡ length (bytes_in (at (tree_under (A.view from.old)
        (K.view disk.old)) path.now))) }
    ensures only { K.told → IfErr result (λ e. e ≢ no.Device → ⊥) }
    ensures looks { Looks K.told (K.view disk.old) (K.view disk.new) result }
    ensures same { A.view from.new ≡ A.view from.old }
{
    let count = first.len();
    if count < DATA_MAX {
        return Ok(count as u64);
    }
    from.size(disk, path)
}

/// Copies a file of so many bytes, of which this is the first piece. That is put also where it has no bytes.
pub fn copy_file<K: Blocks, A: Walks, B: Files>(
    disk: &mut K,
    from: &mut A,
    into: &mut B,
    path: &Path,
    first: &Data,
    size: u64,
) -> Result<(), FsRefusal>
    requires set { AreSet K.told (A.view from.old) (B.view into.old) (K.view disk.old) }
    requires file { K.told → IsFileAt (tree_under (A.view from.old) (K.view disk.old)) path.now }
    requires first { K.told
        → first.now ≡ take piece_max (bytes_in (at (tree_under (A.view from.old) (K.view disk.old)) path.now)) }
    requires sized { K.told → size ≡ length (bytes_in (at (tree_under (A.view from.old) (K.view disk.old)) path.now)) }
    ensures goes { MakesSteps K.told (B.view into.old) (K.view disk.old) (K.view disk.new) (file_steps path.now
        (bytes_in (at (tree_under (A.view from.old) (K.view disk.old)) path.now))) result }
    ensures from_same { A.view from.new ≡ A.view from.old }
    ensures into_same { B.view into.new ≡ B.view into.old }
{
    match into.put(disk, path, first) {
        Ok(()) => {}
        Err(why) => return Err(why),
    }
    let pieces = size.div_ceil(PIECE_BYTES);
    let mut i: u64 = 1;
    while i < pieces {
        let mut read = ArrayVec::new();
        let count = (pieces - i).min(PIECES_AT_ONCE as u64);
        match read_pieces(disk, from, path, i, count, &mut read) {
            Ok(()) => {}
            Err(why) => return Err(why),
        }
        match append_pieces(disk, into, path, &read) {
            Ok(()) => {}
            Err(why) => return Err(why),
        }
        i += count;
    }
    Ok(())
}
