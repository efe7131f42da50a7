//! Pieces of a file, several at once: a walk along the file serves all of them.

ghost use Rattle.std.specs.Prelude.{◌≡◌, ◌≢◌, ◌≤◌, ◌^◌, ◌*◌, ◌+◌, drop, map, IfErr, OnOk};
ghost use Rattle.fs_trees.specs.Copying.{file_pieces, piece_max};
ghost use Rattle.fs_trees.specs.Tree.{at, bytes_in};
ghost use Rattle.fs_trees.specs.declared.ask.ShellAsk.TheVariants as ask;
ghost use Rattle.fs_trees.specs.declared.refusal.FsRefusal.TheVariants as no;
ghost use Rattle.fs_port.specs.Runs.{Looks};
ghost use Rattle.fs_copy.specs.Going.{MakesSteps, IsFileAt, IsSource, tree_under};

use arrayvec::ArrayVec;
use fs_port::{Blocks, Files};
use fs_trees::{FsRefusal, Path};
use fs_walks::Walks;
use std::marker::Model;
use tsd_model::Data;

/// How many bytes one ask carries.
pub const PIECE_BYTES: u64 = 4096;

/// How many pieces are read at once, at most.
pub const PIECES_AT_ONCE: usize = 8;

/// The bytes that one ask carries.
#[derive(Drop)]
pub struct Piece {
    bytes: Data,
}

impl Model for Piece {
    ghost use Rattle.std.specs.Prelude.{List, ℕ};

    ghost Value = { List ℕ };

    ghost view = { λ p. p.bytes };
}

impl Piece {
    /// A piece of these bytes.
    fn new(bytes: Data) -> Piece
        ensures { result ≡ bytes }
    {
        Piece { bytes }
    }

    /// Its bytes.
    fn bytes(&self) -> &Data
        ensures { result.now ≡ self.now }
    {
        &self.bytes
    }
}

impl Default for Piece {
    ghost use Rattle.std.specs.Prelude.{◌≡◌, []};

    ghost is_default = { λ p. p ≡ [] };

    fn default() -> Piece {
        Piece::new(Data::new())
    }
}

/// Reads so many pieces of a file, from this one on.
pub fn read_pieces<K: Blocks, A: Walks>(
    disk: &mut K,
    from: &mut A,
    path: &Path,
    first: u64,
    count: u64,
    into: &mut ArrayVec<Piece, PIECES_AT_ONCE>,
) -> Result<(), FsRefusal>
    requires set { IsSource K.told (A.view from.old) (K.view disk.old) }
    requires file { K.told → IsFileAt (tree_under (A.view from.old) (K.view disk.old)) path.now }
    requires few { count ≤ 8 }
    requires fits { (first + count) * 4096 ≤ 2 ^ 64 }
    ensures told { K.told → OnOk result (into.new.items ≡ file_pieces count (drop (first * piece_max)
        (bytes_in (at (tree_under (A.view from.old) (K.view disk.old)) path.now)))) }
    ensures only { K.told → IfErr result (λ e. e ≢ no.Device → ⊥) }
    ensures looks { Looks K.told (K.view disk.old) (K.view disk.new) result }
    ensures same { A.view from.new ≡ A.view from.old }
{
    into.clear();
    let mut place = None;
    let mut i: u64 = 0;
    while i < count {
        let mut piece = Data::new();
        match from.read_on(disk, path, (first + i) * PIECE_BYTES, place, &mut piece) {
            Ok(next) => place = next,
            Err(why) => return Err(why),
        }
        into.push(Piece::new(piece));
        i += 1;
    }
    Ok(())
}

/// Appends these pieces to a file.
pub fn append_pieces<K: Blocks, B: Files>(
    disk: &mut K,
    into: &mut B,
    path: &Path,
    pieces: &ArrayVec<Piece, PIECES_AT_ONCE>,
) -> Result<(), FsRefusal>
    requires set { IsSource K.told (B.view into.old) (K.view disk.old) }
    ensures goes { MakesSteps K.told (B.view into.old) (K.view disk.old) (K.view disk.new)
        (map (ask.Append path.now) pieces.now.items) result }
    ensures same { B.view into.new ≡ B.view into.old }
{
    for position in 0..pieces.len() {
        match into.append(disk, path, pieces.as_slice()[position].bytes()) {
            Ok(()) => {}
            Err(why) => return Err(why),
        }
    }
    Ok(())
}
