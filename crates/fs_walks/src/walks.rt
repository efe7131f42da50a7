//! Reading that goes on where it was.

ghost use Rattle.std.specs.Prelude.{◌≡◌, ◌+◌, ℕ, [], IfErr, IfOk, IfSome};
ghost use Rattle.tsd_model.specs.Step.{State};
ghost use Rattle.fs_trees.specs.Names.{Path};
ghost use Rattle.fs_trees.specs.declared.ask.ShellAsk.TheVariants as ask;
ghost use Rattle.fs_port.specs.Calls.{IsValidNow};
ghost use Rattle.fs_port.specs.Files.{FilesView, Answers, HasTree, IsClientReady, TellsPart};
ghost use Rattle.fs_port.specs.Runs.{Looks};
ghost use Rattle.fs_port.specs.View.{state_of};
ghost use Rattle.fs_walks.specs.Nexts.{TellsNames};
ghost use Rattle.fs_walks.specs.declared.place.Place.{Place};

use crate::place::Place;
use arrayvec::ArrayVec;
use fs_port::{Blocks, Files};
use fs_trees::{FsRefusal, Name, Path};
use tsd_model::Data;

/// How many names come at once, at most.
pub const NAMES_AT_ONCE: usize = 64;

/// A file system that goes on with reading where an earlier call on the same disk was.
pub trait Walks: Files {
    /// Whether a place leads to the bytes of the file at a path from an offset on, as long as the disk stays in this
    /// state.
    ghost leads: { FilesView → State → Path → ℕ → Place → Type 0 };

    /// The bytes of a file from an offset on: all that are left, or the first 4,096; none after an `Err`. Where a place
    /// is given, that is where they begin. The answer is the place behind 4,096 bytes, where there is one to go on at.
    fn read_on<K: Blocks>(
        &mut self,
        disk: &mut K,
        path: &Path,
        start: u64,
        place: Option<Place>,
        into: &mut Data,
    ) -> Result<Option<Place>, FsRefusal>
        requires ready { IsClientReady (Self.view self.old) (K.view disk.old) }
        requires valid { K.told → IsValidNow (K.view disk.old) }
        requires tree { K.told → HasTree (Self.view self.old) (K.view disk.old) }
        requires place { K.told
            → IfSome place (leads (Self.view self.old) (state_of (K.view disk.old)) path.now start) }
        /// promise (with place, looks): The part of the file from an offset, by the tree, wherever the walk before was;
        /// and a place that leads on behind it. No world is changed.
        ensures answer { K.told → Answers (Self.view self.old) (K.view disk.old) (K.view disk.new) (ask.Cat path.now)
            result (λ _. TellsPart start into.new) }
        ensures place { K.told → IfOk result (λ next. IfSome next
            (leads (Self.view self.new) (state_of (K.view disk.new)) path.now (start + 4096))) }
        ensures nothing { IfErr result (λ _. into.new ≡ []) }
        ensures looks { Looks K.told (K.view disk.old) (K.view disk.new) result }
        ensures same { Self.view self.new ≡ Self.view self.old };

    /// Some of the names in a directory that come next after another, in order: at least one, where one comes. The
    /// empty name is below all. What was in the list before is gone.
    fn names_after<K: Blocks>(
        &mut self,
        disk: &mut K,
        path: &Path,
        after: &Name,
        into: &mut ArrayVec<Name, NAMES_AT_ONCE>,
    ) -> Result<(), FsRefusal>
        requires ready { IsClientReady (Self.view self.old) (K.view disk.old) }
        requires valid { K.told → IsValidNow (K.view disk.old) }
        requires tree { K.told → HasTree (Self.view self.old) (K.view disk.old) }
        /// promise (with looks): Next names of the directory, by the tree, each the one behind the one before; none
        /// only where none comes. No world is changed.
        ensures answer { K.told → Answers (Self.view self.old) (K.view disk.old) (K.view disk.new) (ask.Ls path.now)
            result (λ _. TellsNames after.now into.new.items) }
        ensures looks { Looks K.told (K.view disk.old) (K.view disk.new) result }
        ensures same { Self.view self.new ≡ Self.view self.old };
}
