//! What every file system promises.

ghost use Rattle.std.specs.Prelude.{◌≡◌, true, [], IfErr, MatchResult};
ghost use Rattle.fs_trees.specs.Answer.{done};
ghost use Rattle.fs_trees.specs.declared.ask.ShellAsk.TheVariants as ask;
ghost use Rattle.fs_trees.specs.declared.refusal.FsRefusal.TheVariants as no;
ghost use Rattle.fs_port.specs.Calls.{IsValidNow};
ghost use Rattle.fs_port.specs.Files.{FilesView, Answers, HasTree, IsEitherTree, IsClientReady, IsTreeAlone};
ghost use Rattle.fs_port.specs.Files.{TellsNext, TellsPart, TellsSize, has_dirs, mounted_now, unmounted_now};
ghost use Rattle.fs_port.specs.Runs.{Changes, FindsTree, IsMade, Looks, Runs};

use crate::blocks::Blocks;
use fs_trees::{FsRefusal, Name, Path};
use tsd_model::Data;

/// A file system, which keeps one tree under one block of a disk. An answer other than Device leaves the count of
/// faults as it was, so that no failed ask is tried again and forgotten.
pub trait Files {
    /// Its layout, root, capability and session, and whether a tree is mounted.
    ghost view: { Self → FilesView };

    /// Whether its layout has directories other than `/`.
    fn has_dirs(&self) -> bool
        ensures { result ≡ has_dirs (view self.now).kind };

    /// Makes an empty tree under the root, in place of what is there, and mounts it. Only Device refuses it.
    fn make<K: Blocks>(&mut self, disk: &mut K) -> Result<(), FsRefusal>
        requires ready { IsClientReady (view self.old) (K.view disk.old) }
        requires valid { K.told → IsValidNow (K.view disk.old) }
        /// promise: An empty tree, tidy, which takes no room; only `Device` refuses it.
        ensures made { K.told → MatchResult result (λ _. IsMade (view self.old) (K.view disk.old) (K.view disk.new))
            (λ e. e ≡ no.Device) }
        ensures runs { Runs K.told (K.view disk.old) (K.view disk.new) (IsEitherTree (view self.old) (K.view disk.old)
            ask.Make) result }
        ensures mounted { MatchResult result (λ _. view self.new ≡ mounted_now (view self.old))
            (λ _. view self.new ≡ view self.old) };

    /// Mounts the tree under the root, and deletes the pairs that it doesn't name. Where it fails nothing is mounted.
    fn mount<K: Blocks>(&mut self, disk: &mut K) -> Result<(), FsRefusal>
        requires ready { IsClientReady (view self.old) (K.view disk.old) }
        requires valid { K.told → IsValidNow (K.view disk.old) }
        /// promise: `NotThisFs` comes only where the world under the root is no tree, with nothing changed; else that
        /// tree is there, tidy. Only pairs are deleted, with what they held: what is live was live with the same bytes,
        /// and what the tree names is at the same blocks.
        ensures finds { K.told → FindsTree (view self.old) (K.view disk.old) (K.view disk.new) result }
        /// promise: A stop at any moment leaves the tree as it was, deleting no more than that; where no tree is there,
        /// the world as it was.
        ensures runs { Runs K.told (K.view disk.old) (K.view disk.new) (IsTreeAlone (view self.old) (K.view disk.old))
            result }
        ensures mounted { MatchResult result (λ _. view self.new ≡ mounted_now (view self.old))
            (λ _. view self.new ≡ unmounted_now (view self.old)) };

    /// Makes a file of these bytes at a path, in place of the old one.
    fn put<K: Blocks>(&mut self, disk: &mut K, path: &Path, bytes: &Data) -> Result<(), FsRefusal>
        requires ready { IsClientReady (view self.old) (K.view disk.old) }
        requires valid { K.told → IsValidNow (K.view disk.old) }
        requires tree { K.told → HasTree (view self.old) (K.view disk.old) }
        /// promise: **The answer is that of the ask's step on the tree, and the tree afterwards is the step's; a
        /// refusal leaves the world as it was.** So too of `make_dir`, `append`, `copy` and `remove`.
        ensures answer { K.told → Answers (view self.old) (K.view disk.old) (K.view disk.new)
            (ask.Put path.now bytes.now) result (λ _ answer. answer ≡ done) }
        /// promise: **A stop at any moment leaves, in a valid world of the same size, the tree before or the tree
        /// after, and what the root doesn't reach as it was.** So too of `make_dir`, `append`, `copy` and `remove`.
        /// promise: The world is tidy afterwards if it was before; what the root doesn't reach keeps its bytes and
        /// pointers; what was free and is live now is named by the tree.
        /// promise: What is answered has taken no more blocks, and added no more pointers, than its ask needs.
        /// promise: Capabilities stay, and which sessions are open; requests lead from the state before to the one
        /// after that neither open nor close a session nor set a capability.
        /// promise: `Device` comes only where the disk's count of faults rose, and then the disk is spent; after every
        /// other answer the count is what it was, and the disk isn't spent.
        /// promise: Where nothing is mounted, a stop leaves the world as it was.
        ensures changes { Changes K.told (view self.old) (K.view disk.old) (K.view disk.new)
            (ask.Put path.now bytes.now) result }
        ensures same { view self.new ≡ view self.old };

    /// Makes a directory without entries at a path.
    fn make_dir<K: Blocks>(&mut self, disk: &mut K, path: &Path) -> Result<(), FsRefusal>
        requires dirs { has_dirs (view self.old).kind ≡ true }
        requires ready { IsClientReady (view self.old) (K.view disk.old) }
        requires valid { K.told → IsValidNow (K.view disk.old) }
        requires tree { K.told → HasTree (view self.old) (K.view disk.old) }
        ensures answer { K.told → Answers (view self.old) (K.view disk.old) (K.view disk.new) (ask.MakeDir path.now)
            result (λ _ answer. answer ≡ done) }
        ensures changes { Changes K.told (view self.old) (K.view disk.old) (K.view disk.new) (ask.MakeDir path.now)
            result }
        ensures same { view self.new ≡ view self.old };

    /// Adds these bytes at the end of a file. Where there are none it only looks.
    fn append<K: Blocks>(
        &mut self,
        disk: &mut K,
        path: &Path,
        bytes: &Data,
    ) -> Result<(), FsRefusal>
        requires ready { IsClientReady (view self.old) (K.view disk.old) }
        requires valid { K.told → IsValidNow (K.view disk.old) }
        requires tree { K.told → HasTree (view self.old) (K.view disk.old) }
        ensures answer { K.told → Answers (view self.old) (K.view disk.old) (K.view disk.new)
            (ask.Append path.now bytes.now) result (λ _ answer. answer ≡ done) }
        ensures changes { Changes K.told (view self.old) (K.view disk.old) (K.view disk.new)
            (ask.Append path.now bytes.now) result }
        /// promise: An append of no bytes only looks.
        ensures idle { bytes.now ≡ [] → Looks K.told (K.view disk.old) (K.view disk.new) result }
        ensures same { view self.new ≡ view self.old };

    /// Makes a new file of the bytes of another, at a path where nothing stands. The two change apart afterwards.
    fn copy<K: Blocks>(&mut self, disk: &mut K, path: &Path, new: &Path) -> Result<(), FsRefusal>
        requires dirs { has_dirs (view self.old).kind ≡ true }
        requires ready { IsClientReady (view self.old) (K.view disk.old) }
        requires valid { K.told → IsValidNow (K.view disk.old) }
        requires tree { K.told → HasTree (view self.old) (K.view disk.old) }
        ensures answer { K.told → Answers (view self.old) (K.view disk.old) (K.view disk.new)
            (ask.Copy path.now new.now) result (λ _ answer. answer ≡ done) }
        ensures changes { Changes K.told (view self.old) (K.view disk.old) (K.view disk.new)
            (ask.Copy path.now new.now) result }
        ensures same { view self.new ≡ view self.old };

    /// Takes away a file, or a directory without entries.
    fn remove<K: Blocks>(&mut self, disk: &mut K, path: &Path) -> Result<(), FsRefusal>
        requires ready { IsClientReady (view self.old) (K.view disk.old) }
        requires valid { K.told → IsValidNow (K.view disk.old) }
        requires tree { K.told → HasTree (view self.old) (K.view disk.old) }
        ensures answer { K.told → Answers (view self.old) (K.view disk.old) (K.view disk.new) (ask.Rm path.now) result
            (λ _ answer. answer ≡ done) }
        ensures changes { Changes K.told (view self.old) (K.view disk.old) (K.view disk.new) (ask.Rm path.now) result }
        ensures same { view self.new ≡ view self.old };

    /// How many bytes a file has.
    fn size<K: Blocks>(&mut self, disk: &mut K, path: &Path) -> Result<u64, FsRefusal>
        requires ready { IsClientReady (view self.old) (K.view disk.old) }
        requires valid { K.told → IsValidNow (K.view disk.old) }
        requires tree { K.told → HasTree (view self.old) (K.view disk.old) }
        /// promise: The size of the file at the path, by the tree.
        ensures answer { K.told → Answers (view self.old) (K.view disk.old) (K.view disk.new) (ask.Cat path.now)
            result TellsSize }
        /// promise: No world is changed.
        ensures looks { Looks K.told (K.view disk.old) (K.view disk.new) result }
        ensures same { view self.new ≡ view self.old };

    /// The bytes of a file from an offset on: all that are left, or the first 4,096; none after an `Err`.
    fn read_part<K: Blocks>(
        &mut self,
        disk: &mut K,
        path: &Path,
        start: u64,
        into: &mut Data,
    ) -> Result<(), FsRefusal>
        requires ready { IsClientReady (view self.old) (K.view disk.old) }
        requires valid { K.told → IsValidNow (K.view disk.old) }
        requires tree { K.told → HasTree (view self.old) (K.view disk.old) }
        /// promise (with looks): The part of the file from an offset, by the tree; no world is changed.
        ensures answer { K.told → Answers (view self.old) (K.view disk.old) (K.view disk.new) (ask.Cat path.now)
            result (λ _. TellsPart start into.new) }
        /// promise: A part that isn't read is empty.
        ensures nothing { IfErr result (λ _. into.new ≡ []) }
        ensures looks { Looks K.told (K.view disk.old) (K.view disk.new) result }
        ensures same { view self.new ≡ view self.old };

    /// The least name in a directory above another; the empty name is below all.
    fn name_after<K: Blocks>(
        &mut self,
        disk: &mut K,
        path: &Path,
        after: &Name,
    ) -> Result<Option<Name>, FsRefusal>
        requires ready { IsClientReady (view self.old) (K.view disk.old) }
        requires valid { K.told → IsValidNow (K.view disk.old) }
        requires tree { K.told → HasTree (view self.old) (K.view disk.old) }
        /// promise (with looks): The next name of the directory, by the tree; no world is changed.
        ensures answer { K.told → Answers (view self.old) (K.view disk.old) (K.view disk.new) (ask.Ls path.now) result
            (TellsNext after.now) }
        ensures looks { Looks K.told (K.view disk.old) (K.view disk.new) result }
        ensures same { view self.new ≡ view self.old };
}
