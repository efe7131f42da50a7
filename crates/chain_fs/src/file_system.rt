//! The file system as one value.

ghost use Rattle.std.specs.Prelude.{◌≡◌, IfOk, IfErr, OnOk};
ghost use Rattle.fs_trees.specs.declared.refusal.FsRefusal.TheVariants as no;

use arrayvec::ArrayVec;
use fs_client::{BlockSet, Client};
use fs_port::{Blocks, Files};
use fs_trees::{FsRefusal, Name, Path};
use fs_walks::{NAMES_AT_ONCE, Place, Walks};
use std::alloc::Global;
use tsd_model::{Cap, Data, NoMemory};

/// A file system of chains under a root. It knows no more of the tree than whether one is mounted.
#[derive(Drop)]
pub struct ChainFs {
    client: Client,
    mounted: bool,
    seen: BlockSet,
}

impl ChainFs {
    ghost use Rattle.chain_fs.specs.View.{new_view, chain_view};

    /// A file system under a root, for a session that shows this capability there; nothing is mounted. Its room is for
    /// any disk.
    pub fn new(alloc: Global, root: u32, cap: &Cap, session: u32) -> Result<ChainFs, NoMemory>
        ensures { IfOk result (λ f. chain_view f ≡ new_view root cap.now session) }
    {
        let seen = BlockSet::new(alloc)?;
        Ok(ChainFs {
            client: Client {
                root,
                cap: *cap,
                session,
            },
            mounted: false,
            seen,
        })
    }
}

impl Files for ChainFs {
    ghost use Rattle.chain_fs.specs.View.{chain_view};

    ghost view = { chain_view };

    fn has_dirs(&self) -> bool {
        false
    }

    fn make<K: Blocks>(&mut self, disk: &mut K) -> Result<(), FsRefusal> {
        match crate::making::make(&self.client, disk) {
            Ok(()) => {
                self.mounted = true;
                Ok(())
            }
            Err(refusal) => Err(refusal),
        }
    }

    fn mount<K: Blocks>(&mut self, disk: &mut K) -> Result<(), FsRefusal> {
        self.mounted = false;
        match crate::mounting::mount(&self.client, disk, &mut self.seen) {
            Ok(()) => {
                self.mounted = true;
                Ok(())
            }
            Err(refusal) => Err(refusal),
        }
    }

    fn put<K: Blocks>(&mut self, disk: &mut K, path: &Path, bytes: &Data) -> Result<(), FsRefusal> {
        if self.mounted {
            chain_changes::put(&self.client, disk, path, bytes)
        } else {
            Err(FsRefusal::NotThisFs)
        }
    }

    /// Chains have no directory but the root: nothing is made, and nothing is changed.
    fn make_dir<K: Blocks>(&mut self, disk: &mut K, path: &Path) -> Result<(), FsRefusal>
        ensures refused { IfErr result (λ e. e ≡ no.NotThisFs) }
        ensures never { OnOk result ⊥ }
        ensures same { self.new ≡ self.old }
        ensures unasked { disk.new ≡ disk.old }
    {
        Err(FsRefusal::NotThisFs)
    }

    /// Chains have no directory but the root, and no two share a block: nothing is copied, and nothing is changed.
    fn copy<K: Blocks>(&mut self, disk: &mut K, path: &Path, new: &Path) -> Result<(), FsRefusal>
        ensures refused { IfErr result (λ e. e ≡ no.NotThisFs) }
        ensures never { OnOk result ⊥ }
        ensures same { self.new ≡ self.old }
        ensures unasked { disk.new ≡ disk.old }
    {
        Err(FsRefusal::NotThisFs)
    }

    fn append<K: Blocks>(
        &mut self,
        disk: &mut K,
        path: &Path,
        bytes: &Data,
    ) -> Result<(), FsRefusal> {
        if self.mounted {
            chain_changes::append(&self.client, disk, path, bytes)
        } else {
            Err(FsRefusal::NotThisFs)
        }
    }

    fn remove<K: Blocks>(&mut self, disk: &mut K, path: &Path) -> Result<(), FsRefusal> {
        if self.mounted {
            chain_changes::remove(&self.client, disk, path)
        } else {
            Err(FsRefusal::NotThisFs)
        }
    }

    fn size<K: Blocks>(&mut self, disk: &mut K, path: &Path) -> Result<u64, FsRefusal> {
        if self.mounted {
            chain_reading::size(&self.client, disk, path)
        } else {
            Err(FsRefusal::NotThisFs)
        }
    }

    fn read_part<K: Blocks>(
        &mut self,
        disk: &mut K,
        path: &Path,
        start: u64,
        into: &mut Data,
    ) -> Result<(), FsRefusal> {
        if self.mounted {
            chain_reading::read_file(&self.client, disk, path, start, into)
        } else {
            *into = Data::new();
            Err(FsRefusal::NotThisFs)
        }
    }

    fn name_after<K: Blocks>(
        &mut self,
        disk: &mut K,
        path: &Path,
        after: &Name,
    ) -> Result<Option<Name>, FsRefusal> {
        if self.mounted {
            chain_reading::name_after(&self.client, disk, path, after)
        } else {
            Err(FsRefusal::NotThisFs)
        }
    }
}

impl Walks for ChainFs {
    ghost use Rattle.chain_fs.specs.View.{leads_at};

    ghost leads = { leads_at };

    fn read_on<K: Blocks>(
        &mut self,
        disk: &mut K,
        path: &Path,
        start: u64,
        place: Option<Place>,
        into: &mut Data,
    ) -> Result<Option<Place>, FsRefusal> {
        if self.mounted {
            match chain_reading::read_on(&self.client, disk, path, start, place, into) {
                Ok(next) => Ok(Some(next)),
                Err(refusal) => Err(refusal),
            }
        } else {
            *into = Data::new();
            Err(FsRefusal::NotThisFs)
        }
    }

    fn names_after<K: Blocks>(
        &mut self,
        disk: &mut K,
        path: &Path,
        after: &Name,
        into: &mut ArrayVec<Name, NAMES_AT_ONCE>,
    ) -> Result<(), FsRefusal> {
        if self.mounted {
            chain_reading::names_after(&self.client, disk, path, after, into)
        } else {
            Err(FsRefusal::NotThisFs)
        }
    }
}
