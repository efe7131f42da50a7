//! The file system as one value.

ghost use Rattle.std.specs.Prelude.{◌≡◌, IfOk};

use crate::marks::Marks;
use arrayvec::ArrayVec;
use fs_client::Client;
use fs_port::{Blocks, Files};
use fs_trees::{FsRefusal, Name, Path};
use fs_walks::{NAMES_AT_ONCE, Place, Walks};
use std::alloc::Global;
use tsd_model::{Cap, Data, NoMemory};

/// A file system of inodes under a root. It knows no more of the tree than whether one is mounted.
#[derive(Drop)]
pub struct InodeFs {
    client: Client,
    mounted: bool,
    marks: Marks,
}

impl InodeFs {
    ghost use Rattle.inode_fs.specs.View.{new_view, inode_view};

    /// A file system under a root, for a session that shows this capability there; nothing is mounted. Its room is for
    /// any disk.
    pub fn new(alloc: Global, root: u32, cap: &Cap, session: u32) -> Result<InodeFs, NoMemory>
        ensures { IfOk result (λ f. inode_view f ≡ new_view root cap.now session) }
    {
        let marks = Marks::new(alloc)?;
        Ok(InodeFs {
            client: Client {
                root,
                cap: *cap,
                session,
            },
            mounted: false,
            marks,
        })
    }
}

impl Files for InodeFs {
    ghost use Rattle.inode_fs.specs.View.{inode_view};

    ghost view = { inode_view };

    fn has_dirs(&self) -> bool {
        true
    }

    fn make<K: Blocks>(&mut self, disk: &mut K) -> Result<(), FsRefusal> {
        match crate::making::make(&self.client, disk) {
            Ok(()) => {
                self.mounted = true;
                Ok(())
            }
            Err(refusal) => Err(refusal),
        }
    }

    fn mount<K: Blocks>(&mut self, disk: &mut K) -> Result<(), FsRefusal> {
        self.mounted = false;
        match crate::mounting::mount(&self.client, &mut self.marks, disk) {
            Ok(()) => {
                self.mounted = true;
                Ok(())
            }
            Err(refusal) => Err(refusal),
        }
    }

    fn put<K: Blocks>(&mut self, disk: &mut K, path: &Path, bytes: &Data) -> Result<(), FsRefusal> {
        if self.mounted {
            inode_changes::put(&self.client, disk, path, bytes)
        } else {
            Err(FsRefusal::NotThisFs)
        }
    }

    fn make_dir<K: Blocks>(&mut self, disk: &mut K, path: &Path) -> Result<(), FsRefusal> {
        if self.mounted {
            inode_changes::make_dir(&self.client, disk, path)
        } else {
            Err(FsRefusal::NotThisFs)
        }
    }

    fn copy<K: Blocks>(&mut self, disk: &mut K, path: &Path, new: &Path) -> Result<(), FsRefusal> {
        if self.mounted {
            inode_changes::copy(&self.client, disk, path, new)
        } else {
            Err(FsRefusal::NotThisFs)
        }
    }

    fn append<K: Blocks>(
        &mut self,
        disk: &mut K,
        path: &Path,
        bytes: &Data,
    ) -> Result<(), FsRefusal> {
        if self.mounted {
            inode_changes::append(&self.client, disk, path, bytes)
        } else {
            Err(FsRefusal::NotThisFs)
        }
    }

    fn remove<K: Blocks>(&mut self, disk: &mut K, path: &Path) -> Result<(), FsRefusal> {
        if self.mounted {
            inode_changes::remove(&self.client, disk, path)
        } else {
            Err(FsRefusal::NotThisFs)
        }
    }

    fn size<K: Blocks>(&mut self, disk: &mut K, path: &Path) -> Result<u64, FsRefusal> {
        if self.mounted {
            inode_walks::size(&self.client, disk, path)
        } else {
            Err(FsRefusal::NotThisFs)
        }
    }

    fn read_part<K: Blocks>(
        &mut self,
        disk: &mut K,
        path: &Path,
        start: u64,
        into: &mut Data,
    ) -> Result<(), FsRefusal> {
        if self.mounted {
            inode_walks::read_part(&self.client, disk, path, start, into)
        } else {
            *into = Data::new();
            Err(FsRefusal::NotThisFs)
        }
    }

    fn name_after<K: Blocks>(
        &mut self,
        disk: &mut K,
        path: &Path,
        after: &Name,
    ) -> Result<Option<Name>, FsRefusal> {
        if self.mounted {
            inode_walks::name_after(&self.client, disk, path, after)
        } else {
            Err(FsRefusal::NotThisFs)
        }
    }
}

impl Walks for InodeFs {
    ghost use Rattle.inode_fs.specs.View.{leads_at};

    ghost leads = { leads_at };

    /// An inode names the blocks of its file, so that any of them is found from there: no place is needed.
    fn read_on<K: Blocks>(
        &mut self,
        disk: &mut K,
        path: &Path,
        start: u64,
        _place: Option<Place>,
        into: &mut Data,
    ) -> Result<Option<Place>, FsRefusal> {
        match self.read_part(disk, path, start, into) {
            Ok(()) => Ok(None),
            Err(refusal) => Err(refusal),
        }
    }

    /// The next name alone. The entries of a directory stand in order in one block.
    fn names_after<K: Blocks>(
        &mut self,
        disk: &mut K,
        path: &Path,
        after: &Name,
        into: &mut ArrayVec<Name, NAMES_AT_ONCE>,
    ) -> Result<(), FsRefusal> {
        into.clear();
        match self.name_after(disk, path, after) {
            Ok(Some(name)) => {
                into.push(name);
                Ok(())
            }
            Ok(None) => Ok(()),
            Err(refusal) => Err(refusal),
        }
    }
}
