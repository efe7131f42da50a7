//! A file system over a disk, call by call.

ghost use Rattle.std.specs.Prelude.{◌≡◌, IsTrue, IfOk};
ghost use Rattle.fixtures_fs.specs.Ours.{IsOurs};

use crate::disks::{Untold, WRITE, fresh};
use chain_fs::ChainFs;
use fs_port::{Blocks, Files, free_blocks};
use fs_trees::{FsRefusal, Name, Path, ShellKind};
use inode_fs::InodeFs;
use std::alloc::Global;
use tsd_model::{Data, NoMemory};

/// A file system and its disk.
#[derive(Drop)]
pub struct Site<F: Files + Drop> {
    pub files: F,
    pub disk: Untold,
    ghost is_ours: { IsOurs (F.view files) },
}

/// A file system that tests try.
pub trait Tested: Files + Drop {
    /// Its layout, by which lines of the shell are read.
    fn kind(&self) -> ShellKind
        ensures { result ≡ (Self.view self.now).kind };

    /// A file system for session 1 at block 0, of which nothing is mounted.
    fn unmounted(alloc: Global) -> Result<Self, NoMemory>
        ensures { IfOk result (λ f. IsOurs (Self.view f)) };
}

impl Tested for InodeFs {
    fn kind(&self) -> ShellKind {
        ShellKind::Inode
    }

    fn unmounted(alloc: Global) -> Result<InodeFs, NoMemory> {
        InodeFs::new(alloc, 0, &WRITE, 1)
    }
}

impl Tested for ChainFs {
    fn kind(&self) -> ShellKind {
        ShellKind::Chain
    }

    fn unmounted(alloc: Global) -> Result<ChainFs, NoMemory> {
        ChainFs::new(alloc, 0, &WRITE, 1)
    }
}

/// A file system that knows nothing of this disk, over it; None where there is no memory.
fn over<F: Tested>(alloc: Global, disk: Untold) -> Option<Site<F>> {
    let files = F::unmounted(alloc).ok()?;
    Some(Site { files, disk })
}

/// A fresh plain disk of so many blocks with so many slots, and a file system of which nothing is mounted; None where
/// there is no such disk or no memory.
pub fn begun<F: Tested>(alloc: Global, sectors: u32, blocks: u32, slots: u32) -> Option<Site<F>> {
    over(alloc, fresh(alloc, sectors, blocks, slots)?)
}

/// The same disk, which goes on, and a file system that knows nothing of it; None where there is no memory.
pub fn again<F: Tested>(alloc: Global, site: Site<F>) -> Option<Site<F>> {
    let Site { files: _, disk } = site;
    over(alloc, disk.mended())
}

impl<F: Files + Drop> Site<F> {
    ghost use Rattle.fs_port.specs.Files.{IsClientReady};
    ghost use Rattle.fixtures_fs.specs.Untold.{untold_view};

    /// Whether the file system may be called.
    #[tactic(auto, using(crate::proofs::SiteLaws::is_ready))]
    fn is_ready(&self) -> bool
        ensures { IsTrue result
            → IsClientReady (F.view self.now.files) (untold_view self.now.disk.geometry self.now.disk.faults
            self.now.disk.is_stopped) }
    {
        !self.disk.is_spent() && self.disk.geometry().primaries > 0
    }

    /// An empty tree, mounted.
    pub fn make(&mut self) -> Result<(), FsRefusal> {
        if !self.is_ready() {
            return Err(FsRefusal::Device);
        }
        self.files.make(&mut self.disk)
    }

    /// Mounts what is there.
    pub fn mount(&mut self) -> Result<(), FsRefusal> {
        if !self.is_ready() {
            return Err(FsRefusal::Device);
        }
        self.files.mount(&mut self.disk)
    }

    /// A file of these bytes.
    pub fn put(&mut self, path: &Path, bytes: &Data) -> Result<(), FsRefusal> {
        if !self.is_ready() {
            return Err(FsRefusal::Device);
        }
        self.files.put(&mut self.disk, path, bytes)
    }

    /// These bytes at the end of a file.
    pub fn append(&mut self, path: &Path, bytes: &Data) -> Result<(), FsRefusal> {
        if !self.is_ready() {
            return Err(FsRefusal::Device);
        }
        self.files.append(&mut self.disk, path, bytes)
    }

    /// A new directory; NotThisFs where the layout has none.
    pub fn make_dir(&mut self, path: &Path) -> Result<(), FsRefusal> {
        if !self.is_ready() {
            return Err(FsRefusal::Device);
        }
        if !self.files.has_dirs() {
            return Err(FsRefusal::NotThisFs);
        }
        self.files.make_dir(&mut self.disk, path)
    }

    /// A new file with the bytes of another; NotThisFs where the layout has no copies.
    pub fn copy(&mut self, path: &Path, new: &Path) -> Result<(), FsRefusal> {
        if !self.is_ready() {
            return Err(FsRefusal::Device);
        }
        if !self.files.has_dirs() {
            return Err(FsRefusal::NotThisFs);
        }
        self.files.copy(&mut self.disk, path, new)
    }

    /// The end of a file or of an empty directory.
    pub fn remove(&mut self, path: &Path) -> Result<(), FsRefusal> {
        if !self.is_ready() {
            return Err(FsRefusal::Device);
        }
        self.files.remove(&mut self.disk, path)
    }

    /// How many bytes a file has.
    pub fn size(&mut self, path: &Path) -> Result<u64, FsRefusal> {
        if !self.is_ready() {
            return Err(FsRefusal::Device);
        }
        self.files.size(&mut self.disk, path)
    }

    /// The bytes of a file from an offset on.
    pub fn read_part(&mut self, path: &Path, start: u64, into: &mut Data) -> Result<(), FsRefusal> {
        if !self.is_ready() {
            return Err(FsRefusal::Device);
        }
        self.files.read_part(&mut self.disk, path, start, into)
    }

    /// The first name above this one.
    pub fn name_after(&mut self, path: &Path, after: &Name) -> Result<Option<Name>, FsRefusal> {
        if !self.is_ready() {
            return Err(FsRefusal::Device);
        }
        self.files.name_after(&mut self.disk, path, after)
    }

    /// How many blocks are free.
    pub fn free(&mut self) -> Result<u32, FsRefusal> {
        if !self.is_ready() {
            return Err(FsRefusal::Device);
        }
        free_blocks(&mut self.disk)
    }

    /// The bytes of a file of at most 63 parts, part by part, the last without bytes.
    pub fn cat(&mut self, alloc: Global, path: &Path) -> Result<Vec<u8>, FsRefusal> {
        let size = self.size(path)?;
        let mut all = Vec::new(alloc);
        let mut part = Data::new();
        for _ in 0..64 {
            self.read_part(path, all.len() as u64, &mut part)?;
            if all.extend_from_slice(part.as_slice()).is_err() {
                return Err(FsRefusal::Device);
            }
            if part.is_empty() && all.len() as u64 == size {
                return Ok(all);
            }
        }
        Err(FsRefusal::Device)
    }
}
