//! The file of an image.

ghost use Rattle.std.specs.Prelude.{◌≡◌, ◌≤◌, ◌*◌, ◌^◌, length, IfOk, pos, ◌<ℤ◌};
ghost use Rattle.std.specs.Fd.{file_raw_fd};

use crate::sectors::{SECTOR, Sectors, sectors_of};
use crate::standard::LAST_STANDARD;
use crate::trouble::Trouble;
use std::fmt::{self, Formatter};
use std::fs::{self, File, Metadata, OpenOptions, Permissions, TryLockError};
use std::io::{self, ErrorKind, Seek, SeekFrom};
use std::os::fd::AsRawFd;
use std::os::unix::fs::{FileExt, FileTypeExt, MetadataExt, OpenOptionsExt, PermissionsExt};
use std::path::Path;

/// A file in which a disk is made is for its owner alone: it holds capabilities.
const OWNER_ALONE: u32 = 0o600;

/// The bit of a mode by which a file's group may read it.
const GROUP_READS: u32 = 0o040;

/// The bit of a mode by which all others may read it.
const OTHERS_READ: u32 = 0o004;

/// What an image is opened for.
#[derive(Clone, Copy, Debug, PartialEq, Eq)]
pub enum Opening {
    /// For what is in it.
    Kept,

    /// For what is in it, of which nothing has to be changed: where the system doesn't let it be written, it is opened
    /// to be read alone.
    Looked,

    /// For what is in it, to be read alone.
    Read,

    /// To make a disk in it. Where the file is missing it is made.
    Made {
        /// The bytes of the disk.
        bytes: u64,
    },

    /// To hold a copy of another image. Where the file is missing it is made.
    Copied,
}

/// Who may read a file besides its owner.
#[derive(Clone, Copy, Debug, PartialEq, Eq)]
pub enum Readers {
    /// Its group.
    Group,

    /// Those who are neither its owner nor in its group.
    Others,

    /// Everybody.
    All,
}

impl Readers {
    /// By a file's mode.
    pub fn of(mode: u32) -> Option<Readers> {
        match (mode & GROUP_READS != 0, mode & OTHERS_READ != 0) {
            (false, false) => None,
            (true, false) => Some(Readers::Group),
            (false, true) => Some(Readers::Others),
            (true, true) => Some(Readers::All),
        }
    }
}

impl fmt::Display for Readers {
    fn fmt<W: fmt::Write>(&self, f: &mut Formatter<W>) -> fmt::Result {
        f.write_str(match self {
            Readers::Group => "its group",
            Readers::Others => "everybody outside its group",
            Readers::All => "everybody",
        })
    }
}

/// What an image is kept in.
#[derive(Clone, Copy, Debug, PartialEq, Eq)]
pub enum Kind {
    /// A regular file. It grows where it is written past its end.
    File,

    /// A block device, whose size is given.
    Device,

    /// Something else that can be opened.
    Other,
}

impl Kind {
    /// By what the system says of a file.
    pub(crate) fn of(metadata: &Metadata) -> Kind {
        let kind = metadata.file_type();
        if kind.is_file() {
            Kind::File
        } else if kind.is_block_device() {
            Kind::Device
        } else {
            Kind::Other
        }
    }
}

/// An image's file, which is open and locked. The lock is advisory: it keeps out those alone who ask for it, as this
/// program does.
#[derive(Drop)]
pub struct ImageFile {
    file: File,
    kind: Kind,
    readers: Option<Readers>,
    is_read_alone: bool,
    is_made: bool,
}

impl ImageFile {
    /// Opens and locks the file at a path. Where a disk is to be made in it, an empty file becomes one for its owner
    /// alone, and its folder is synced, so that the file is found again. A device that is too small for the disk is
    /// refused before anything changes.
    pub fn open(rt: &HostRuntime, path: &str, opening: Opening) -> Result<ImageFile, Trouble>
        // No image is open as standard input, output or error.
        ensures apart { IfOk result (λ image. pos 2 <ℤ file_raw_fd image.file) }
    {
        let (file, is_read_alone) = match opening {
            Opening::Kept => (open_there(rt, path)?, false),
            Opening::Looked => open_to_look(rt, path)?,
            Opening::Read => (File::open(rt, path)?, true),
            Opening::Made { .. } | Opening::Copied => (open_or_make(rt, path)?, false),
        };
        if file.as_raw_fd() <= LAST_STANDARD {
            return Err(Trouble::Standard);
        }
        lock(&file, is_read_alone)?;
        let metadata = file.metadata()?;
        let kind = Kind::of(&metadata);
        let readers = match opening {
            Opening::Kept | Opening::Looked | Opening::Read => None,
            Opening::Made { bytes } => prepare(rt, path, &file, &metadata, bytes)?,
            Opening::Copied => prepare(rt, path, &file, &metadata, 0)?,
        };
        Ok(ImageFile {
            file,
            kind,
            readers,
            is_read_alone,
            is_made: matches!(opening, Opening::Made { .. }),
        })
    }

    /// What it is kept in.
    pub fn kind(&self) -> Kind
        ensures { result ≡ self.now.kind }
    {
        self.kind
    }

    /// Whether it was opened to make a disk in it.
    pub fn is_made(&self) -> bool {
        self.is_made
    }

    /// Whether it is a file or a device that was opened to be written.
    pub fn is_written(&self) -> bool {
        !self.is_read_alone && self.kind != Kind::Other
    }

    /// Who may read it besides its owner, where a disk is made in it.
    pub fn readers(&self) -> Option<Readers>
        ensures { result ≡ self.now.readers }
    {
        self.readers
    }

    /// The number of its sectors, at most 2^32. The last may be a part of one.
    pub fn end(&self) -> Result<u64, Trouble>
        ensures { IfOk result (λ end. end ≤ 2 ^ 32) }
    {
        let mut file = &self.file;
        let bytes = file.seek(SeekFrom::End(0))?;
        Ok(sectors_of(bytes))
    }
}

/// What a system keeps in a file, no clause can say.
impl Sectors for ImageFile {
    ghost told = { ⊥ };

    ghost content = { λ file offset. 0 };

    /// What is past a regular file's end reads as zeros; past the end of anything else there is nothing to read.
    fn read(&mut self, sector: u32, room: &mut [u8]) -> Result<(), Trouble> {
        let got = read_bytes(&self.file, sector, room)?;
        if got < room.len() {
            if self.kind != Kind::File {
                return Err(Trouble::PastEnd);
            }
            room[got..].fill(0);
        }
        Ok(())
    }

    /// Where it was opened to be read alone, what has to be written is a recovery.
    fn refusal(&self) -> Option<Trouble> {
        if self.is_read_alone {
            Some(Trouble::NoRecovery)
        } else {
            None
        }
    }

    fn write(&mut self, sector: u32, from: &[u8]) -> Result<(), Trouble> {
        if let Some(trouble) = self.refusal() {
            return Err(trouble);
        }
        self.file
            .write_all_at(from, u64::from(sector) * SECTOR as u64)?;
        Ok(())
    }

    fn sync(&mut self) -> Result<(), Trouble> {
        self.file.sync_data()?;
        Ok(())
    }
}

/// Whether two paths name one file or device, or would once a missing one is made.
pub fn are_one(rt: &HostRuntime, first: &str, second: &str) -> bool {
    match (fs::metadata(rt, first), fs::metadata(rt, second)) {
        (Ok(first), Ok(second)) => is_one_file(&first, &second),
        (Err(_), Err(_)) => is_one_place(rt, Path::new(first), Path::new(second)),
        _ => false,
    }
}

/// Whether a path names a block device.
pub(crate) fn is_device(rt: &HostRuntime, path: &str) -> bool {
    match fs::metadata(rt, path) {
        Ok(metadata) => Kind::of(&metadata) == Kind::Device,
        Err(_) => false,
    }
}

/// Whether these are of one file, or of two nodes of one device.
pub(crate) fn is_one_file(first: &Metadata, second: &Metadata) -> bool {
    let is_file = first.dev() == second.dev() && first.ino() == second.ino();
    let are_devices = first.file_type().is_block_device() && second.file_type().is_block_device();
    is_file || (are_devices && first.rdev() == second.rdev())
}

/// Whether two paths name one place in one folder.
fn is_one_place(rt: &HostRuntime, first: Path<'_>, second: Path<'_>) -> bool {
    if first.file_name() != second.file_name() {
        return false;
    }
    match (
        fs::metadata(rt, folder_of(first)),
        fs::metadata(rt, folder_of(second)),
    ) {
        (Ok(first), Ok(second)) => is_one_file(&first, &second),
        _ => false,
    }
}

/// Opens a file that is there.
fn open_there(rt: &HostRuntime, path: &str) -> io::Result<File> {
    OpenOptions::new().read(true).write(true).open(rt, path)
}

/// Opens a file that is there, to be read alone where it can't be written, and tells whether it is.
fn open_to_look(rt: &HostRuntime, path: &str) -> io::Result<(File, bool)> {
    match open_there(rt, path) {
        Ok(file) => Ok((file, false)),
        Err(error) => match error.kind() {
            ErrorKind::PermissionDenied | ErrorKind::ReadOnlyFilesystem => {
                Ok((File::open(rt, path)?, true))
            }
            _ => Err(error),
        },
    }
}

/// Opens the file, or makes it where it is missing. A link to a file that is missing isn't followed: nobody asked for a
/// file there.
fn open_or_make(rt: &HostRuntime, path: &str) -> Result<File, Trouble> {
    match open_there(rt, path) {
        Ok(file) => Ok(file),
        Err(error) if error.kind() == ErrorKind::NotFound => make(rt, path),
        Err(error) => Err(Trouble::from(error)),
    }
}

/// Makes a file that is missing.
fn make(rt: &HostRuntime, path: &str) -> Result<File, Trouble> {
    let made = OpenOptions::new()
        .read(true)
        .write(true)
        .create_new(true)
        .mode(OWNER_ALONE)
        .open(rt, path);
    match made {
        Ok(file) => Ok(file),
        Err(error) if error.kind() == ErrorKind::AlreadyExists && is_link(rt, path) => {
            Err(Trouble::Dangling)
        }
        Err(error) => Err(Trouble::from(error)),
    }
}

/// Whether a path names a link.
fn is_link(rt: &HostRuntime, path: &str) -> bool {
    match fs::symlink_metadata(rt, path) {
        Ok(metadata) => metadata.is_symlink(),
        Err(_) => false,
    }
}

/// Locks a file, or finds that another process has. Several may look at one that can't be written.
fn lock(file: &File, is_read_alone: bool) -> Result<(), Trouble> {
    let locked = if is_read_alone {
        file.try_lock_shared()
    } else {
        file.try_lock()
    };
    match locked {
        Ok(()) => Ok(()),
        Err(TryLockError::WouldBlock) => Err(Trouble::InUse),
        Err(TryLockError::Error(error)) => Err(Trouble::System(error)),
    }
}

/// Prepares a file for a disk of so many bytes, and tells who may read it then besides its owner.
fn prepare(
    rt: &HostRuntime,
    path: &str,
    file: &File,
    metadata: &Metadata,
    bytes: u64,
) -> Result<Option<Readers>, Trouble> {
    if Kind::of(metadata) == Kind::Device {
        fits(file, bytes)?;
    }
    if let Err(error) = sync_folder(rt, path) {
        return Err(Trouble::Folder(error));
    }
    if metadata.is_file() && metadata.len() == 0 {
        // Where this is refused, what is answered tells it.
        let _refused = file.set_permissions(Permissions::from_mode(OWNER_ALONE));
    }
    Ok(Readers::of(file.metadata()?.permissions().mode()))
}

/// Whether a device has so many bytes.
fn fits(device: &File, needs: u64) -> Result<(), Trouble> {
    let mut device = device;
    let has = device.seek(SeekFrom::End(0))?;
    if has < needs {
        return Err(Trouble::TooSmall { needs, has });
    }
    Ok(())
}

/// Has the entry of the file at a path on the disk: that in the folder that it really is in, where the path is a link.
fn sync_folder(rt: &HostRuntime, path: &str) -> io::Result<()> {
    if fs::symlink_metadata(rt, path)?.is_symlink() {
        let real = fs::canonicalize(rt, path)?;
        return sync_parent(rt, real.as_path());
    }
    sync_parent(rt, Path::new(path))
}

/// Syncs the folder that a path names something in.
pub(crate) fn sync_parent(rt: &HostRuntime, path: Path<'_>) -> io::Result<()> {
    File::open(rt, folder_of(path))?.sync_all()
}

/// The folder that a path names something in.
pub(crate) fn folder_of<'a>(path: Path<'a>) -> &'a str {
    match path.parent() {
        Some(folder) if folder.as_str() != "" => folder.as_str(),
        _ => ".",
    }
}

/// Reads a file's bytes from a sector on, up to the room's end or the file's, and tells how many there are. A read that
/// a signal interrupts is made again.
pub(crate) fn read_bytes(file: &File, sector: u32, room: &mut [u8]) -> io::Result<usize>
    ensures { IfOk result (λ count. count ≤ length room.new) }
{
    let start = u64::from(sector) * SECTOR as u64;
    let mut got = 0;
    for _ in 0..u64::MAX {
        if got >= room.len() {
            return Ok(got);
        }
        match file.read_at(&mut room[got..], start + got as u64) {
            Ok(0) => return Ok(got),
            Ok(count) => got += count,
            Err(error) if error.kind() == ErrorKind::Interrupted => {}
            Err(error) => return Err(error),
        }
    }
    Err(io::Error::from(ErrorKind::Interrupted))
}
