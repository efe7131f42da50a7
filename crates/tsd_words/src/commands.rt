//! What the program is asked to do.

use fs_trees::ShellKind;
use tsd_model::{Cap, CapPair, Geometry, PlaceKind};

/// The bytes of a seed.
pub const SEED_BYTES: usize = 32;

/// The most requests of a load.
pub const LOAD_MAX: u32 = 200_000;

/// A disk to be made and then served.
#[derive(Clone, Copy, Debug, PartialEq, Eq)]
pub struct Fresh {
    /// Its size. It has one primary block.
    pub geometry: Geometry,

    /// The capabilities of the primary block.
    pub caps: CapPair,

    /// In which order its free blocks are taken.
    pub kind: PlaceKind,
}

/// A disk to be made.
#[derive(Clone, Copy, Debug, PartialEq, Eq)]
pub struct Format {
    /// Its size.
    pub geometry: Geometry,

    /// What the capabilities of its primary blocks are drawn from.
    pub seed: [u8; SEED_BYTES],
}

/// Requests to be drawn and carried out.
#[derive(Clone, Copy, Debug, PartialEq, Eq)]
pub struct Load {
    /// What they are drawn from.
    pub seed: [u8; SEED_BYTES],

    /// How many they are, 1 to 200,000.
    pub count: u32,

    /// In which order free blocks are taken.
    pub kind: PlaceKind,
}

/// A file system to be served.
#[derive(Clone, Copy, Debug, PartialEq, Eq)]
pub struct Shell {
    /// How its tree is kept in blocks.
    pub layout: ShellKind,

    /// The block under which it hangs.
    pub root: u32,

    /// The capability that is shown for that block.
    pub cap: Cap,

    /// In which order free blocks are taken.
    pub kind: PlaceKind,
}

/// A tree of files, by the block under which it hangs.
#[derive(Clone, Copy, Debug, PartialEq, Eq)]
pub struct TreeRoot {
    /// How the tree is kept in blocks.
    pub layout: ShellKind,

    /// The block.
    pub root: u32,

    /// The capability that is shown for that block.
    pub cap: Cap,
}

/// A tree of files to be copied.
#[derive(Clone, Copy, Debug, PartialEq, Eq)]
pub struct CopyFs {
    /// The tree.
    pub from: TreeRoot,

    /// Where it is copied to, in place of the tree that is there.
    pub into: TreeRoot,

    /// In which order free blocks are taken.
    pub kind: PlaceKind,
}

/// A command, without the image's name.
#[derive(Clone, Copy, Debug, PartialEq, Eq)]
pub enum Command {
    /// Makes a disk, and answers requests as lines.
    Fresh(Fresh),

    /// Makes a disk.
    Format(Format),

    /// Opens an image, and answers requests as lines. Free blocks are taken in this order.
    Run(PlaceKind),

    /// Opens an image, and answers requests as frames.
    Serve(PlaceKind),

    /// Opens an image, and answers requests as frames: those that come together are committed together.
    Group(PlaceKind),

    /// Opens an image, mounts the tree under a block, and answers the lines of the shell.
    Shell(Shell),

    /// Opens an image, mounts the tree under a block, and answers asks of it as frames.
    Files(Shell),

    /// Opens an image, and tells how large its world is or what is wrong with it.
    Check,

    /// Opens an image, and tells what it says of itself or what is wrong with it.
    Info,

    /// Opens an image, and carries out the requests of a seed.
    Load(Load),

    /// Opens an image, and keeps digests in place of its capabilities.
    Upgrade,

    /// Opens an image, and tells which blocks its primary blocks lead to, with a line for each as a certificate.
    Audit,

    /// Opens an image, reads a certificate, and tells what that shows of it.
    Verify,

    /// Opens an image, and copies the tree of files under one block to another block.
    CopyFs(CopyFs),
}
