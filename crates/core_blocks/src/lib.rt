//! The disk of an image as a file system asks it.
//!
//! What it stands on: `tsd_core` carries out requests on a device, and `fs_port` says what a file system asks of a
//! disk.
//!
//! What it promises: a core that is borrowed with its device is a disk of blocks, and is spent exactly where the core
//! is. Each ask answers by the rules of the disk, and a crash inside leaves an image of the world before or of the one
//! after. No ask writes a sector behind the image. What memory tells holds for every device.
#![tactic(auto)]

mod blocks;
mod placing;

pub use blocks::CoreBlocks;
pub use placing::Placing;
