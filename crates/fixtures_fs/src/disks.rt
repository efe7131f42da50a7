//! Disks that tell nothing, and fail from one ask on.

use fs_port::{Blocks, PlainBlocks};
use image_device::Failed;
use plain_disk::{Sessions, World};
use std::alloc::Global;
use tsd_model::{Cap, CapList, CapPair, Geometry, PlaceKind, Reply, Request, lawful};

/// What is shown for writing.
pub const WRITE: Cap = Cap { bytes: [0xbb; 16] };

/// What is shown for reading.
pub const READ: Cap = Cap { bytes: [0xaa; 16] };

/// A plain disk's reply; None where none comes any more.
pub fn reply_of(disk: &mut PlainBlocks, request: &Request) -> Option<Reply> {
    if disk.is_spent() {
        return None;
    }
    disk.ask(request).ok()
}

/// A plain disk that doesn't tell its world, so that what a call asks of the world need not be known. It answers so
/// many asks more, and then it fails. Of its sessions and of what is kept of capabilities it says what stands on a disk
/// with session 1 open.
#[derive(Drop)]
pub struct Untold {
    /// How many asks more it answers.
    pub left: u64,

    /// How often an ask failed.
    pub faults: u64,

    /// Whether an ask failed.
    pub is_stopped: bool,

    inner: PlainBlocks,
    geometry: Geometry,
}

impl Blocks for Untold {
    ghost use Rattle.fixtures_fs.specs.Untold.{untold_view};

    ghost told = { ⊥ };

    ghost view = { λ d. untold_view d.geometry d.faults d.is_stopped };

    ghost sound = { λ d told. absurd told };

    fn geometry(&self) -> Geometry {
        self.geometry
    }

    fn ask(&mut self, request: &Request) -> Result<Reply, Failed> {
        if self.left > 0 {
            self.left -= 1;
            if let Some(reply) = reply_of(&mut self.inner, request) {
                return Ok(reply);
            }
        }
        self.faults = self.faults.saturating_add(1);
        self.is_stopped = true;
        Err(Failed)
    }

    fn is_spent(&self) -> bool {
        self.is_stopped
    }
}

impl Untold {
    /// A disk of this size that answers all asks. Session 1 is open there.
    fn new(inner: PlainBlocks, geometry: Geometry) -> Untold {
        Untold {
            left: u64::MAX,
            faults: 0,
            is_stopped: false,
            inner,
            geometry,
        }
    }

    /// The disk as it is, which answers all asks from now on.
    pub(crate) fn mended(self) -> Untold {
        let Untold {
            inner,
            geometry,
            ..
        } = self;
        Untold::new(inner, geometry)
    }
}

/// The capabilities of the one primary block; None where there is no room.
fn caps() -> Option<CapList> {
    let mut caps = CapList::new();
    caps.push(CapPair {
        read: READ,
        write: WRITE,
    })
    .ok()?;
    Some(caps)
}

/// A plain disk of so many blocks with this many slots, of which one is primary, as after formatting, with session 1
/// open; None where there is no such disk or no memory.
pub(crate) fn fresh(alloc: Global, sectors: u32, blocks: u32, slots: u32) -> Option<Untold> {
    let geometry = Geometry {
        sectors,
        blocks,
        primaries: 1,
        slots,
    };
    let caps = caps()?;
    if !lawful(&geometry) || caps.len() != 1 {
        return None;
    }
    let world = World::fresh(alloc, &geometry, &caps).ok()?;
    let mut inner = PlainBlocks::new(alloc, PlaceKind::Near, world, Sessions::none(alloc));
    match reply_of(&mut inner, &Request::Begin { session: 1 }) {
        Some(Reply::Done) => Some(Untold::new(inner, geometry)),
        _ => None,
    }
}
