//! What a core holds.

ghost use Rattle.std.specs.Prelude.{◌≡◌, ◌+◌, ◌<◌, false, length};
ghost use Rattle.tsd_model.specs.Attained.{shown_level};
ghost use Rattle.tsd_model.specs.Sessions.{no_sessions};
ghost use Rattle.tsd_model.specs.World.{free_count};
ghost use Rattle.tsd_core.specs.Core.{IsCoreReady, told_world};
ghost use Rattle.volume_laws.specs.Volume.{IsVolumeReady};

use grant_table::Grants;
use std::alloc::Global;
use std::marker::Model;
use tsd_model::{Geometry, Level, Shown};
use volume::Volume;

/// A disk with the sessions that are open at it. Contracts see the volume and the table of what sessions hold.
#[derive(Drop)]
pub struct Core {
    pub(crate) volume: Volume,
    pub(crate) grants: Grants,
}

impl Model for Core {
    ghost use Rattle.tsd_core.specs.Core.{Core as Value_of};

    ghost Value = { Value_of };

    ghost view = { λ c. record { volume = c.volume; grants = c.grants } };
}

impl Core {
    /// The disk of a volume, with no session open. A session that is opened takes its memory from `alloc`.
    pub fn new(alloc: Global, volume: Volume) -> Core
        requires ready { IsVolumeReady volume }
        ensures volume { result.volume ≡ volume }
        ensures sessions { result.grants.sessions ≡ no_sessions }
        ensures ready { volume.is_spent ≡ false → IsCoreReady result }
    {
        let geometry = volume.geometry();
        Core {
            grants: Grants::new(alloc, geometry.blocks, geometry.primaries),
            volume,
        }
    }

    /// How large the disk is.
    pub fn geometry(&self) -> Geometry
        ensures { result ≡ (told_world self.now).geometry }
    {
        self.volume.geometry()
    }

    /// How many blocks are free.
    pub fn free_count(&self) -> u32
        requires { IsCoreReady self.now }
        ensures { result ≡ free_count (told_world self.now) }
    {
        self.volume.free_count()
    }

    /// How many pointers are held.
    pub fn pointers(&self) -> u32
        requires { IsCoreReady self.now }
        ensures { result ≡ length (told_world self.now).pairs }
    {
        self.volume.pointers()
    }

    /// What a shown capability attains at a primary block.
    pub fn level_shown(&self, block: u32, shown: &Shown) -> Level
        requires { block < (told_world self.now).geometry.primaries }
        ensures { result ≡ shown_level (told_world self.now) block shown.now }
    {
        self.volume.level_shown(block, shown)
    }

    /// Whether a call on its device failed. Then nothing in it is used again.
    pub fn is_spent(&self) -> bool
        ensures { result ≡ self.now.volume.is_spent }
    {
        self.volume.is_spent()
    }
}
