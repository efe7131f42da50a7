//! A volume, as a verdict asks it.

ghost use Rattle.std.specs.Prelude.{◌≡◌};
ghost use Rattle.volume_laws.specs.Volume.{IsVolumeReady, told_by};

use grant_table::DiskFacts;
use tsd_model::{Geometry, Level, Shown};
use volume::Volume;

/// A volume that tells its world.
#[derive(Drop)]
pub(crate) struct Told<'a> {
    volume: &'a Volume,
    ghost ready: { IsVolumeReady volume.now },
}

impl<'a> Told<'a> {
    /// What this volume tells.
    pub(crate) fn of(volume: &'a Volume) -> Told<'a>
        requires { IsVolumeReady volume.now }
        ensures { result.volume.now ≡ volume.now }
    {
        Told { volume }
    }
}

impl<'a> DiskFacts for Told<'a> {
    ghost world = { λ f. told_by f.volume.now };

    fn geometry(&self) -> Geometry {
        self.volume.geometry()
    }

    fn live(&self, block: u32) -> bool {
        self.volume.is_live(block)
    }

    fn shown_level(&self, block: u32, shown: &Shown) -> Level {
        self.volume.level_shown(block, shown)
    }

    fn next_source(&self, target: u32, start: u32) -> Option<u32> {
        self.volume.next_source(target, start)
    }

    fn has(&self, source: u32, target: u32) -> bool {
        self.volume.has(source, target)
    }

    fn free(&self) -> u32 {
        self.volume.free_count()
    }

    fn has_run(&self, count: u32) -> bool {
        self.volume.has_run(count)
    }

    fn pointers(&self) -> u32 {
        self.volume.pointers()
    }
}
