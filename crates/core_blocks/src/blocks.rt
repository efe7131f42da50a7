//! A core beside its device.

ghost use Rattle.std.specs.Prelude.{◌≡◌, false};
ghost use Rattle.tsd_core.specs.Core.{IsCoreAt, IsCoreReady};
ghost use Rattle.core_blocks.specs.Once.{at_prop, ready_prop};

use crate::placing::Placing;
use fs_port::Blocks;
use image_device::{Device, Failed, WorkDone};
use tsd_core::Core;
use tsd_model::{Geometry, Reply, Request};

/// A core on its device, with the order in which it takes free blocks.
#[derive(Drop)]
pub struct CoreBlocks<'a, D: Device, L: Placing> {
    core: &'a mut Core,
    placement: &'a L,
    dev: &'a mut D,
    ghost ready: { core.now.volume.is_spent ≡ false → IsCoreReady core.now } by { ready_prop core.now },
    ghost at: { D.told → core.now.volume.is_spent ≡ false
        → IsCoreAt core.now (D.view dev.now) } by { at_prop D.told core.now (D.view dev.now) },
}

impl<'a, D: Device, L: Placing> CoreBlocks<'a, D, L> {
    /// A core that is at its device.
    pub fn new(core: &'a mut Core, placement: &'a L, dev: &'a mut D) -> CoreBlocks<'a, D, L>
        requires ready { IsCoreReady core.old }
        requires at { D.told → IsCoreAt core.old (D.view dev.old) }
        /// promise (with dev, core_now, dev_now): The core over its device, as the disk that file systems ask
        /// (`Blocks`).
        ensures core { result.core.ghost_name ≡ core.entry.ghost_name }
        ensures dev { result.dev.ghost_name ≡ dev.entry.ghost_name }
        ensures core_now { result.core.now ≡ core.old }
        ensures dev_now { result.dev.now ≡ dev.old }
        ensures kind { L.kind result.placement.now ≡ L.kind placement.now }
    {
        CoreBlocks {
            core,
            placement,
            dev,
        }
    }
}

impl<'a, D: Device, L: Placing> Blocks for CoreBlocks<'a, D, L> {
    ghost use Rattle.core_blocks.specs.CoreView.{core_view};
    ghost use Rattle.core_blocks.specs.ViewLaws.{core_sound};

    ghost told = { D.told };

    ghost view = { λ b. core_view (b.core.ghost_name, b.dev.ghost_name) (L.kind b.placement.now) b.core.now
        (D.view b.dev.now) };

    ghost sound = { λ b told unspent. core_sound (b.core.ghost_name, b.dev.ghost_name) (L.kind b.placement.now)
        b.core.now (D.view b.dev.now) (D.sound b.dev.now told) (b.at told unspent) };

    fn geometry(&self) -> Geometry {
        self.core.geometry()
    }

    fn ask(&mut self, request: &Request) -> Result<Reply, Failed> {
        self.placement.apply(self.core, self.dev, request)
    }

    fn is_spent(&self) -> bool {
        self.core.is_spent()
    }

    fn show_work_done(&self, done: WorkDone) {
        self.dev.show_work_done(done);
    }
}
