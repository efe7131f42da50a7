//! The targets of a block one after another.

ghost use Rattle.std.specs.Prelude.{◌≡◌, ℕ, ◌+◌, ◌<◌, List, IfSome};
ghost use Rattle.tsd_model.specs.Next.{IsNextTarget};
ghost use Rattle.volume_laws.specs.Volume.{IsVolumeReady, told_by};
ghost use Rattle.image_audit.specs.Paging.{IsPageOf, HasRest};

use tsd_model::BlockList;
use volume::Volume;

/// The targets of a block, ascending, of which 64 are read at a time.
#[derive(Drop)]
pub(crate) struct Targets {
    source: u32,

    /// All targets below this one were handed out.
    from: u32,

    /// The targets that were read last, and how many of them were handed out.
    page: BlockList,
    position: usize,
}

impl Targets {
    /// The targets of a block, none handed out yet.
    pub(crate) fn of(source: u32) -> Targets
        ensures source { result.source ≡ source }
        ensures from { result.from ≡ 0 }
        ensures page { (es : List (ℕ × ℕ)) → IsPageOf es result }
    {
        Targets {
            source,
            from: 0,
            page: BlockList::new(),
            position: 0,
        }
    }

    /// The next target, None once all were handed out.
    pub(crate) fn next(&mut self, volume: &Volume) -> Option<u32>
        requires inside { self.old.source < volume.now.tables.geometry.blocks }
        requires ready { IsVolumeReady volume.now }
        requires page { IsPageOf (told_by volume.now).pairs self.old }
        ensures next { IsNextTarget (told_by volume.now).pairs self.old.source self.old.from result }
        ensures target { IfSome result (λ target. target < volume.now.tables.geometry.blocks) }
        ensures source { self.new.source ≡ self.old.source }
        ensures from { IfSome result (λ target. self.new.from ≡ target + 1) }
        ensures page { IsPageOf (told_by volume.now).pairs self.new }
    {
        let _size = volume.geometry();
        self.turn(volume);
        if self.position == self.page.len() {
            return None;
        }
        let target = self.page.as_slice()[self.position];
        self.position += 1;
        self.from = target + 1;
        Some(target)
    }

    /// Reads on where all that were read were handed out.
    fn turn(&mut self, volume: &Volume)
        requires inside { self.old.source < volume.now.tables.geometry.blocks }
        requires ready { IsVolumeReady volume.now }
        requires page { IsPageOf (told_by volume.now).pairs self.old }
        ensures source { self.new.source ≡ self.old.source }
        ensures from { self.new.from ≡ self.old.from }
        ensures rest { HasRest (told_by volume.now).pairs self.new }
    {
        if self.position == self.page.len() {
            self.page = volume.targets_from(self.source, self.from);
            self.position = 0;
        }
    }
}
