// The last bytes of each sector of a journal, in memory that is taken once.
ghost use Rattle.std.specs.Prelude.{◌≡◌, ◌-◌, true, length, get_or, replicate, slice_set, false};
ghost use Rattle.std.specs.Prelude.{None, Some, IfNone, IfSome};
ghost use Rattle.image_layout.specs.Ring.{ring_start};
ghost use Rattle.intent_journal.specs.Home.{is_journal};
ghost use Rattle.gathering.specs.Gathered.{journal_size};

use image_layout::ring::RING_START;
use std::alloc::Global;
use tsd_model::NoMemory;

/// How many sectors a journal has.
const SECTORS: usize = 129;

/// The last bytes of each sector of a journal, from its first one on; none where it wasn't written.
#[derive(Drop)]
pub(crate) struct JournalSectors {
    pub(crate) last: Vec<Option<[u8; 512]>>,
    /// Whether any may be there since they were cleared, which takes 66 KB.
    touched: bool,
    ghost size: { length last.items ≡ journal_size },
    ghost untouched: { touched ≡ false → last.items ≡ replicate journal_size None },
}

impl JournalSectors {
    /// The sectors of a journal. This alone takes memory.
    pub(crate) fn new(alloc: Global) -> Result<JournalSectors, NoMemory> {
        match vec![in alloc; None; SECTORS] {
            Ok(last) => {
                Ok(JournalSectors {
                    last,
                    touched: true,
                })
            }
            Err(_) => Err(NoMemory),
        }
    }

    /// None was written any more.
    pub(crate) fn clear(&mut self)
        ensures { self.new.last.items ≡ replicate journal_size None }
    {
        if self.touched {
            self.last.fill(None);
            self.touched = false;
        }
    }

    /// The bytes that a sector of the journal has, or none where it wasn't written.
    pub(crate) fn get(&self, sector: u32) -> Option<&[u8; 512]>
        requires { is_journal sector ≡ true }
        ensures none { IfNone result (get_or self.now.last.items (sector - ring_start) None ≡ None) }
        ensures some { IfSome result (λ b. get_or self.now.last.items (sector - ring_start) None ≡ Some b.now) }
    {
        self.last[(sector - RING_START) as usize].as_ref()
    }

    /// Gives a sector of the journal its last bytes.
    pub(crate) fn put(&mut self, sector: u32, bytes: &[u8; 512])
        requires { is_journal sector ≡ true }
        ensures { self.new.last.items ≡ slice_set self.old.last.items (sector - ring_start) (Some bytes.now) }
    {
        self.touched = true;
        self.last[(sector - RING_START) as usize] = Some(*bytes);
    }
}
