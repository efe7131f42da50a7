//! What a volume holds.

ghost use Rattle.std.specs.Prelude.{◌≡◌};

use block_alloc::LiveMap;
use cap_store::CapStore;
use cycle_sweep::Marks;
use image_layout::Header;
use intent_journal::{Batch, Ring};
use pointer_table::PointerTable;
use reclaim::{Ahead, Guesses};
use ref_counts::RefCounts;
use std::marker::Model;

/// A world on a device. Contracts see the tables of its image, the records of its journal, and whether it is ready and
/// spent.
#[derive(Drop)]
pub struct Volume {
    /// The version and the size of the disk.
    pub(crate) header: Header,

    /// The records that aren't in place yet.
    pub(crate) ring: Ring,

    /// Room for a batch. Between calls its patches don't matter.
    pub(crate) batch: Batch,

    pub(crate) pointers: PointerTable,
    pub(crate) counts: RefCounts,
    pub(crate) live: LiveMap,
    pub(crate) caps: CapStore,

    /// Some blocks to which no pair leads, perhaps, so that a step of reclamation needn't look for one.
    pub(crate) guesses: Guesses,

    /// Room for the marks of a sweep. Between calls they don't matter.
    pub(crate) marks: Marks,

    /// What is doomed on the disk and not reclaimed yet. It is right once the volume is ready.
    pub(crate) ahead: Ahead,

    /// A sweep has begun and not ended.
    pub(crate) is_sweeping: bool,

    /// What the image held of a sweep and a cascade was ended, so that `ahead` is right.
    pub(crate) is_ready: bool,

    /// A call on the device failed.
    pub(crate) is_spent: bool,
}

impl Model for Volume {
    ghost use Rattle.std.specs.Prelude.{length};
    ghost use Rattle.volume_laws.specs.Volume.{Volume as Value_of, tables_in, AreParts};

    ghost Value = { Value_of };

    ghost view = { λ v. record {
      tables = tables_in v.header v.pointers v.counts v.live v.caps v.is_sweeping;
      ring = v.ring;
      is_ready = v.is_ready;
      is_spent = v.is_spent;
    } };

    ghost invariant = { λ v. AreParts v.header v.pointers v.counts v.live v.caps v.is_sweeping (length v.marks)
        v.ahead v.is_ready };
}

impl Volume {
    /// Whether a call on its device failed. Then nothing in it is used again.
    pub fn is_spent(&self) -> bool
        ensures { result ≡ self.now.is_spent }
    {
        self.is_spent
    }
}
