// What was done, as clauses see it.
ghost use Rattle.std.specs.Prelude.{◌≡◌, ◌++◌, [], ◌∷◌, List};
ghost use Rattle.std.specs.Coded.{coded_list};
ghost use Rattle.image_device.specs.declared.event.Event.{Event};
ghost use Rattle.image_device.specs.contracts.event.Event.{the_row};
ghost use Rattle.image_device.specs.declared.event.Event.TheVariants.{Sync, Write};
ghost use base.Fml.{ftrue};

use std::marker::{Model, PhantomData};

/// The events of a disk in memory, the oldest first. It has no bytes: only clauses see them, and only a clause ties
/// them.
#[derive(Drop)]
pub(crate) struct Past {
    marker: PhantomData<u8>,
    pub(crate) ghost events: { List Event } by { coded_list the_row.coded },
}

impl Model for Past {
    ghost also_owns = { λ _. ftrue };
}

impl Past {
    /// The events that a value stands for.
    pub(crate) fn of<T>(x: &T) -> Past
        ghost how: { T → List Event }
        ensures { result.events ≡ how x.now }
    {
        let _ = x;
        Past {
            marker: PhantomData,
        }
    }

    /// No event.
    pub(crate) fn none() -> Past
        ensures { result.events ≡ [] }
    {
        Past::of(&())
    }

    /// A write behind them.
    pub(crate) fn with_write(&self, sector: u32, from: &[u8; 512]) -> Past
        ensures { (bytes : _) × (bytes.value ≡ from.now)
            × (result.events ≡ self.now.events ++ Write sector bytes ∷ []) }
    {
        Past::of(&(self, sector, from))
    }

    /// A sync behind them.
    pub(crate) fn with_sync(&self) -> Past
        ensures { result.events ≡ self.now.events ++ Sync ∷ [] }
    {
        Past::of(self)
    }
}
