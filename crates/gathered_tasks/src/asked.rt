// What was asked of a disk of blocks, as clauses see it.
ghost use Rattle.std.specs.Prelude.{◌≡◌, [], ◌∷◌, List};
ghost use Rattle.std.specs.Coded.{coded_list};
ghost use base.Fml.{ftrue};

use crate::room::AskRoom;
use std::marker::{Model, PhantomData};
use tsd_core::Core;
use tsd_model::Request;

/// What there was as a request came, and the request.
pub struct Before<P> {
    /// The device.
    pub dev: P,
    /// The core.
    pub core: Core,
    /// Its room.
    pub room: AskRoom,
    /// What was asked.
    pub request: Request,
}

/// A list of values, the newest first. It has no bytes: only clauses see them, and only a clause ties them.
#[derive(Drop)]
pub struct Log<E> {
    marker: PhantomData<E>,
    /// The values.
    pub ghost items: { List E } by { coded_list E.code },
}

impl<E> Model for Log<E> {
    ghost also_owns = { λ _. ftrue };
}

impl<E> Log<E> {
    /// The list that a value stands for.
    fn of<T>(x: &T) -> Log<E>
        ghost how: { T → List E }
        ensures { result.items ≡ how x.now }
    {
        let _ = x;
        Log {
            marker: PhantomData,
        }
    }

    /// No value.
    pub fn none() -> Log<E>
        ensures { result.items ≡ [] }
    {
        Log::of(&())
    }
}

impl<P> Log<Before<P>> {
    ghost use Rattle.gathered_tasks.specs.declared.asked.Before.{Before};

    /// A request more, on what there is.
    pub fn with(&self, dev: &P, core: &Core, room: &AskRoom, request: &Request) -> Log<Before<P>>
        ensures { result.items
            ≡ record { dev = dev.now; core = core.now; room = room.now; request = request.now } ∷ self.now.items }
    {
        Log::of(&(self, dev, core, room, request))
    }
}
