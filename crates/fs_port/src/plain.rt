//! A plain disk in memory.

ghost use Rattle.std.specs.Prelude.{◌≡◌, false};

use crate::blocks::Blocks;
use image_device::Failed;
use plain_disk::{Sessions, World, plain_step};
use std::alloc::Global;
use std::mem;
use tsd_model::{Geometry, PlaceKind, Reply, Request};

/// A disk that carries out requests by the plain program, and keeps each world that it has had. Want of memory is a
/// fault, and it has no other.
#[derive(Drop)]
pub struct PlainBlocks {
    alloc: Global,
    kind: PlaceKind,
    world: World,
    sessions: Sessions,
    earlier: Vec<World>,
    faults: u64,
    spent: bool,
}

impl PlainBlocks {
    ghost use Rattle.fs_port.specs.Plain.{plain_view};

    /// A disk that begins as this world with these sessions.
    pub fn new(alloc: Global, kind: PlaceKind, world: World, sessions: Sessions) -> PlainBlocks
        /// promise (with sessions): A plain disk of this world and these sessions, as the disk that file systems ask
        /// (`Blocks`).
        ensures world { (plain_view result).world ≡ world }
        ensures sessions { (plain_view result).sessions ≡ sessions }
        ensures kind { (plain_view result).kind ≡ kind }
        ensures unspent { (plain_view result).spent ≡ false }
        ensures clock { (plain_view result).clock ≡ 0 }
    {
        PlainBlocks {
            alloc,
            kind,
            world,
            sessions,
            earlier: Vec::new(alloc),
            faults: 0,
            spent: false,
        }
    }
}

impl PlainBlocks {
    ghost use Rattle.std.specs.Prelude.{OnOk, OnErr};
    ghost use Rattle.fs_port.specs.Plain.{Fails, GoesOn, StaysAsItIs};

    /// Goes on with another world and other sessions.
    fn go_on(&mut self, world: World, sessions: Sessions) -> Result<(), Failed>
        ensures ok { OnOk result (GoesOn self.old self.new world sessions) }
        ensures err { OnErr result (StaysAsItIs self.old self.new) }
    {
        let last = self.earlier.len();
        match self.earlier.push(world) {
            Err(_) => return Err(Failed),
            Ok(()) => {}
        }
        mem::swap(&mut self.world, &mut self.earlier[last]);
        self.sessions = sessions;
        Ok(())
    }

    /// Counts a fault, and is spent.
    fn fail(&mut self)
        ensures { Fails self.old self.new }
    {
        self.faults = self.faults.saturating_add(1);
        self.spent = true;
    }
}

impl Blocks for PlainBlocks {
    ghost use Rattle.fs_port.specs.Plain.{plain_view, plain_sound};

    ghost told = { Unit {0} };

    ghost view = { plain_view };

    ghost sound = { λ d told unspent. plain_sound d };

    fn geometry(&self) -> Geometry {
        self.world.geometry()
    }

    fn ask(&mut self, request: &Request) -> Result<Reply, Failed> {
        match plain_step(self.alloc, self.kind, &self.world, &self.sessions, request) {
            Ok((world, sessions, reply)) => match self.go_on(world, sessions) {
                Ok(()) => Ok(reply),
                Err(fault) => {
                    self.fail();
                    Err(fault)
                }
            },
            Err(_) => {
                self.fail();
                Err(Failed)
            }
        }
    }

    fn is_spent(&self) -> bool {
        self.spent
    }
}
