// A core and its device as a disk of blocks, on which requests are gathered.
ghost use Rattle.std.specs.Prelude.{◌≡◌, ℕ, [], false, true, is_some};
ghost use Rattle.image_device.specs.View.{View, untold};
ghost use Rattle.gathered_tasks.specs.BlockLaws.{memory_prop, ready_prop};
ghost use Rattle.gathered_tasks.specs.Held.{IsInMemory, IsReadyInMemory};
ghost use Rattle.gathered_tasks.specs.Rooms.{gathered};

use crate::asked::{Before, Log};
use crate::carry::carry_out;
use crate::room::AskRoom;
use core_blocks::Placing;
use fs_port::Blocks;
use image_device::{Device, Failed, WorkDone};
use std::marker::{Brand, PhantomData};
use tsd_core::Core;
use tsd_model::{Geometry, Reply, Request};

/// Through which references a core, its device and its room are lent for an ask, and the device as that began, which
/// proofs pick.
pub trait Lending {
    /// The name of the core's reference.
    ghost core: { ℕ };

    /// The name of the device's.
    ghost dev: { ℕ };

    /// The name of the room's.
    ghost room: { ℕ };

    /// The device as the ask began.
    ghost start: { View };
}

impl Lending for Brand {
    ghost core = { 0 };

    ghost dev = { 0 };

    ghost room = { 0 };

    ghost start = { untold 0 0 0 };
}

/// A core, its device and its room, as they are lent for an ask.
#[derive(Drop)]
pub struct AskOn<'a, D: Device> {
    /// The core.
    pub core: &'a mut Core,
    /// Its device.
    pub dev: &'a mut D,
    /// Its room.
    pub room: &'a mut AskRoom,
}

/// A core on its device, whose requests are carried out in memory as long as there is room, so that all that they
/// change is one commit. What a crash leaves, it tells of the disk in memory; what it leaves of the device stands in
/// its view at the first moment, for an ask that is begun (`IsBegun`), and comes from there by the laws of
/// proofs/RunLaws.
#[derive(Drop)]
pub struct GatheredBlocks<'a, D: Device, L: Placing, K: Lending> {
    core: &'a mut Core,
    placement: &'a L,
    dev: &'a mut D,
    room: &'a mut AskRoom,
    /// What was asked since it began.
    asked: Log<Before<D>>,
    lending: PhantomData<K>,
    ghost lent_core: { core.ghost_name ≡ K.core },
    ghost lent_dev: { dev.ghost_name ≡ K.dev },
    ghost lent_room: { room.ghost_name ≡ K.room },
    ghost here: { core.now.volume.is_spent ≡ false → is_some room.now.room ≡ true },
    ghost ready: { core.now.volume.is_spent ≡ false → IsReadyInMemory core.now } by { ready_prop core.now },
    ghost at: { D.told → core.now.volume.is_spent ≡ false
        → IsInMemory core.now room.now.ring (gathered room.now) (D.view dev.now) } by { memory_prop D.told core.now room.now.ring (gathered room.now) (D.view dev.now) },
}

impl<'a, D: Device, L: Placing, K: Lending> GatheredBlocks<'a, D, L, K> {
    /// A core whose journal is empty, over its device.
    pub fn new(on: AskOn<'a, D>, placement: &'a L) -> GatheredBlocks<'a, D, L, K>
        requires lent_core { on.core.ghost_name ≡ K.core }
        requires lent_dev { on.dev.ghost_name ≡ K.dev }
        requires lent_room { on.room.ghost_name ≡ K.room }
        requires here { is_some on.room.now.room ≡ true }
        requires ready { IsReadyInMemory on.core.now }
        requires at { D.told → IsInMemory on.core.now on.room.now.ring (gathered on.room.now) (D.view on.dev.now) }
        /// promise (with dev_now, room_now, kind, asked): The core over its device, as the disk that file
        /// systems ask (`Blocks`).
        ensures core_now { result.core.now ≡ on.entry.core.now }
        ensures dev_now { result.dev.now ≡ on.entry.dev.now }
        ensures room_now { result.room.now ≡ on.entry.room.now }
        ensures kind { L.kind result.placement.now ≡ L.kind placement.now }
        ensures asked { result.asked.items ≡ [] }
    {
        let AskOn { core, dev, room } = on;
        GatheredBlocks {
            core,
            placement,
            dev,
            room,
            asked: Log::none(),
            lending: PhantomData,
        }
    }

    /// Gives back what was lent, as it is.
    pub fn leave(self) -> AskOn<'a, D>
        ensures lent_core { result.core.ghost_name ≡ K.core }
        ensures lent_dev { result.dev.ghost_name ≡ K.dev }
        ensures lent_room { result.room.ghost_name ≡ K.room }
        ensures core { result.core.now ≡ self.entry.core.now }
        ensures dev { result.dev.now ≡ self.entry.dev.now }
        ensures room { result.room.now ≡ self.entry.room.now }
    {
        let GatheredBlocks {
            core,
            placement: _,
            dev,
            room,
            asked: _,
            lending: _,
        } = self;
        AskOn { core, dev, room }
    }
}

impl<'a, D: Device, L: Placing, K: Lending> Blocks for GatheredBlocks<'a, D, L, K> {
    ghost use Rattle.gathered_tasks.specs.BlockLaws.{blocks_sound};
    ghost use Rattle.gathered_tasks.specs.Blocks.{blocks_view};

    ghost told = { D.told };

    ghost view = { λ b. blocks_view D.view (b.core.ghost_name, b.dev.ghost_name) (L.kind b.placement.now)
        K.start (record { core = b.core.now; room = b.room.now; dev = b.dev.now }) b.asked.items };

    ghost sound = { λ b told unspent. blocks_sound D.view (L.kind b.placement.now)
        (b.core.ghost_name, b.dev.ghost_name) K.start
        (record { core = b.core.now; room = b.room.now; dev = b.dev.now }) b.asked.items unspent (b.at told unspent) };

    fn geometry(&self) -> Geometry {
        self.core.geometry()
    }

    fn ask(&mut self, request: &Request) -> Result<Reply, Failed> {
        self.asked = self.asked.with(self.dev, self.core, self.room, request);
        carry_out(self.core, self.dev, self.room, self.placement, request)
    }

    fn is_spent(&self) -> bool {
        self.core.is_spent()
    }

    fn show_work_done(&self, done: WorkDone) {
        self.dev.show_work_done(done);
    }
}
