//! The shell as a server of the loop.

ghost use Rattle.std.specs.Prelude.{◌≡◌, true, ⊤};
ghost use Rattle.image_world.specs.Behind.{behind};
ghost use Rattle.tsd_core.specs.Core.{told_world};
ghost use Rattle.volume_laws.specs.Quiet.{IsQuiet};
ghost use Rattle.volume_laws.specs.Writes.{due};
ghost use Rattle.shell_server.specs.Kept.{FitsShell, IsServerReady, shell_state, shell_stands, shell_rests};
ghost use Rattle.shell_server.specs.Shell.{shell_service, shell_work};
ghost use Rattle.shell_server.specs.ShellLaws.{shell_counted};

use crate::answer::answer_file;
use crate::started::Started;
use core_blocks::Placing;
use fs_port::Files;
use fs_walks::Walks;
use gathered_tasks::AskRoom;
use image_device::{Device, Failed, Port};
use serving::{Protocol, Server};
use shell_text::FileAsk;
use std::marker::PhantomData;
use tsd_core::Core;
use tsd_words::Status;

/// A file system on the disk of a core, with room for its asks. It borrows all three: of a reference beside something
/// owned nothing would be known after the run.
#[derive(Drop)]
pub struct ShellServer<'a, F: Files, L: Placing, K: Started> {
    /// The disk.
    pub core: &'a mut Core,

    /// In which order free blocks are taken.
    pub placement: &'a L,

    /// The file system.
    pub files: &'a mut F,

    /// What its asks need beside the disk.
    pub room: &'a mut AskRoom,

    /// The world at the start.
    pub of: PhantomData<K>,
}

impl<'a, F: Walks, L: Placing, K: Started, M: Protocol<Request = FileAsk>> Server<M>
    for ShellServer<'a, F, L, K> {
    ghost service = { shell_service K.start };

    ghost work = { shell_work };

    ghost is_ready = { λ h. IsServerReady (F.view h.files.now) h.core.now h.room.now };

    ghost is_spent = { λ h. h.core.now.volume.is_spent ≡ true };

    ghost holds = { λ h x. FitsShell K.start (F.view h.files.now) h.core.now x };

    ghost state = { λ h x. shell_state (F.view h.files.now) x };

    ghost due = { λ h x. due h.core.now.volume };

    ghost is_closed = { IsQuiet };

    ghost ends_by_sending = { ⊤ };

    ghost aside = { λ h. behind (told_world h.core.now).geometry };

    ghost lender = { λ h. h.core.ghost_name };

    ghost stands_now = { λ h x keeps. shell_stands K.start (F.view h.files.now) h.core.now x keeps };

    ghost rests_now = { λ h x keeps. shell_rests K.start (F.view h.files.now) h.core.now x keeps };

    ghost counted = { shell_counted K.start };

    fn answer<P: Port>(&mut self, port: &mut P, request: &FileAsk) -> Result<(), Status> {
        answer_file::<F, P, L, K>(
            self.files,
            self.core,
            self.placement,
            port,
            self.room,
            request,
        )
    }

    fn close<D: Device>(&mut self, dev: &mut D) -> Result<(), Failed> {
        self.core.close(dev)
    }
}
