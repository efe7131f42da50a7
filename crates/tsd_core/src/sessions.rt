//! Requests that ask nothing of the device.

ghost use Rattle.std.specs.Prelude.{◌≡◌, ◌+◌, ◌<◌, ◌≤◌, true, None};
ghost use Rattle.std.specs.Prelude.{Ok};
ghost use Rattle.tsd_model.specs.World.{is_live};
ghost use Rattle.tsd_model.specs.declared.caps.Shown.{Shown as AnyShown};
ghost use Rattle.tsd_model.specs.declared.requests.Request.TheVariants as ask;
ghost use Rattle.tsd_core.specs.Core.{IsCoreReady, told_world};
ghost use Rattle.tsd_core.specs.Carrying.{IsKnown, left_in};
ghost use Rattle.tsd_model.specs.Sessions.{session_begun, session_ended};
ghost use Rattle.tsd_model.specs.World.{free_count};
ghost use Rattle.tsd_model.specs.Step.{targets_from};
ghost use Rattle.tsd_model.specs.declared.replies.Reply.TheVariants as reply;
ghost use Rattle.grant_table.specs.Table.{with_sessions, begin_verdict, end_verdict};
ghost use Rattle.std.specs.Prelude.{◌⊎◌};

use crate::disk::Core;
use crate::outcome::refused;
use grant_table::{BeginRefusal, EndRefusal};
use image_device::Failed;
use tsd_model::{Reply, Rule};

impl Core {
    /// Opens a session. It alone may find no memory; nothing changes then.
    #[inline(never)]
    pub(crate) fn begin(&mut self, session: u32, into: &mut Reply) -> Result<(), Failed>
        requires granted { begin_verdict self.old.grants.sessions session ≡ None }
        requires known { IsKnown self.old.volume }
        requires ready { IsCoreReady self.old }
        ensures volume { self.new.volume ≡ self.old.volume }
        ensures answer { ((left_in result into.new ≡ Ok reply.Done)
            × (self.new.grants ≡ with_sessions self.old.grants (session_begun (told_world self.old)
            self.old.grants.sessions session)))
            ⊎ ((left_in result into.new ≡ Ok reply.NoMemory) × (self.new.grants ≡ self.old.grants)) }
    {
        *into = Reply::Done;
        match self.grants.begin(session) {
            Ok(()) => Ok(()),
            Err(BeginRefusal::NoMemory) => {
                *into = Reply::NoMemory;
                Ok(())
            }
            Err(BeginRefusal::BadSession) => refused(Rule::BadSession, into),
            Err(BeginRefusal::AlreadyOpen) => refused(Rule::AlreadyOpen, into),
        }
    }

    /// Closes a session.
    #[inline(never)]
    pub(crate) fn end(&mut self, session: u32, into: &mut Reply) -> Result<(), Failed>
        requires granted { end_verdict self.old.grants.sessions session ≡ None }
        ensures volume { self.new.volume ≡ self.old.volume }
        ensures answer { (left_in result into.new ≡ Ok reply.Done)
            × (self.new.grants ≡ with_sessions self.old.grants (session_ended self.old.grants.sessions session)) }
    {
        *into = Reply::Done;
        match self.grants.end(session) {
            Ok(()) => Ok(()),
            Err(EndRefusal::BadSession) => refused(Rule::BadSession, into),
            Err(EndRefusal::NotOpen) => refused(Rule::NotOpen, into),
        }
    }

    /// The targets of a block from a number on, at most 64.
    #[inline(never)]
    pub(crate) fn list(&self, source: u32, start: u32, into: &mut Reply) -> Result<(), Failed>
        requires live { is_live (told_world self.now) source ≡ true }
        requires known { IsKnown self.now.volume }
        requires ready { IsCoreReady self.now }
        ensures { left_in result into.new ≡ Ok (reply.Targets (targets_from (told_world self.now).pairs source start)) }
    {
        *into = Reply::Targets(self.volume.targets_from(source, start));
        Ok(())
    }

    /// How many blocks are free.
    #[inline(never)]
    pub(crate) fn free(&self, into: &mut Reply) -> Result<(), Failed>
        requires { IsCoreReady self.now }
        ensures { left_in result into.new ≡ Ok (reply.Free (free_count (told_world self.now))) }
    {
        *into = Reply::Free(self.volume.free_count());
        Ok(())
    }
}
