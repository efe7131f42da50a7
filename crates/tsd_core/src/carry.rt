//! A request that no rule refuses.

ghost use Rattle.std.specs.Prelude.{◌≡◌, true, IsOk};
ghost use Rattle.tsd_core.specs.Applying.{asks_nothing};
ghost use Rattle.grant_table.specs.Table.{IsTable};
ghost use Rattle.tsd_core.specs.Core.{IsCoreReady, IsCoreAt, told_world};
ghost use Rattle.tsd_core.specs.Carrying.{IsKnown, IsCarriedOut, left_in};
ghost use Rattle.tsd_core.specs.Granted.{IsRaised};
ghost use Rattle.tsd_core.specs.Journal.{makes_blocks};

use crate::disk::Core;
use crate::outcome::done;
use image_device::{Device, Failed};
use place_policy::Placement;
use tsd_model::{Reply, Request};

impl Core {
    /// Carries out a request that no rule refuses, once levels have risen.
    pub(crate) fn carry_out<D: Device>(
        &mut self,
        dev: &mut D,
        placement: &Placement,
        request: &Request,
        into: &mut Reply,
    ) -> Result<(), Failed>
        requires granted { IsRaised (told_world self.old) request.now self.old.grants.sessions }
        requires known { IsKnown self.old.volume }
        requires ready { IsCoreReady self.old }
        requires at { D.told → IsCoreAt self.old (D.view dev.old) }
        ensures carried_out { IsCarriedOut D.told placement.now.kind request.now self.old self.new (D.view dev.old)
            (D.view dev.new) (left_in result into.new) }
        ensures asks_nothing { asks_nothing request.now ≡ true → dev.new ≡ dev.old }
        ensures answered { asks_nothing request.now ≡ true → IsOk (left_in result into.new) }
        ensures volume { asks_nothing request.now ≡ true → self.new.volume ≡ self.old.volume }
    {
        if let Request::GetFree = request {
            return self.free(into);
        }
        if let Request::Read { block, .. } = request {
            return self.read(dev, *block, into);
        }
        if let Request::Write { block, bytes, .. } = request {
            return self.write(dev, *block, bytes, into);
        }
        if let Request::List { source, start, .. } = request {
            return self.list(*source, *start, into);
        }
        if let Request::Create { source, target, .. } = request {
            return self.create(dev, *source, *target, into);
        }
        if let Request::Delete { source, target, .. } = request {
            return self.delete(dev, *source, *target, into);
        }
        if let Request::SetCap { block, caps, .. } = request {
            return self.set_caps(dev, *block, caps, into);
        }
        if let Request::Begin { session } = request {
            return self.begin(*session, into);
        }
        if let Request::End { session } = request {
            return self.end(*session, into);
        }
        if let Request::Sweep { .. } = request {
            return self.sweep(dev, into);
        }
        if let Request::Bad = request {
            return done(Ok(()), into);
        }
        self.take_blocks(dev, placement, request, into)
    }

    /// The same of a request that makes blocks.
    fn take_blocks<D: Device>(
        &mut self,
        dev: &mut D,
        placement: &Placement,
        request: &Request,
        into: &mut Reply,
    ) -> Result<(), Failed>
        requires makes { makes_blocks request.now ≡ true }
        requires granted { IsRaised (told_world self.old) request.now self.old.grants.sessions }
        requires known { IsKnown self.old.volume }
        requires ready { IsCoreReady self.old }
        requires at { D.told → IsCoreAt self.old (D.view dev.old) }
        ensures { IsCarriedOut D.told placement.now.kind request.now self.old self.new (D.view dev.old)
            (D.view dev.new) (left_in result into.new) }
    {
        if let Request::Alloc {
            source,
            hint,
            count,
            ..
        } = request
        {
            return self.alloc(dev, placement, *source, hint, *count, into);
        }
        if let Request::Contig {
            source,
            hint,
            count,
            ..
        } = request
        {
            return self.contig(dev, placement, *source, hint, *count, into);
        }
        done(Ok(()), into)
    }

    /// What holds of each volume, for the proofs alone.
    pub(crate) fn check(&self)
        ensures volume { IsKnown self.now.volume }
        ensures table { IsTable self.now.grants }
    {
        let _geometry = self.volume.geometry();
        let _blocks = self.grants.blocks();
    }
}
