//! Levels rise where a request needs one.

ghost use Rattle.std.specs.Prelude.{◌≡◌, ◌≤◌, slice_get};
ghost use Rattle.tsd_model.specs.Needs.{needs};
ghost use Rattle.tsd_model.specs.Sessions.{Sessions};
ghost use Rattle.tsd_model.specs.Step.{raised_by};
ghost use Rattle.tsd_model.specs.World.{World};
ghost use Rattle.grant_table.specs.Granted.{at_source, at_target, attained_for};
ghost use Rattle.grant_table.specs.Table.{IsMadeFor, with_sessions};
ghost use Rattle.tsd_core.specs.Core.{told_world};
ghost use Rattle.tsd_core.specs.Granted.{raised_need};

use crate::disk::Core;
use grant_table::{Granted, Grants, Origins};
use tsd_model::Request;
use tsd_model::needs::{Need, needs, session_of};

impl Core {
    /// Where the request needs a level, what its session holds becomes the greater of that and what it attains.
    pub(crate) fn raise(&mut self, request: &Request, granted: &Granted)
        requires made { IsMadeFor (told_world self.old) self.old.grants }
        requires source { granted.now.source ≡ at_source (told_world self.old) self.old.grants.sessions request.now }
        requires target { granted.now.target ≡ at_target (told_world self.old) self.old.grants.sessions request.now }
        ensures volume { self.new.volume ≡ self.old.volume }
        ensures grants { self.new.grants ≡ with_sessions self.old.grants (raised_by (told_world self.old)
            self.old.grants.sessions request.now) }
    {
        let session = session_of(request).unwrap_or(0);
        raise_at(
            &mut self.grants,
            session,
            need_at(request, 0),
            &granted.source,
        );
        raise_at(
            &mut self.grants,
            session,
            need_at(request, 1),
            &granted.target,
        );
    }
}

/// The first or the second need of a request.
fn need_at(request: &Request, index: usize) -> Option<Need>
    ensures { result ≡ slice_get (needs request.now) index }
{
    needs(request).as_slice().get(index).copied()
}

fn raise_at(grants: &mut Grants, session: u32, need: Option<Need>, origins: &Origins)
    ensures { (w : World) (v : Sessions) → grants.old.primaries ≡ w.geometry.primaries
        → origins.now ≡ attained_for w v session need → grants.new ≡ with_sessions grants.old
        (raised_need w v session need grants.old.sessions) }
{
    if let Some(need) = need {
        grants.raise(session, need.block, origins);
    }
}
