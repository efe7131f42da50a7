//! The placements of all four kinds.

ghost use Rattle.std.specs.Prelude.{◌≡◌};
ghost use Rattle.tsd_model.specs.declared.requests.PlaceKind.TheVariants.{Low, Near, Spread, Zone};

use crate::placement::Placement;
use tsd_model::PlaceKind;

/// A placement of each kind.
#[derive(Drop)]
pub struct PlaceBook {
    low: Placement,
    near: Placement,
    spread: Placement,
    zone: Placement,
    ghost low_is: { low.kind ≡ Low },
    ghost near_is: { near.kind ≡ Near },
    ghost spread_is: { spread.kind ≡ Spread },
    ghost zone_is: { zone.kind ≡ Zone },
}

impl PlaceBook {
    /// A book of four placements, each of its kind.
    pub fn new(low: Placement, near: Placement, spread: Placement, zone: Placement) -> PlaceBook
        requires low { low.kind ≡ Low }
        requires near { near.kind ≡ Near }
        requires spread { spread.kind ≡ Spread }
        requires zone { zone.kind ≡ Zone }
        ensures low { result.low ≡ low }
        ensures near { result.near ≡ near }
        ensures spread { result.spread ≡ spread }
        ensures zone { result.zone ≡ zone }
    {
        PlaceBook {
            low,
            near,
            spread,
            zone,
        }
    }

    /// The placement of a kind.
    pub fn pick(&self, kind: PlaceKind) -> &Placement
        ensures { result.now.kind ≡ kind }
    {
        match kind {
            PlaceKind::Low => &self.low,
            PlaceKind::Near => &self.near,
            PlaceKind::Spread => &self.spread,
            PlaceKind::Zone => &self.zone,
        }
    }
}
