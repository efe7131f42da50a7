//! Ranks worked out by hand, by closures as a program makes them.

ghost use Rattle.std.specs.Prelude.{◌≡◌, ◌+◌, ◌*◌, ◌^◌, slice_index};
ghost use Rattle.tsd_model.specs.Rank.{rank_of, zones_after};
ghost use Rattle.tsd_model.specs.declared.requests.PlaceKind.TheVariants.{Low, Near, Spread};

use place_policy::{PlaceBook, Placement, ZONE_TURNS, low_rank, near_rank, spread_rank, zone_rank};
use std::cell::Cell;
use std::rc::Rc;
use std::test::Fail;
use tsd_model::PlaceKind;

const LAST: u32 = 4_294_967_295;

#[test]
fn ranks_of_each_kind(rt: HostRuntime) -> Result<(), Fail> {
    let alloc = rt.alloc();
    let turns = ZONE_TURNS;
    let low = Box::new(
        alloc,
        |hint: u32, block: u32| -> u64
            ensures { result ≡ rank_of Low hint block }
        { low_rank(hint, block) },
    )?;
    let near = Box::new(
        alloc,
        |hint: u32, block: u32| -> u64
            ensures { result ≡ rank_of Near hint block }
        { near_rank(hint, block) },
    )?;
    let spread = Box::new(
        alloc,
        |hint: u32, block: u32| -> u64
            ensures { result ≡ rank_of Spread hint block }
        { spread_rank(hint, block) },
    )?;
    let zone = Box::new(
        alloc,
        move |hint: u32, block: u32| -> u64
            ensures { result ≡ 2 ^ 32 * slice_index turns (zones_after hint block) + block }
        { zone_rank(&turns, hint, block) },
    )?;
    let book = PlaceBook::new(
        Placement::new(PlaceKind::Low, low),
        Placement::new(PlaceKind::Near, near),
        Placement::new(PlaceKind::Spread, spread),
        Placement::new(PlaceKind::Zone, zone),
    );
    for (kind, hint, block, want) in [
        (PlaceKind::Low, LAST, 7, 7),
        (PlaceKind::Near, 10, 10, 0),
        (PlaceKind::Near, 10, 12, 4),
        (PlaceKind::Near, 10, 8, 5),
        (PlaceKind::Near, LAST, 0, 8_589_934_591),
        (PlaceKind::Spread, 5, 5, 0),
        (PlaceKind::Spread, 5, 3, 4_294_967_294),
        (PlaceKind::Spread, LAST, LAST, 0),
        (PlaceKind::Spread, LAST, 0, 1),
        (PlaceKind::Zone, 600, 512, 512),
        (PlaceKind::Zone, 600, 256, 4_294_967_552),
        (PlaceKind::Zone, 600, 768, 8_589_935_360),
        (PlaceKind::Zone, LAST, 0, 8_589_934_592),
        (PlaceKind::Zone, LAST, LAST, 4_294_967_295),
        (PlaceKind::Zone, 0, 0, 0),
        (PlaceKind::Zone, 0, 256, 8_589_934_848),
        (PlaceKind::Zone, 0, 512, 17_179_869_696),
        (PlaceKind::Zone, 0, 768, 25_769_804_544),
        (PlaceKind::Zone, 0, 1_024, 34_359_739_392),
        (PlaceKind::Zone, 0, 1_280, 42_949_674_240),
        (PlaceKind::Zone, 0, 1_536, 51_539_609_088),
        (PlaceKind::Zone, 0, 1_792, 60_129_543_936),
        (PlaceKind::Zone, 0, 2_048, 64_424_511_488),
        (PlaceKind::Zone, 0, 2_304, 55_834_577_152),
        (PlaceKind::Zone, 0, 2_560, 47_244_642_816),
        (PlaceKind::Zone, 0, 2_816, 38_654_708_480),
        (PlaceKind::Zone, 0, 3_072, 30_064_774_144),
        (PlaceKind::Zone, 0, 3_328, 21_474_839_808),
        (PlaceKind::Zone, 0, 3_584, 12_884_905_472),
        (PlaceKind::Zone, 0, 3_840, 4_294_971_136),
    ] {
        assert_eq!(rt;
            book.pick(kind).rank(hint, block),
            want,
            "{kind:?} {hint} {block}"
        );
    }
    Ok(())
}

/// How many calls a placement makes for the ranks of five blocks, where its closure counts its calls.
fn calls_of(placement: &Placement, calls: &Cell<u32>) -> u32 {
    calls.set(0);
    for block in 0..5 {
        let _rank = placement.rank(9, block);
    }
    calls.get()
}

#[test]
fn rank_calls_its_closure(rt: HostRuntime) -> Result<(), Fail> {
    let alloc = rt.alloc();
    let turns = ZONE_TURNS;
    let calls = Rc::new(alloc, Cell::new(0u32))?;
    let (lows, nears) = (calls.clone()?, calls.clone()?);
    let (spreads, zones) = (calls.clone()?, calls.clone()?);
    let low = Box::new(
        alloc,
        move |hint: u32, block: u32| -> u64
            ensures { result ≡ rank_of Low hint block }
        {
            lows.set(lows.get().wrapping_add(1));
            low_rank(hint, block)
        },
    )?;
    let near = Box::new(
        alloc,
        move |hint: u32, block: u32| -> u64
            ensures { result ≡ rank_of Near hint block }
        {
            nears.set(nears.get().wrapping_add(1));
            near_rank(hint, block)
        },
    )?;
    let spread = Box::new(
        alloc,
        move |hint: u32, block: u32| -> u64
            ensures { result ≡ rank_of Spread hint block }
        {
            spreads.set(spreads.get().wrapping_add(1));
            spread_rank(hint, block)
        },
    )?;
    let zone = Box::new(
        alloc,
        move |hint: u32, block: u32| -> u64
            ensures { result ≡ 2 ^ 32 * slice_index turns (zones_after hint block) + block }
        {
            zones.set(zones.get().wrapping_add(1));
            zone_rank(&turns, hint, block)
        },
    )?;
    let low = Placement::new(PlaceKind::Low, low);
    let near = Placement::new(PlaceKind::Near, near);
    let spread = Placement::new(PlaceKind::Spread, spread);
    let zone = Placement::new(PlaceKind::Zone, zone);
    for placement in [&low, &near, &spread, &zone] {
        assert_eq!(rt; calls_of(placement, &calls), 5, "{:?}", placement.kind());
    }
    Ok(())
}
