//! What the abstract disk computes, at values from outside.

use std::test::Fail;
use tsd_model::levels::{greater, level_le};
use tsd_model::needs::{has_bad_count, has_bad_session, is_no_session};
use tsd_model::ranks::{hint_block, rank};
use tsd_model::records::{kept, kept_eq, record_level, upgraded_record};
use tsd_model::{
    BlockList, Cap, CapList, CapPair, Data, Geometry, Hint, KeptCap, Level, PlaceKind, Request,
    Shown, lawful,
};

fn cap(byte: u8) -> Cap {
    Cap { bytes: [byte; 16] }
}

#[test]
fn lists_hold_so_many_and_no_more(rt: HostRuntime) -> Result<(), Fail> {
    let mut bytes = Data::new();
    assert!(rt; bytes.is_empty());
    assert!(rt; bytes.extend_from_slice([7; 4095].as_slice()).is_ok());
    assert!(rt; bytes.extend_from_slice([7; 2].as_slice()).is_err());
    assert!(rt; bytes.push(8).is_ok());
    assert!(rt; bytes.push(9).is_err());
    assert_eq!(rt; bytes.len(), 4096);
    assert_eq!(rt; bytes.as_slice().last().copied(), Some(8));
    let mut blocks = BlockList::new();
    for block in 0..64 {
        assert!(rt; blocks.push(block).is_ok());
    }
    assert!(rt; blocks.push(64).is_err());
    blocks.push_wanted(64, true);
    assert_eq!(rt; blocks.len(), 64);
    let mut caps = CapList::new();
    for place in 0..16 {
        let pair = CapPair {
            read: cap(place),
            write: cap(place),
        };
        assert!(rt; caps.push(pair).is_ok());
    }
    assert!(rt; caps.push(CapPair::default()).is_err());
    assert_eq!(rt; caps.len(), 16);
    Ok(())
}

#[test]
fn geometries_have_bounds(rt: HostRuntime) -> Result<(), Fail> {
    let least = Geometry {
        sectors: 1,
        blocks: 8,
        primaries: 1,
        slots: 1,
    };
    let most = Geometry {
        sectors: 8,
        blocks: 1_048_576,
        primaries: 16,
        slots: 4_194_304,
    };
    let three_sectors = Geometry {
        sectors: 3,
        ..least
    };
    let too_few_blocks = Geometry { blocks: 7, ..least };
    let all_primary = Geometry {
        primaries: 8,
        ..least
    };
    let too_many_primaries = Geometry {
        primaries: 17,
        ..most
    };
    let too_many_slots = Geometry {
        slots: 4_194_305,
        ..most
    };
    assert!(rt; lawful(&least));
    assert!(rt; lawful(&most));
    assert!(rt; !lawful(&three_sectors));
    assert!(rt; !lawful(&too_few_blocks));
    assert!(rt; !lawful(&all_primary));
    assert!(rt; !lawful(&too_many_primaries));
    assert!(rt; !lawful(&too_many_slots));
    Ok(())
}

#[test]
fn levels_are_in_order(rt: HostRuntime) -> Result<(), Fail> {
    assert!(rt; level_le(Level::Bare, Level::Read));
    assert!(rt; level_le(Level::Read, Level::Write));
    assert!(rt; !level_le(Level::Write, Level::Read));
    assert_eq!(rt; greater(Level::Read, Level::Write), Level::Write);
    assert_eq!(rt; greater(Level::Read, Level::Bare), Level::Read);
    assert_eq!(rt; Level::default(), Level::Bare);
    assert_eq!(rt; Shown::default(), Shown::Nothing);
    Ok(())
}

#[test]
fn requests_tell_their_bounds(rt: HostRuntime) -> Result<(), Fail> {
    assert!(rt; is_no_session(0));
    assert!(rt; !is_no_session(1));
    assert!(rt; !is_no_session(64));
    assert!(rt; has_bad_session(&Request::Begin { session: 65 }));
    assert!(rt; !has_bad_session(&Request::GetFree));
    let take = |count: u32| Request::Alloc {
        session: 1,
        source: 0,
        shown: Shown::Nothing,
        hint: Hint::Null,
        count,
    };
    assert!(rt; has_bad_count(&take(0)));
    assert!(rt; !has_bad_count(&take(32)));
    assert!(rt; has_bad_count(&take(33)));
    Ok(())
}

#[test]
fn blocks_have_ranks(rt: HostRuntime) -> Result<(), Fail> {
    assert_eq!(rt; hint_block(&Hint::Null), 0);
    assert_eq!(rt; hint_block(&Hint::At(9)), 9);
    assert_eq!(rt; rank(PlaceKind::Low, 9, 4), 4);
    assert_eq!(rt; rank(PlaceKind::Near, 9, 4), 11);
    assert_eq!(rt; rank(PlaceKind::Near, 4, 9), 10);
    assert_eq!(rt; rank(PlaceKind::Spread, 9, 4), 4_294_967_291);
    assert_eq!(rt; rank(PlaceKind::Zone, 512, 256), 4_294_967_552);
    Ok(())
}

#[test]
fn version_2_keeps_digests_of_capabilities(rt: HostRuntime) -> Result<(), Fail> {
    let caps = CapPair {
        read: cap(0xaa),
        write: cap(0xbb),
    };
    let first = kept(1, &caps);
    let second = kept(2, &caps);
    assert_eq!(rt; first.read, KeptCap::Plain(cap(0xaa)));
    assert_eq!(rt; second, upgraded_record(&first));
    assert!(rt; !kept_eq(&first.read, &second.read));
    assert_eq!(rt; record_level(&second, &second.write), Level::Write);
    assert_eq!(rt; record_level(&second, &second.read), Level::Read);
    assert_eq!(rt; record_level(&second, &first.read), Level::Bare);
    Ok(())
}
