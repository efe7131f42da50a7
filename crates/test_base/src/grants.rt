//! The table of grants: sessions that begin and end, and the levels that they hold.

use grant_table::{BeginRefusal, EndRefusal, Grants, Origins};
use std::test::Fail;
use tsd_model::Level;

#[test]
fn sessions_begin_and_end(rt: HostRuntime) -> Result<(), Fail> {
    let mut grants = Grants::new(rt.alloc(), 100, 3);
    assert_eq!(rt; grants.begin(0), Err(BeginRefusal::BadSession));
    assert_eq!(rt; grants.begin(65), Err(BeginRefusal::BadSession));
    assert_eq!(rt; grants.begin(64), Ok(()));
    assert_eq!(rt; grants.begin(64), Err(BeginRefusal::AlreadyOpen));
    let mut origins = Origins::bare();
    origins.raise(2, Level::Read);
    grants.raise(64, 99, &origins);
    assert_eq!(rt; grants.level_from(64, 99, 2), Level::Read);
    assert_eq!(rt; grants.level_from(64, 98, 2), Level::Bare);
    assert_eq!(rt; grants.level_from(64, 99, 1), Level::Bare);
    assert_eq!(rt; grants.level(64, 99), Level::Read);
    grants.drop_in_all(99);
    assert_eq!(rt; grants.level(64, 99), Level::Bare);
    assert_eq!(rt; grants.end(64), Ok(()));
    assert_eq!(rt; grants.end(64), Err(EndRefusal::NotOpen));
    assert_eq!(rt; grants.end(65), Err(EndRefusal::BadSession));
    Ok(())
}

#[test]
fn no_session_has_number_0(rt: HostRuntime) -> Result<(), Fail> {
    let mut grants = Grants::new(rt.alloc(), 100, 3);
    assert_eq!(rt; grants.begin(1), Ok(()));
    assert!(rt; !grants.is_begun(0));
    let mut origins = Origins::bare();
    origins.raise(2, Level::Read);
    grants.raise(0, 99, &origins);
    assert_eq!(rt; grants.level(0, 99), Level::Bare);
    assert_eq!(rt; grants.level_from(1, 99, 2), Level::Bare);
    assert_eq!(rt; grants.end(0), Err(EndRefusal::BadSession));
    assert!(rt; grants.is_begun(1));
    Ok(())
}
