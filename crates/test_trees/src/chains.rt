//! Worked asks, each with its answer, on fresh disks of blocks of 512 bytes. A cluster there has room for 496 bytes, or
//! 15 entries.

use crate::lines::{ChainSite, fresh, path_of, run, run_and_mount};
use chain_fs::ChainFs;
use fs_trees::FsRefusal;
use std::alloc::Global;
use std::process::Abort;

/// Files are made, read, listed and replaced.
const FILES: [(&str, &str); 19] = [
    ("ls /", "no not-this-fs"),
    ("put /a 00", "no not-this-fs"),
    ("mkfs", "ok"),
    ("df", "free 15"),
    ("ls /", "names -"),
    ("put /b -", "ok"),
    ("put /a 11*496,22", "ok"),
    ("ls /", "names a b"),
    ("cat /a", "data 11*496,22"),
    ("cat /b", "data -"),
    ("df", "free 12"),
    ("put /a 010203", "ok"),
    ("cat /a", "data 010203"),
    ("df", "free 13"),
    ("append /b 11*496,22*496", "ok"),
    ("append /b 33", "ok"),
    ("append /b -", "ok"),
    ("cat /b", "data 11*496,22*496,33"),
    ("df", "free 11"),
];

/// Once the disk was mounted again one is removed, and at last all.
const FILES_GO: [(&str, &str); 7] = [
    ("ls /", "names a b"),
    ("rm /b", "ok"),
    ("ls /", "names a"),
    ("df", "free 14"),
    ("mkfs", "ok"),
    ("df", "free 15"),
    ("ls /", "names -"),
];

/// Asserts all that on a fresh disk, where no tree is yet.
fn use_files(rt: &impl Abort, alloc: Global, site: &mut ChainSite) {
    assert_eq!(rt; site.mount(), Err(FsRefusal::NotThisFs));
    run(rt, alloc, site, FILES.as_slice());
    assert_eq!(rt; site.mount(), Ok(()));
    run(rt, alloc, site, FILES_GO.as_slice());
}

#[test]
fn files_of_a_directory(rt: HostRuntime) {
    let mut site: ChainSite = fresh(&rt, rt.alloc(), (1, 16, 32));
    use_files(&rt, rt.alloc(), &mut site);
}

/// Refusals, each where the ones before it don't apply.
const REFUSALS: [(&str, &str); 28] = [
    ("mkfs", "ok"),
    ("put / 00", "no is-dir"),
    ("append / 00", "no is-dir"),
    ("cat /", "no is-dir"),
    ("rm /", "no is-dir"),
    ("cat /a", "no no-entry"),
    ("append /a 00", "no no-entry"),
    ("rm /a", "no no-entry"),
    ("ls /a", "no no-entry"),
    ("put /a/b 00", "no no-entry"),
    ("put /a 00", "ok"),
    ("ls /a", "no not-dir"),
    ("put /a/b 00", "no not-dir"),
    ("rm /a/b", "no not-dir"),
    ("put /b 11*1489", "no pointers-full 1 4"),
    ("put /b 11*2976", "no pointers-full 1 4"),
    ("put /b 11*2977", "no full 6 7"),
    ("put /b 11*496,22*496,33*496", "ok"),
    ("append /b 44", "no pointers-full 4 4"),
    ("put /b 44", "no pointers-full 4 4"),
    ("append /b -", "ok"),
    ("cat /b", "data 11*496,22*496,33*496"),
    ("rm /a", "ok"),
    ("append /b 44*496", "ok"),
    ("cat /b", "data 11*496,22*496,33*496,44*496"),
    ("df", "free 3"),
    ("mkdir /d", "no bad-request"),
    ("cp /b /c", "no bad-request"),
];

/// What is there still when all that was refused.
const REFUSED: [(&str, &str); 2] = [("ls /", "names b"), ("df", "free 3")];

/// Asserts all that on a fresh disk, and that there are no directories.
fn refuse(rt: &impl Abort, alloc: Global, site: &mut ChainSite) {
    run(rt, alloc, site, REFUSALS.as_slice());
    let answered = site.make_dir(&path_of(rt, b"/d"));
    assert_eq!(rt; answered, Err(FsRefusal::NotThisFs));
    run(rt, alloc, site, REFUSED.as_slice());
}

#[test]
fn refusals(rt: HostRuntime) {
    let mut site: ChainSite = fresh(&rt, rt.alloc(), (1, 8, 4));
    refuse(&rt, rt.alloc(), &mut site);
}

/// A file of 30 clusters is made by four appends.
const LONG: [(&str, &str); 8] = [
    ("mkfs", "ok"),
    ("put /b -", "ok"),
    (
        "append /b 01*600,02*600,03*600,04*600,05*600,06*600,07*496",
        "ok",
    ),
    (
        "append /b 08*600,09*600,0a*600,0b*600,0c*600,0d*600,0e*496",
        "ok",
    ),
    (
        "append /b 0f*600,10*600,11*600,12*600,13*600,14*600,15*496",
        "ok",
    ),
    ("append /b 16*600,17*600,18*600,19*600,1a*192", "ok"),
    (
        "cat /b",
        "data 01*600,02*600,03*600,04*600,05*600,06*600,07*496,08*600,09*600,0a*600,0b*600,0c*600,0d*600,0e*496,\
            0f*600,10*600,11*600,12*600,13*600,14*600,15*496,16*600,17*600,18*600,19*600,1a*192",
    ),
    ("df", "free 33"),
];

/// At last it's removed.
const LONG_GOES: [(&str, &str); 2] = [("rm /b", "ok"), ("df", "free 63")];

/// Makes the long file, mounts, and asserts that it's whole and goes.
fn make_long(rt: &impl Abort, alloc: Global, site: &mut ChainSite) {
    run(rt, alloc, site, LONG.as_slice());
    assert_eq!(rt; site.mount(), Ok(()));
    assert_eq!(rt; site.size(&path_of(rt, b"/b")), Ok(14_880));
    run(rt, alloc, site, LONG_GOES.as_slice());
}

#[test]
fn a_long_file(rt: HostRuntime) {
    let mut site: ChainSite = fresh(&rt, rt.alloc(), (1, 64, 64));
    make_long(&rt, rt.alloc(), &mut site);
}

/// The directory grows by a cluster with the sixteenth name, keeps it, and uses the first place again.
const WIDE: [(&str, &str); 25] = [
    ("mkfs", "ok"),
    ("put /d -", "ok"),
    ("put /o -", "ok"),
    ("put /n -", "ok"),
    ("put /m -", "ok"),
    ("put /l -", "ok"),
    ("put /k -", "ok"),
    ("put /j -", "ok"),
    ("put /i -", "ok"),
    ("put /h -", "ok"),
    ("put /g -", "ok"),
    ("put /f -", "ok"),
    ("put /e -", "ok"),
    ("put /c -", "ok"),
    ("put /b -", "ok"),
    ("put /p -", "ok"),
    ("df", "free 16"),
    ("put /a -", "ok"),
    ("df", "free 14"),
    ("ls /", "names a b c d e f g h i j k l m n o p"),
    ("rm /d", "ok"),
    ("put /q -", "ok"),
    ("df", "free 14"),
    ("rm /a", "ok"),
    ("df", "free 15"),
];

/// It's the same once it's mounted again.
const WIDE_AGAIN: [(&str, &str); 3] = [
    ("ls /", "names b c e f g h i j k l m n o p q"),
    ("put /a -", "ok"),
    ("df", "free 14"),
];

#[test]
fn a_wide_directory(rt: HostRuntime) {
    let size = (1, 32, 64);
    run_and_mount::<ChainFs>(
        &rt,
        rt.alloc(),
        size,
        WIDE.as_slice(),
        WIDE_AGAIN.as_slice(),
    );
}
