//! Worked asks, each with its answer.

use crate::lines::{
    InodeSite, answers, data_of, fresh, mounted_again, path_of, run, run_and_mount, run_fresh,
};
use fixtures_fs::answer_to;
use fs_port::{Blocks, Files};
use fs_trees::FsRefusal;
use inode_fs::InodeFs;
use std::alloc::Global;
use std::process::Abort;
use tsd_model::Data;

/// The example of the documents.
#[test]
fn docs_example(rt: HostRuntime) {
    let table = [
        ("mkfs", "ok"),
        ("put /a 6869", "ok"),
        ("cat /a", "data 6869"),
        ("mkdir /docs", "ok"),
        ("cp /a /docs/b", "ok"),
        ("ls /", "names a docs"),
        ("rm /docs", "no not-empty"),
        ("cat /docs", "no is-dir"),
        ("put /a/b -", "no not-dir"),
        ("df", "free 3"),
    ];
    run_fresh(&rt, rt.alloc(), (1, 8, 32), table.as_slice());
}

/// Eight blocks: too little room for a long file, a copy, and what stands afterwards.
#[test]
fn eight_blocks(rt: HostRuntime) {
    let table = [
        ("put /a 01", "no not-this-fs"),
        ("df", "free 7"),
        ("mkfs", "ok"),
        ("ls /", "names -"),
        ("put /a 01", "ok"),
        ("cat /a", "data 01"),
        ("put /a 02*4096", "no full 5 9"),
        ("cp /a /b", "ok"),
        ("df", "free 4"),
        ("mkdir /a", "no exists"),
        ("rm /a", "ok"),
        ("cat /b", "data 01"),
        ("ls /", "names b"),
        ("df", "free 5"),
        ("cat /a", "no no-entry"),
        ("ls /b", "no not-dir"),
    ];
    run_fresh(&rt, rt.alloc(), (1, 8, 32), table.as_slice());
}

/// A directory and a file of 20,480 bytes in blocks of eight sectors.
const LONG: [(&str, &str); 12] = [
    ("mkfs", "ok"),
    ("mkdir /docs", "ok"),
    ("put /docs/a -", "ok"),
    ("append /docs/a 61*2560", "ok"),
    ("append /docs/a 61*2560", "ok"),
    ("append /docs/a 61*2560", "ok"),
    ("append /docs/a 61*2560", "ok"),
    ("append /docs/a 61*2560", "ok"),
    ("append /docs/a 61*2560", "ok"),
    ("append /docs/a 61*2560", "ok"),
    ("append /docs/a 61*2560", "ok"),
    ("df", "free 56"),
];

/// The long file, and a short one in its place.
const SHORT: [(&str, &str); 4] = [
    ("cat /docs/a", "data 61*20480"),
    ("put /docs/a 6869", "ok"),
    ("cat /docs/a", "data 6869"),
    ("df", "free 60"),
];

/// Appends in blocks of eight sectors, mounted again before the long file is read and replaced.
#[test]
fn wide_blocks(rt: HostRuntime) {
    let size = (8, 64, 256);
    run_and_mount::<InodeFs>(&rt, rt.alloc(), size, LONG.as_slice(), SHORT.as_slice());
}

/// Puts a short file in place of the long one, and stops that behind so many requests; gives whether it was stopped.
fn put_short(rt: &impl Abort, alloc: Global, site: &mut InodeSite, left: u64) -> bool {
    run(rt, alloc, site, LONG.as_slice());
    site.disk.left = left;
    let answered = site.put(&path_of(rt, b"/docs/a"), &data_of(rt, alloc, "6869"));
    assert_eq!(rt; answered.is_ok(), !site.disk.is_spent());
    answered.is_err()
}

/// Asserts that the long file is there or the short one, and tells whether it is the short one.
fn is_short(rt: &impl Abort, alloc: Global, site: &mut InodeSite) -> bool {
    let is_short = site.size(&path_of(rt, b"/docs/a")) == Ok(2);
    let table = if is_short {
        [("cat /docs/a", "data 6869"), ("df", "free 60")]
    } else {
        [("cat /docs/a", "data 61*20480"), ("df", "free 56")]
    };
    run(rt, alloc, site, table.as_slice());
    is_short
}

/// A short file comes in place of the long one and is stopped behind so many requests; gives whether it was.
fn is_stopped(rt: &impl Abort, alloc: Global, left: u64) -> bool {
    let mut site: InodeSite = fresh(rt, alloc, (8, 64, 256));
    let is_stopped = put_short(rt, alloc, &mut site, left);
    let mut site = mounted_again(rt, alloc, site);
    let is_short = is_short(rt, alloc, &mut site);
    assert!(rt; is_short || is_stopped, "behind {left}");
    is_stopped
}

/// The old file or the new one, whole, wherever the change is stopped.
#[test]
fn wide_blocks_stopped(rt: HostRuntime) {
    let mut stopped: u32 = 0;
    for left in 0..40 {
        if !is_stopped(&rt, rt.alloc(), left) {
            break;
        }
        stopped = stopped.saturating_add(1);
    }
    assert!(rt; stopped > 5 && stopped < 40, "{stopped}");
}

/// Refusals, each where the ones before it don't apply.
#[test]
fn refusals(rt: HostRuntime) {
    let table = [
        ("df", "free 15"),
        ("cat /a", "no not-this-fs"),
        ("append /a 00", "no not-this-fs"),
        ("ls /", "no not-this-fs"),
        ("mkdir /a", "no not-this-fs"),
        ("rm /a", "no not-this-fs"),
        ("cp /a /b", "no not-this-fs"),
        ("mkfs", "ok"),
        ("cat /a", "no no-entry"),
        ("append /a 00", "no no-entry"),
        ("append / 00", "no is-dir"),
        ("put / 00", "no is-dir"),
        ("cat /", "no is-dir"),
        ("cp / /b", "no is-dir"),
        ("mkdir /", "no exists"),
        ("rm /", "no is-dir"),
        ("rm /a", "no no-entry"),
        ("rm /a/b", "no no-entry"),
        ("ls /a", "no no-entry"),
        ("mkdir /a/b", "no no-entry"),
        ("cp /a /b", "no no-entry"),
        ("mkdir /d", "ok"),
        ("mkdir /d", "no exists"),
        ("put /d -", "no is-dir"),
        ("append /d -", "no is-dir"),
        ("cp /d /e", "no is-dir"),
        ("put /d/a 01", "ok"),
        ("df", "free 12"),
        ("rm /d", "no not-empty"),
        ("ls /d/a", "no not-dir"),
        ("cat /d/a/b", "no not-dir"),
        ("cp /d/a /", "no exists"),
        ("cp /d/a /d/a", "no exists"),
        ("cp /d/a /d/a/b", "no not-dir"),
        ("cp /d/a /x/b", "no no-entry"),
        ("cp /x/b /d/a/b", "no no-entry"),
        ("cp /d/a/b /x/b", "no not-dir"),
        ("put /d/b 0102", "ok"),
        ("append /d/b 03", "no pointers-full 5 6"),
        ("cat /d/b", "data 0102"),
        ("cp /d/b /d/c", "no pointers-full 5 6"),
        ("append /d/b -", "ok"),
        ("put /d/b 07*513", "no pointers-full 5 6"),
        ("put /d/b -", "ok"),
        ("cat /d/b", "data -"),
        ("rm /d/a", "ok"),
        ("append /d/b 03", "ok"),
        ("cat /d/b", "data 03"),
        ("df", "free 12"),
        ("put /d/b 07*4096", "no pointers-full 3 6"),
        ("ls /d", "names b"),
        ("rm /d/b", "ok"),
        ("rm /d", "ok"),
        ("ls /", "names -"),
        ("df", "free 15"),
        ("mkfs -", "no bad-request"),
    ];
    run_fresh(&rt, rt.alloc(), (1, 16, 6), table.as_slice());
}

/// A disk of which each block is taken.
#[test]
fn full_disk(rt: HostRuntime) {
    let table = [
        ("mkfs", "ok"),
        ("put /a 01*1500", "ok"),
        ("df", "free 3"),
        ("append /a 02*600", "no full 3 4"),
        ("append /a 02*36", "ok"),
        ("cat /a", "data 01*1500,02*36"),
        ("append /a 02", "ok"),
        ("df", "free 2"),
        ("put /a 03*1025", "no full 2 4"),
        ("put /a 03*600", "no full 2 3"),
        ("put /a 03*512", "ok"),
        ("df", "free 5"),
        ("append /a 04*1024", "ok"),
        ("df", "free 3"),
        ("cp /a /b", "ok"),
        ("df", "free 2"),
        ("cp /b /c", "no pointers-full 8 11"),
        ("append /b 05", "no pointers-full 8 11"),
        ("append /b -", "ok"),
        ("mkdir /c", "ok"),
        ("mkdir /d", "ok"),
        ("df", "free 0"),
        ("mkdir /e", "no full 0 1"),
        ("cp /a /e", "no full 0 1"),
        ("put /a -", "no full 0 1"),
        ("append /a 06", "no full 0 2"),
        ("mkdir /e/a", "no no-entry"),
        ("mkdir /d", "no exists"),
        ("rm /a", "ok"),
        ("df", "free 1"),
        ("cat /b", "data 03*512,04*1024"),
        ("mkfs", "ok"),
        ("ls /", "names -"),
        ("df", "free 7"),
    ];
    run_fresh(&rt, rt.alloc(), (1, 8, 11), table.as_slice());
}

/// A directory takes fifteen entries, a new one only after another has gone; an old entry changes all the same.
#[test]
fn full_directory(rt: HostRuntime) {
    let table = [
        ("mkfs", "ok"),
        ("mkdir /d", "ok"),
        ("put /o -", "ok"),
        ("put /n -", "ok"),
        ("put /m -", "ok"),
        ("put /l -", "ok"),
        ("put /k -", "ok"),
        ("put /j -", "ok"),
        ("put /i -", "ok"),
        ("put /h -", "ok"),
        ("put /g -", "ok"),
        ("put /f -", "ok"),
        ("put /e -", "ok"),
        ("put /c -", "ok"),
        ("put /b -", "ok"),
        ("mkdir /p", "ok"),
        ("ls /", "names b c d e f g h i j k l m n o p"),
        ("df", "free 16"),
        ("put /a -", "no dir-full"),
        ("mkdir /a", "no dir-full"),
        ("cp /b /a", "no dir-full"),
        ("cp /a /q", "no no-entry"),
        ("cp /b /c", "no exists"),
        ("put /c 02", "ok"),
        ("append /c 03", "ok"),
        ("cat /c", "data 0203"),
        ("cp /c /d/a", "ok"),
        ("cat /d/a", "data 0203"),
        ("mkdir /p/a", "ok"),
        ("rm /p/a", "ok"),
        ("rm /p", "ok"),
        ("mkdir /a", "ok"),
        ("ls /", "names a b c d e f g h i j k l m n o"),
        ("df", "free 14"),
    ];
    let then = [("ls /", "names a b c d e f g h i j k l m n o")];
    let size = (1, 32, 64);
    run_and_mount::<InodeFs>(&rt, rt.alloc(), size, table.as_slice(), then.as_slice());
}

/// Sixteen names on the way to a file, which is the most that a path has.
#[test]
fn longest_path(rt: HostRuntime) {
    let table = [
        ("mkfs", "ok"),
        ("mkdir /a", "ok"),
        ("mkdir /a/b", "ok"),
        ("mkdir /a/b/c", "ok"),
        ("mkdir /a/b/c/d", "ok"),
        ("mkdir /a/b/c/d/e", "ok"),
        ("mkdir /a/b/c/d/e/f", "ok"),
        ("mkdir /a/b/c/d/e/f/g", "ok"),
        ("mkdir /a/b/c/d/e/f/g/h", "ok"),
        ("mkdir /a/b/c/d/e/f/g/h/i", "ok"),
        ("mkdir /a/b/c/d/e/f/g/h/i/j", "ok"),
        ("mkdir /a/b/c/d/e/f/g/h/i/j/k", "ok"),
        ("mkdir /a/b/c/d/e/f/g/h/i/j/k/l", "ok"),
        ("mkdir /a/b/c/d/e/f/g/h/i/j/k/l/m", "ok"),
        ("mkdir /a/b/c/d/e/f/g/h/i/j/k/l/m/n", "ok"),
        ("mkdir /a/b/c/d/e/f/g/h/i/j/k/l/m/n/o", "ok"),
        ("put /a/b/c/d/e/f/g/h/i/j/k/l/m/n/o/p 07", "ok"),
        ("append /a/b/c/d/e/f/g/h/i/j/k/l/m/n/o/p 08", "ok"),
        (
            "cp /a/b/c/d/e/f/g/h/i/j/k/l/m/n/o/p /a/b/c/d/e/f/g/h/i/j/k/l/m/n/o/q",
            "ok",
        ),
        ("mkdir /a/b/c/d/e/f/g/h/i/j/k/l/m/n/o/r", "ok"),
        ("ls /a/b/c/d/e/f/g/h/i/j/k/l/m/n/o", "names p q r"),
        ("ls /a/b/c/d/e/f/g/h/i/j/k/l/m/n/o/r", "names -"),
        ("cat /a/b/c/d/e/f/g/h/i/j/k/l/m/n/o/p/q", "no bad-request"),
        ("mkdir /a/b/c/d/e/f/g/h/i/j/k/l/m/n/o/r/s", "no bad-request"),
        ("df", "free 12"),
        ("rm /a/b/c/d/e/f/g/h/i/j/k/l/m/n/o/p", "ok"),
        ("rm /a/b/c/d/e/f/g/h/i/j/k/l/m/n/o", "no not-empty"),
    ];
    let then = [
        ("cat /a/b/c/d/e/f/g/h/i/j/k/l/m/n/o/q", "data 0708"),
        ("ls /a/b/c/d/e/f/g/h/i/j/k/l/m/n/o", "names q r"),
    ];
    let size = (1, 32, 64);
    run_and_mount::<InodeFs>(&rt, rt.alloc(), size, table.as_slice(), then.as_slice());
}

/// A copy shares its blocks; the two files change apart afterwards.
#[test]
fn copies_change_apart(rt: HostRuntime) {
    let table = [
        ("mkfs", "ok"),
        ("put /a 11*512,22*88", "ok"),
        ("df", "free 12"),
        ("cp /a /b", "ok"),
        ("df", "free 11"),
        ("append /b 33*500", "ok"),
        ("cat /a", "data 11*512,22*88"),
        ("cat /b", "data 11*512,22*88,33*500"),
        ("df", "free 9"),
        ("append /a 44", "ok"),
        ("cat /a", "data 11*512,22*88,44"),
        ("cat /b", "data 11*512,22*88,33*500"),
        ("df", "free 9"),
        ("put /a 55", "ok"),
        ("cat /b", "data 11*512,22*88,33*500"),
        ("df", "free 9"),
        ("cp /b /c", "ok"),
        ("rm /b", "ok"),
        ("cat /c", "data 11*512,22*88,33*500"),
        ("df", "free 9"),
        ("rm /c", "ok"),
        ("df", "free 13"),
        ("rm /a", "ok"),
        ("df", "free 15"),
    ];
    run_fresh(&rt, rt.alloc(), (1, 16, 64), table.as_slice());
}

/// The bytes 0 to 255, over and over, from one offset to another.
fn part(rt: &impl Abort, first: u32, last: u32) -> Data {
    let mut bytes = Data::new();
    for place in first..last {
        assert!(rt; bytes.push((place % 256) as u8).is_ok());
    }
    bytes
}

/// Asserts that a part of the file goes from the first offset to the last.
fn reads(rt: &impl Abort, site: &mut InodeSite, first: u32, last: u32) {
    let mut bytes = Data::new();
    let answered = site.read_part(&path_of(rt, b"/a"), first as u64, &mut bytes);
    assert_eq!(rt; answered, Ok(()));
    let wanted = part(rt, first, last);
    assert_eq!(rt; bytes.as_slice(), wanted.as_slice(), "{first} to {last}");
}

/// A file of 5,000 bytes.
fn make_parts(rt: &impl Abort, site: &mut InodeSite) {
    assert_eq!(rt; site.make(), Ok(()));
    let path = path_of(rt, b"/a");
    assert_eq!(rt; site.put(&path, &part(rt, 0, 4096)), Ok(()));
    assert_eq!(rt; site.append(&path, &part(rt, 4096, 5000)), Ok(()));
    assert_eq!(rt; site.size(&path), Ok(5000));
}

/// From where on it is read, and to where.
const PARTS: [(u32, u32); 11] = [
    (0, 4096),
    (1, 4097),
    (511, 4607),
    (512, 4608),
    (904, 5000),
    (905, 5000),
    (4096, 5000),
    (4999, 5000),
    (5000, 5000),
    (5001, 5001),
    (9000, 9000),
];

/// A part has at most 4,096 bytes.
#[test]
fn parts_of_a_file(rt: HostRuntime) {
    let mut site: InodeSite = fresh(&rt, rt.alloc(), (1, 32, 64));
    make_parts(&rt, &mut site);
    for (first, last) in PARTS {
        reads(&rt, &mut site, first, last);
    }
}

/// Asserts that a line, or mounting, fails on a disk that answers nothing more, and that the disk is spent then.
fn fails_on(rt: &impl Abort, alloc: Global, site: &mut InodeSite, line: &str) {
    assert!(rt; site.files.has_dirs());
    answers(rt, alloc, site, "mkfs", "ok");
    answers(rt, alloc, site, "put /a 01", "ok");
    site.disk.left = 0;
    let is_fault = if line == "mount" {
        site.mount() == Err(FsRefusal::Device)
    } else {
        matches!(answer_to(alloc, site, line), Err(FsRefusal::Device))
    };
    assert!(rt; is_fault, "{line}");
    assert!(rt; site.disk.is_spent(), "{line}");
    assert_eq!(rt; site.disk.faults, 1, "{line}");
}

/// The same on a fresh disk.
fn fails(rt: &impl Abort, alloc: Global, line: &str) {
    let mut site: InodeSite = fresh(rt, alloc, (1, 16, 32));
    fails_on(rt, alloc, &mut site, line);
}

/// A fault of the disk is told by each call, and then the disk is spent.
#[test]
fn faults(rt: HostRuntime) {
    fails(&rt, rt.alloc(), "mkfs");
    fails(&rt, rt.alloc(), "mount");
    fails(&rt, rt.alloc(), "put /b 01");
    fails(&rt, rt.alloc(), "append /a 01");
    fails(&rt, rt.alloc(), "mkdir /b");
    fails(&rt, rt.alloc(), "rm /a");
    fails(&rt, rt.alloc(), "cp /a /b");
    fails(&rt, rt.alloc(), "cat /a");
    fails(&rt, rt.alloc(), "ls /");
    fails(&rt, rt.alloc(), "df");
}
