//! Files of chains that end beside the end of a cluster, and directories that grow, are emptied and are filled again.

use crate::lines::{ChainSite, answers, fresh, mounted_again};
use std::alloc::Global;
use std::process::Abort;

/// How many bytes a file has, how many come to it, and how many of 39 blocks are free before and then.
const APPENDS: [(u32, u32, u32, u32); 16] = [
    (0, 495, 38, 38),
    (0, 496, 38, 38),
    (0, 497, 38, 37),
    (0, 991, 38, 37),
    (0, 992, 38, 37),
    (0, 993, 38, 36),
    (495, 1, 38, 38),
    (495, 2, 38, 37),
    (496, 1, 38, 37),
    (496, 495, 38, 37),
    (496, 496, 38, 37),
    (496, 497, 38, 36),
    (497, 494, 37, 37),
    (497, 495, 37, 37),
    (497, 496, 37, 36),
    (992, 1, 37, 36),
];

/// Puts a file of so many bytes in place of the one before, and so many more behind them.
fn grows(rt: &impl Abort, alloc: Global, site: &mut ChainSite, row: (u32, u32, u32, u32)) {
    let (old, more, before, then) = row;
    let first = if old == 0 {
        String::from_str(alloc, "-")
    } else {
        format!(in alloc; "11*{old}")
    };
    let first = first.expect(rt, "ample memory");
    let put = format!(in alloc; "put /a {}", first.as_str()).expect(rt, "ample memory");
    let append = format!(in alloc; "append /a 22*{more}").expect(rt, "ample memory");
    let all = if old == 0 {
        format!(in alloc; "data 22*{more}")
    } else {
        format!(in alloc; "data 11*{old},22*{more}")
    };
    let all = all.expect(rt, "ample memory");
    answers(rt, alloc, site, put.as_str(), "ok");
    let free = format!(in alloc; "free {before}").expect(rt, "ample memory");
    answers(rt, alloc, site, "df", free.as_str());
    answers(rt, alloc, site, append.as_str(), "ok");
    let free = format!(in alloc; "free {then}").expect(rt, "ample memory");
    answers(rt, alloc, site, "df", free.as_str());
    answers(rt, alloc, site, "cat /a", all.as_str());
}

#[test]
fn appends_end_beside_the_end_of_a_cluster(rt: HostRuntime) {
    let mut site: ChainSite = fresh(&rt, rt.alloc(), (1, 40, 50));
    answers(&rt, rt.alloc(), &mut site, "mkfs", "ok");
    for row in APPENDS {
        grows(&rt, rt.alloc(), &mut site, row);
    }
}

/// The word of an ask and what it has behind its path, the names of which it is asked, and how many blocks are free
/// then.
const STEPS: [(&str, &str, &[u8], u32); 8] = [
    ("put", " -", b"abcdefghijklmno", 24),
    ("put", " -", b"p", 22),
    ("put", " -", b"ABCDEFGHIJKLMN", 8),
    ("put", " -", b"O", 6),
    ("rm", "", b"pABCDEFGHIJKLMN", 21),
    ("put", " -", b"qrs", 18),
    ("rm", "", b"abcdefghijklmnoqrsO", 37),
    ("put", " -", b"ABCDEFGHIJKLMNOPQRSTUVWXYZabcde", 6),
];

/// Asks that of each of these names.
fn asks_each(
    rt: &impl Abort,
    alloc: Global,
    site: &mut ChainSite,
    word: &str,
    rest: &str,
    names: &[u8],
) {
    for name in names {
        let name = char::from(*name);
        let line = format!(in alloc; "{word} /{name}{rest}").expect(rt, "ample memory");
        answers(rt, alloc, site, line.as_str(), "ok");
    }
}

/// Each of these steps; the disk is mounted anew after each.
#[test]
fn a_directory_is_emptied_and_filled_again(rt: HostRuntime) {
    let alloc = rt.alloc();
    let mut site: ChainSite = fresh(&rt, alloc, (1, 40, 50));
    answers(&rt, alloc, &mut site, "mkfs", "ok");
    for (word, rest, names, unused) in STEPS {
        asks_each(&rt, alloc, &mut site, word, rest, names);
        let free = format!(in alloc; "free {unused}").expect(&rt, "ample memory");
        answers(&rt, alloc, &mut site, "df", free.as_str());
        site = mounted_again(&rt, alloc, site);
    }
}

/// Fifteen files without bytes fill a cluster of the directory. Blocks and slots, another put, perhaps in place of one
/// of them, and its answer.
const SIXTEENTH: [(u32, u32, &str, &str); 8] = [
    (17, 40, "put /p -", "no full 1 2"),
    (18, 40, "put /p -", "ok"),
    (40, 16, "put /p -", "no pointers-full 15 16"),
    (40, 17, "put /p -", "ok"),
    (16, 40, "put /a 01", "no full 0 1"),
    (17, 40, "put /a 01", "ok"),
    (17, 40, "put /a 01*497", "no full 1 2"),
    (40, 16, "put /a 01*497", "no pointers-full 15 16"),
];

#[test]
fn a_directory_grows_where_there_is_room(rt: HostRuntime) {
    let alloc = rt.alloc();
    for (blocks, slots, line, wanted) in SIXTEENTH {
        let mut site: ChainSite = fresh(&rt, alloc, (1, blocks, slots));
        answers(&rt, alloc, &mut site, "mkfs", "ok");
        asks_each(&rt, alloc, &mut site, "put", " -", b"abcdefghijklmno");
        answers(&rt, alloc, &mut site, line, wanted);
    }
}
