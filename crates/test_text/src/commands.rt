//! The words of each command.

use fs_trees::ShellKind;
use std::alloc::Global;
use std::test::Fail;
use tsd_model::{Cap, CapPair, Geometry, PlaceKind};
use tsd_words::{Command, CopyFs, Format, Fresh, Load, TreeRoot, command};

/// Words, and the command that they spell. R and W stand for 32 digits `a` and `b`, Z for 64 digits `0`.
const SPELLED: [(&str, Command); 13] = [
    (
        "fresh 8 1 R W near",
        Command::Fresh(Fresh {
            geometry: Geometry {
                sectors: 1,
                blocks: 8,
                primaries: 1,
                slots: 32,
            },
            caps: CapPair {
                read: Cap { bytes: [0xaa; 16] },
                write: Cap { bytes: [0xbb; 16] },
            },
            kind: PlaceKind::Near,
        }),
    ),
    (
        "format 64 1 256 2 Z",
        Command::Format(Format {
            geometry: Geometry {
                sectors: 1,
                blocks: 64,
                primaries: 2,
                slots: 256,
            },
            seed: [0; 32],
        }),
    ),
    ("run low", Command::Run(PlaceKind::Low)),
    ("run zone", Command::Run(PlaceKind::Zone)),
    ("serve spread", Command::Serve(PlaceKind::Spread)),
    ("group near", Command::Group(PlaceKind::Near)),
    ("check", Command::Check),
    (
        "load Z 200000 zone",
        Command::Load(Load {
            seed: [0; 32],
            count: 200_000,
            kind: PlaceKind::Zone,
        }),
    ),
    ("upgrade", Command::Upgrade),
    ("audit", Command::Audit),
    ("verify", Command::Verify),
    ("info", Command::Info),
    (
        "copyfs inode 0 R chain 4294967295 W low",
        Command::CopyFs(CopyFs {
            from: TreeRoot {
                layout: ShellKind::Inode,
                root: 0,
                cap: Cap { bytes: [0xaa; 16] },
            },
            into: TreeRoot {
                layout: ShellKind::Chain,
                root: 4_294_967_295,
                cap: Cap { bytes: [0xbb; 16] },
            },
            kind: PlaceKind::Low,
        }),
    ),
];

/// The words of a text.
fn words(alloc: Global, text: &str) -> Result<Vec<String>, Fail> {
    let mut words = Vec::new(alloc);
    for word in text.split(' ') {
        let word = match word {
            "R" => "aaaaaaaaaaaaaaaaaaaaaaaaaaaaaaaa",
            "W" => "bbbbbbbbbbbbbbbbbbbbbbbbbbbbbbbb",
            "Z" => "0000000000000000000000000000000000000000000000000000000000000000",
            other => other,
        };
        words.push(String::from_str(alloc, word)?)?;
    }
    Ok(words)
}

#[test]
fn words_of_commands(rt: HostRuntime) -> Result<(), Fail> {
    let alloc = rt.alloc();
    for (text, want) in SPELLED {
        assert_eq!(rt; command(&words(alloc, text)?), Some(want), "{text}");
    }
    for text in [
        "run far",
        "copyfs inode 0 R chain 1 W",
        "copyfs inode 0 R chain 4294967296 W low",
    ] {
        assert_eq!(rt; command(&words(alloc, text)?), None, "{text}");
    }
    Ok(())
}
