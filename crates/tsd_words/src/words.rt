//! The words of a command.

ghost use Rattle.std.specs.Prelude.{◌≡◌, ◌≤◌, map, string_bytes, IfSome};
ghost use Rattle.tsd_model.specs.Geometry.{IsLawful};
ghost use Rattle.tsd_words.specs.Words.{IsInLimits, alone_of, command_of, copied_of, copy_of, format_of, fresh_of};
ghost use Rattle.tsd_words.specs.Words.{geometry_of, is_size, is_table, kind_of, layout_of, load_of, loaded_of};
ghost use Rattle.tsd_words.specs.Words.{made_of};
ghost use Rattle.tsd_words.specs.Words.{root_of, seed_of, served_of, shell_of, shelled_of, size_of};

use crate::commands::{
    Command, CopyFs, Format, Fresh, LOAD_MAX, Load, SEED_BYTES, Shell, TreeRoot,
};
use fs_trees::ShellKind;
use hex::FromHex;
use script_text::fields::{parse_cap, parse_number};
use tsd_model::geometry::{MAX_BLOCKS, MAX_PRIMARIES, MAX_SLOTS, MIN_BLOCKS};
use tsd_model::{CapPair, Geometry, PlaceKind};

/// The command that the words spell, without the image's name before them; none where they spell none.
pub fn command(words: &Vec<String>) -> Option<Command>
    /// promise (with limits): The command that the words spell, exactly by the definition.
    ensures value { result ≡ command_of (map string_bytes words.now.items) }
    ensures limits { IfSome result IsInLimits }
{
    match words.as_slice() {
        [name] => alone(bytes(name)),
        [name, placement] => served(bytes(name), bytes(placement)),
        [name, seed, count, placement] => loaded(
            bytes(name),
            bytes(seed),
            bytes(count),
            bytes(placement),
        ),
        [name, layout, root, cap, placement] => {
            shelled(
                bytes(name),
                bytes(layout),
                bytes(root),
                bytes(cap),
                bytes(placement),
            )
        }
        [name, first, second, third, fourth, fifth] => made(
            bytes(name),
            bytes(first),
            bytes(second),
            bytes(third),
            bytes(fourth),
            bytes(fifth),
        ),
        [
            name,
            layout,
            root,
            cap,
            to_layout,
            to_root,
            to_cap,
            placement,
        ] => copied(
            bytes(name),
            bytes(layout),
            bytes(root),
            bytes(cap),
            bytes(to_layout),
            bytes(to_root),
            bytes(to_cap),
            bytes(placement),
        ),
        _ => None,
    }
}

/// The bytes of a word.
fn bytes(word: &String) -> &[u8]
    ensures { result.now ≡ string_bytes word.now }
{
    word.as_str().as_bytes()
}

/// `check`, `info`, `upgrade`, `audit` and `verify`.
#[tactic(auto, unfolding(crate::specs::Words::alone_of))]
fn alone(name: &[u8]) -> Option<Command>
    ensures value { result ≡ alone_of name.now }
    ensures limits { IfSome result IsInLimits }
{
    if name == b"check".as_slice() {
        Some(Command::Check)
    } else if name == b"info".as_slice() {
        Some(Command::Info)
    } else if name == b"upgrade".as_slice() {
        Some(Command::Upgrade)
    } else if name == b"audit".as_slice() {
        Some(Command::Audit)
    } else if name == b"verify".as_slice() {
        Some(Command::Verify)
    } else {
        None
    }
}

/// `run PLACE`, `serve PLACE` and `group PLACE`.
#[tactic(auto, unfolding(crate::specs::Words::served_of))]
fn served(name: &[u8], placement: &[u8]) -> Option<Command>
    ensures value { result ≡ served_of name.now placement.now }
    ensures limits { IfSome result IsInLimits }
{
    if name == b"run".as_slice() {
        Some(Command::Run(kind(placement)?))
    } else if name == b"serve".as_slice() {
        Some(Command::Serve(kind(placement)?))
    } else if name == b"group".as_slice() {
        Some(Command::Group(kind(placement)?))
    } else {
        None
    }
}

/// `load SEED COUNT PLACE`.
#[tactic(auto, unfolding(crate::specs::Words::loaded_of))]
fn loaded(name: &[u8], seed: &[u8], count: &[u8], placement: &[u8]) -> Option<Command>
    ensures value { result ≡ loaded_of name.now seed.now count.now placement.now }
    ensures limits { IfSome result IsInLimits }
{
    if name == b"load".as_slice() {
        Some(Command::Load(load(seed, count, placement)?))
    } else {
        None
    }
}

/// `shell KIND ROOT CAP PLACE` and `files KIND ROOT CAP PLACE`.
#[tactic(auto, unfolding(crate::specs::Words::shelled_of))]
fn shelled(name: &[u8], layout: &[u8], root: &[u8], cap: &[u8], placement: &[u8]) -> Option<Command>
    ensures value { result ≡ shelled_of name.now layout.now root.now cap.now placement.now }
    ensures limits { IfSome result IsInLimits }
{
    if name == b"shell".as_slice() {
        Some(Command::Shell(shell(layout, root, cap, placement)?))
    } else if name == b"files".as_slice() {
        Some(Command::Files(shell(layout, root, cap, placement)?))
    } else {
        None
    }
}

/// `fresh BLOCKS SECTORS READCAP WRITECAP PLACE` and `format BLOCKS SECTORS SLOTS PRIMARIES SEED`.
#[tactic(auto, unfolding(crate::specs::Words::made_of))]
fn made(
    name: &[u8],
    first: &[u8],
    second: &[u8],
    third: &[u8],
    fourth: &[u8],
    fifth: &[u8],
) -> Option<Command>
    ensures value { result ≡ made_of name.now first.now second.now third.now fourth.now fifth.now }
    ensures limits { IfSome result IsInLimits }
{
    if name == b"fresh".as_slice() {
        Some(Command::Fresh(fresh(first, second, third, fourth, fifth)?))
    } else if name == b"format".as_slice() {
        Some(Command::Format(format(first, second, third, fourth, fifth)?))
    } else {
        None
    }
}

/// `copyfs KIND ROOT CAP KIND ROOT CAP PLACE`.
#[tactic(auto, unfolding(crate::specs::Words::copied_of))]
fn copied(
    name: &[u8],
    layout: &[u8],
    root: &[u8],
    cap: &[u8],
    to_layout: &[u8],
    to_root: &[u8],
    to_cap: &[u8],
    placement: &[u8],
) -> Option<Command>
    ensures value { result ≡ copied_of name.now layout.now root.now cap.now to_layout.now to_root.now to_cap.now
        placement.now }
    ensures limits { IfSome result IsInLimits }
{
    if name == b"copyfs".as_slice() {
        Some(Command::CopyFs(copy(layout, root, cap, to_layout, to_root, to_cap, placement)?))
    } else {
        None
    }
}

/// What follows `load`.
#[tactic(auto, unfolding(crate::specs::Words::load_of))]
fn load(seed: &[u8], count: &[u8], placement: &[u8]) -> Option<Load>
    ensures value { result ≡ load_of seed.now count.now placement.now }
    ensures limits { IfSome result (λ l. (1 ≤ l.count) × (l.count ≤ 200000)) }
{
    let seed = parse_seed(seed)?;
    let count = parse_number(count)?;
    let kind = kind(placement)?;
    if 1 <= count && count <= LOAD_MAX {
        Some(Load { seed, count, kind })
    } else {
        None
    }
}

/// What follows `shell` and `files`.
#[tactic(auto, unfolding(crate::specs::Words::shell_of))]
fn shell(layout: &[u8], root: &[u8], cap: &[u8], placement: &[u8]) -> Option<Shell>
    ensures { result ≡ shell_of layout.now root.now cap.now placement.now }
{
    let layout = parse_layout(layout)?;
    let root = parse_number(root)?;
    let cap = parse_cap(cap)?;
    let kind = kind(placement)?;
    Some(Shell {
        layout,
        root,
        cap,
        kind,
    })
}

/// What follows `copyfs`.
#[tactic(auto, unfolding(crate::specs::Words::copy_of))]
fn copy(
    layout: &[u8],
    root: &[u8],
    cap: &[u8],
    to_layout: &[u8],
    to_root: &[u8],
    to_cap: &[u8],
    placement: &[u8],
) -> Option<CopyFs>
    ensures { result ≡ copy_of layout.now root.now cap.now to_layout.now to_root.now to_cap.now placement.now }
{
    let from = parse_root(layout, root, cap)?;
    let into = parse_root(to_layout, to_root, to_cap)?;
    let kind = kind(placement)?;
    Some(CopyFs { from, into, kind })
}

/// A tree, by its layout, its block and a capability.
#[tactic(auto, unfolding(crate::specs::Words::root_of))]
fn parse_root(layout: &[u8], root: &[u8], cap: &[u8]) -> Option<TreeRoot>
    ensures { result ≡ root_of layout.now root.now cap.now }
{
    let layout = parse_layout(layout)?;
    let root = parse_number(root)?;
    let cap = parse_cap(cap)?;
    Some(TreeRoot { layout, root, cap })
}

/// What follows `fresh`.
#[tactic(auto, unfolding(crate::specs::Words::fresh_of))]
fn fresh(
    blocks: &[u8],
    sectors: &[u8],
    read: &[u8],
    write: &[u8],
    placement: &[u8],
) -> Option<Fresh>
    ensures value { result ≡ fresh_of blocks.now sectors.now read.now write.now placement.now }
    ensures lawful { IfSome result (λ c. IsLawful c.geometry) }
    ensures single { IfSome result (λ c. c.geometry.primaries ≡ 1) }
{
    let geometry = size(blocks, sectors)?;
    let read = parse_cap(read)?;
    let write = parse_cap(write)?;
    let kind = kind(placement)?;
    Some(Fresh {
        geometry,
        caps: CapPair { read, write },
        kind,
    })
}

/// What follows `format`.
#[tactic(auto, unfolding(crate::specs::Words::format_of))]
fn format(
    blocks: &[u8],
    sectors: &[u8],
    slots: &[u8],
    primaries: &[u8],
    seed: &[u8],
) -> Option<Format>
    ensures value { result ≡ format_of blocks.now sectors.now slots.now primaries.now seed.now }
    ensures lawful { IfSome result (λ c. IsLawful c.geometry) }
{
    let geometry = geometry(blocks, sectors, slots, primaries)?;
    let seed = parse_seed(seed)?;
    Some(Format { geometry, seed })
}

/// The size of a disk with one primary block and four pointer slots for each block.
#[tactic(auto, unfolding(crate::specs::Words::size_of))]
fn size(blocks: &[u8], sectors: &[u8]) -> Option<Geometry>
    ensures value { result ≡ size_of blocks.now sectors.now }
    ensures lawful { IfSome result (λ g. IsLawful g) }
    ensures single { IfSome result (λ g. g.primaries ≡ 1) }
{
    let blocks = parse_number(blocks)?;
    let sectors = parse_number(sectors)?;
    if !is_size(blocks, sectors) {
        return None;
    }
    Some(Geometry {
        sectors,
        blocks,
        primaries: 1,
        slots: 4 * blocks,
    })
}

/// The size of a disk whose numbers of slots and of primary blocks are said.
#[tactic(auto, unfolding(crate::specs::Words::geometry_of))]
fn geometry(blocks: &[u8], sectors: &[u8], slots: &[u8], primaries: &[u8]) -> Option<Geometry>
    ensures value { result ≡ geometry_of blocks.now sectors.now slots.now primaries.now }
    ensures lawful { IfSome result (λ g. IsLawful g) }
{
    let size = size(blocks, sectors)?;
    let slots = parse_number(slots)?;
    let primaries = parse_number(primaries)?;
    if !is_table(size.blocks, slots, primaries) {
        return None;
    }
    Some(Geometry {
        sectors: size.sectors,
        blocks: size.blocks,
        primaries,
        slots,
    })
}

/// Whether a disk may have so many blocks of so many sectors.
fn is_size(blocks: u32, sectors: u32) -> bool
    ensures { result ≡ is_size blocks sectors }
{
    let is_count = MIN_BLOCKS <= blocks && blocks <= MAX_BLOCKS;
    is_count && (sectors == 1 || sectors == 2 || sectors == 4 || sectors == 8)
}

/// Whether a disk of so many blocks may have so many pointer slots and primary blocks.
fn is_table(blocks: u32, slots: u32, primaries: u32) -> bool
    ensures { result ≡ is_table blocks slots primaries }
{
    let is_count = 1 <= slots && slots <= MAX_SLOTS;
    is_count && (1 <= primaries && primaries <= MAX_PRIMARIES && primaries < blocks)
}

/// The placement of a name.
#[tactic(auto, unfolding(crate::specs::Words::kind_of))]
fn kind(placement: &[u8]) -> Option<PlaceKind>
    ensures { result ≡ kind_of placement.now }
{
    if placement == b"low".as_slice() {
        Some(PlaceKind::Low)
    } else if placement == b"near".as_slice() {
        Some(PlaceKind::Near)
    } else if placement == b"spread".as_slice() {
        Some(PlaceKind::Spread)
    } else if placement == b"zone".as_slice() {
        Some(PlaceKind::Zone)
    } else {
        None
    }
}

/// The layout of a name.
#[tactic(auto, unfolding(crate::specs::Words::layout_of))]
fn parse_layout(name: &[u8]) -> Option<ShellKind>
    ensures { result ≡ layout_of name.now }
{
    if name == b"inode".as_slice() {
        Some(ShellKind::Inode)
    } else if name == b"chain".as_slice() {
        Some(ShellKind::Chain)
    } else {
        None
    }
}

/// A seed: 64 hexadecimal digits.
fn parse_seed(word: &[u8]) -> Option<[u8; SEED_BYTES]>
    ensures { result ≡ seed_of word.now }
{
    match <[u8; SEED_BYTES] as FromHex>::from_hex(word) {
        Ok(bytes) => Some(bytes),
        Err(_) => None,
    }
}
