//! Groups of 256 blocks in a row: which block of one has the least rank, and in which order they are gone through; and
//! stretches of 16 groups, and regions of 16 stretches.

ghost use Rattle.std.specs.Prelude.{◌≡◌, ℕ, ◌+◌, ◌*◌, ◌^◌, ◌<◌, ◌≤◌};
ghost use Rattle.tsd_model.specs.Rank.{rank_of};
ghost use Rattle.block_alloc.specs.Groups.{is_within};

use tsd_model::PlaceKind;
use tsd_model::ranks::{ZONE_BLOCKS, ZONES, near_rank, spread_rank};

/// How many blocks a group has: those of one zone in a row.
pub(crate) const GROUP_BLOCKS: u32 = 256;

const _: () = prove!(GROUP_BLOCKS == ZONE_BLOCKS);

/// How many groups a stretch has: one of each zone.
pub(crate) const STRETCH_GROUPS: u32 = ZONES;

/// How many blocks a stretch has.
pub(crate) const STRETCH_BLOCKS: u32 = STRETCH_GROUPS * GROUP_BLOCKS;

/// How many stretches a region has.
pub(crate) const REGION_STRETCHES: u32 = 16;

/// How many blocks a region has.
pub(crate) const REGION_BLOCKS: u32 = REGION_STRETCHES * STRETCH_BLOCKS;

/// A rank that none of some blocks in a row is below, from a first one to a last one.
pub(crate) fn floor_of(kind: PlaceKind, hint: u32, first: u32, last: u32) -> u64
    requires { first ≤ last }
    ensures { (b : ℕ) → first ≤ b → b ≤ last → result ≤ rank_of kind hint b }
{
    match kind {
        PlaceKind::Low | PlaceKind::Zone => u64::from(first),
        PlaceKind::Near => near_rank(hint, hint.max(first).min(last)),
        PlaceKind::Spread => {
            if first < hint && hint <= last {
                0
            } else {
                spread_rank(hint, first)
            }
        }
    }
}

/// The block of a group that has the least rank, whether it is one of the disk or not.
pub(crate) fn best_of(kind: PlaceKind, hint: u32, group: u32) -> u32
    requires { group < 2 ^ 24 }
    ensures least { (b : ℕ) → 256 * group ≤ b → b < 256 * group + 256
        → rank_of kind hint result ≤ rank_of kind hint b }
{
    let first = GROUP_BLOCKS * group;
    let last = first + (GROUP_BLOCKS - 1);
    match kind {
        PlaceKind::Low | PlaceKind::Zone => first,
        PlaceKind::Near => hint.max(first).min(last),
        PlaceKind::Spread => {
            if first < hint && hint <= last {
                hint
            } else {
                first
            }
        }
    }
}

/// The block of a group from which on a ceiling is guessed: its first one, but for `Near` and `Spread` the hint where
/// it is in the group. For `Spread` those below the hint have the greatest ranks of all.
pub(crate) fn start_of(kind: PlaceKind, hint: u32, group: u32) -> u32
    requires { group < 2 ^ 24 }
{
    match kind {
        PlaceKind::Near | PlaceKind::Spread if hint / GROUP_BLOCKS == group => hint,
        _ => GROUP_BLOCKS * group,
    }
}

/// Whether a rank is at most a ceiling, where there is one.
pub(crate) fn is_within(ceiling: Option<u64>, rank: u64) -> bool
    ensures { result ≡ is_within ceiling rank }
{
    match ceiling {
        Some(ceiling) => rank <= ceiling,
        None => true,
    }
}

/// The number of turns in which all groups are gone through. In some of them there is no group.
pub(crate) fn turns(kind: PlaceKind, groups: u32) -> u32
    requires { groups < 2 ^ 24 }
    ensures { result < 2 ^ 26 }
{
    match kind {
        PlaceKind::Low | PlaceKind::Spread => groups,
        PlaceKind::Near => 2 * groups,
        PlaceKind::Zone => ZONES * zone_groups(groups),
    }
}

/// The group of a turn, so that those of least rank come first: a guess, so a wrong order costs time alone. It may be
/// past the last group.
pub(crate) fn group_at(kind: PlaceKind, hint: u32, groups: u32, turn: u32) -> u32
    requires groups { groups < 2 ^ 24 }
    requires turn { turn < 2 ^ 26 }
{
    let middle = (hint / GROUP_BLOCKS).min(groups);
    match kind {
        PlaceKind::Low => turn,
        PlaceKind::Near if turn % 2 == 0 => middle + turn / 2,
        PlaceKind::Near => middle.wrapping_sub(turn / 2 + 1),
        PlaceKind::Spread if middle + turn < groups => middle + turn,
        PlaceKind::Spread => (middle + turn).saturating_sub(groups),
        PlaceKind::Zone => zone_group_at(hint, zone_groups(groups), turn),
    }
}

/// How many groups a zone has at most.
fn zone_groups(groups: u32) -> u32
    requires { groups < 2 ^ 24 }
    ensures some { 1 ≤ result }
    ensures few { result < 2 ^ 21 }
{
    groups / ZONES + 1
}

/// The group of a turn where those of one zone come after those of another.
fn zone_group_at(hint: u32, each: u32, turn: u32) -> u32
    requires some { 1 ≤ each }
    requires turn { turn < 2 ^ 26 }
{
    let zone_turn = turn / each;
    let after = if zone_turn % 2 == 0 {
        zone_turn / 2
    } else {
        ZONES.saturating_sub(zone_turn / 2 + 1)
    };
    let zone = (hint / GROUP_BLOCKS + after) % ZONES;
    ZONES * (turn % each) + zone
}
