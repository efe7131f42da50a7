//! The three ways in which pairs are grouped.

ghost use Rattle.std.specs.Prelude.{◌≡◌, ◌<◌};
ghost use Rattle.pointer_table.specs.Threads.{rank, folded, mixed, group};

/// What the pairs of one group have in common.
#[derive(Clone, Copy, Debug, PartialEq, Eq)]
pub(crate) enum Way {
    /// Their source.
    Source,

    /// Their target.
    Target,

    /// The bucket that a mix of both numbers sends them to.
    Bucket,
}

/// A fixed odd number, by which the numbers of a pair are mixed: 2^64 over the golden ratio.
const ODD: u64 = 11_400_714_819_323_198_485;

/// The position of a pair among all pairs, by source and then by target.
pub(crate) fn rank(source: u32, target: u32) -> u64
    ensures { result ≡ rank (source, target) }
{
    4_294_967_296 * source as u64 + target as u64
}

/// A number with its upper half added.
fn folded(number: u64) -> u64
    ensures { result ≡ folded number }
{
    number.wrapping_add(number / 4_294_967_296)
}

/// A rank, mixed.
fn mixed(rank: u64) -> u64
    ensures { result ≡ mixed rank }
{
    folded(folded(rank.wrapping_mul(ODD)).wrapping_mul(ODD)) / 4_294_967_296
}

/// The group of a pair, of so many groups.
pub(crate) fn group(way: Way, groups: usize, source: u32, target: u32) -> usize
    requires { 0 < groups }
    ensures { result ≡ group way groups (source, target) }
{
    match way {
        Way::Source => source as usize,
        Way::Target => target as usize,
        Way::Bucket => (mixed(rank(source, target)) % groups as u64) as usize,
    }
}
