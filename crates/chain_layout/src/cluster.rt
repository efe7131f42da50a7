//! What every cluster says.

ghost use Rattle.std.specs.Prelude.{◌≡◌, ◌≤◌, ◌<◌, ◌+◌, ◌^◌, length};
ghost use Rattle.fs_trees.specs.Fields.{begins_with};
ghost use Rattle.fs_trees.specs.Cluster.{magic, link_in, link_field};

use fs_fields::number_at;
use tsd_model::Data;

/// What a cluster begins with.
pub const MAGIC: [u8; 8] = *b"TSDCHAN1";

/// How many bytes stand before what a cluster holds.
pub const HEAD_BYTES: usize = 16;

const _: () = prove!(HEAD_BYTES == 16);

/// A cluster as it was read from its block, whatever it is of.
#[derive(Drop)]
pub struct Cluster {
    next: Option<u32>,
    used: u32,
    bytes: Data,
    ghost whole: { 16 ≤ length bytes },
    ghost linked: { link_field next < 2 ^ 32 },
}

/// Whether a block begins as a cluster's.
fn has_magic(bytes: &[u8]) -> bool
    requires { 16 ≤ length bytes.now }
    ensures { result ≡ begins_with magic bytes.now }
{
    &bytes[..MAGIC.len()] == MAGIC.as_slice()
}

/// The block of the next cluster by its field, where there is one.
fn link_in(field: u32) -> Option<u32>
    ensures value { result ≡ link_in field }
    ensures fits { link_field result < 2 ^ 32 }
{
    if field == 0 { None } else { Some(field - 1) }
}

impl Cluster {
    ghost use Rattle.std.specs.Prelude.{option_map, None, IfSome};
    ghost use Rattle.fs_trees.specs.Cluster.{cluster_in};
    ghost use Rattle.tsd_model.specs.World.{has_number};
    ghost use Rattle.chain_layout.specs.Listed.{next_blocks};
    ghost use Rattle.chain_layout.specs.Block.{cluster_of, bytes_of, block_len_of};

    /// The cluster in a block's bytes.
    pub fn parse(bytes: Data) -> Option<Cluster>
        /// promise (with short): What cluster a block is, if it is one.
        ensures value { 16 ≤ length bytes → option_map cluster_of result ≡ cluster_in bytes }
        ensures short { length bytes < 16 → result ≡ None }
        ensures kept { IfSome result (λ cluster. bytes_of cluster ≡ bytes) }
    {
        if bytes.len() < HEAD_BYTES {
            return None;
        }
        Cluster::parse_whole(bytes)
    }

    /// The cluster in the bytes of a block that has room for a head.
    fn parse_whole(bytes: Data) -> Option<Cluster>
        requires { 16 ≤ length bytes }
        ensures value { option_map cluster_of result ≡ cluster_in bytes }
        ensures kept { IfSome result (λ cluster. bytes_of cluster ≡ bytes) }
    {
        if !has_magic(bytes.as_slice()) {
            return None;
        }
        let next = link_in(number_at(bytes.as_slice(), 8));
        let used = number_at(bytes.as_slice(), 12);
        Some(Cluster { next, used, bytes })
    }

    /// The block of the next cluster of its chain.
    pub fn next(&self) -> Option<u32>
        ensures value { result ≡ (cluster_of self.now).next }
        ensures fits { link_field result < 2 ^ 32 }
    {
        self.next
    }

    /// Whether this is the block of the next cluster.
    pub fn leads_to(&self, block: u32) -> bool
        ensures { result ≡ has_number (next_blocks (cluster_of self.now).next) block }
    {
        match self.next {
            Some(next) => next == block,
            None => false,
        }
    }

    /// How many entries, or bytes of a file, it says that it has.
    pub fn used(&self) -> u32
        ensures { result ≡ (cluster_of self.now).used }
    {
        self.used
    }

    /// How many bytes its block has.
    pub fn block_len(&self) -> usize
        ensures value { result ≡ block_len_of self.now }
        ensures fits { result ≤ 4096 }
        ensures whole { 16 ≤ result }
    {
        self.bytes.len()
    }

    /// The bytes behind its head.
    pub fn body(&self) -> &[u8]
        ensures value { result.now ≡ (cluster_of self.now).body }
        ensures whole { 16 + length result.now ≡ block_len_of self.now }
        ensures fits { block_len_of self.now ≤ 4096 }
    {
        &self.bytes.as_slice()[HEAD_BYTES..]
    }
}
