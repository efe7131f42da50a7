//! What an image keeps of the capabilities of its primary blocks.

ghost use Rattle.std.specs.Prelude.{◌≡◌};
ghost use Rattle.tsd_model.specs.Records.{kept_of, kept, kept_eq, upgraded_kept, upgraded_record};
ghost use Rattle.tsd_model.specs.Attained.{record_level};

use crate::caps::{Cap, CapPair};
use crate::requests::Level;
use sha2::{Digest, Sha256};

/// How many bytes a SHA-256 digest has.
pub const DIGEST_BYTES: usize = 32;

const _: () = prove!(DIGEST_BYTES == 32);

/// What is kept of one capability.
#[derive(Clone, Copy, Debug, PartialEq, Eq)]
pub enum KeptCap {
    /// The capability itself, in version 1.
    Plain(Cap),

    /// Its SHA-256 digest, in version 2.
    Digested([u8; DIGEST_BYTES]),
}

/// What is kept of the two capabilities of a primary block.
#[derive(Clone, Copy, Debug, PartialEq, Eq)]
pub struct Record {
    /// Of that which attains read.
    pub read: KeptCap,

    /// Of that which attains write.
    pub write: KeptCap,
}

/// What a version keeps of a capability: in version 2 its digest, else itself.
pub fn kept_of(version: u32, cap: &Cap) -> KeptCap
    ensures { result ≡ kept_of version cap.now }
{
    if version == 2 {
        KeptCap::Digested(Sha256::digest(cap.bytes.as_slice()))
    } else {
        KeptCap::Plain(*cap)
    }
}

/// What a version keeps of a pair of capabilities.
pub fn kept(version: u32, caps: &CapPair) -> Record
    /// promise: What a primary block keeps of a pair of capabilities: the pair itself in version 1, its digests in
    /// version 2.
    ensures { result ≡ kept version caps.now }
{
    Record {
        read: kept_of(version, &caps.read),
        write: kept_of(version, &caps.write),
    }
}

/// Whether the same is kept.
pub fn kept_eq(one: &KeptCap, other: &KeptCap) -> bool
    ensures { result ≡ kept_eq one.now other.now }
{
    match (one, other) {
        (KeptCap::Plain(cap), KeptCap::Plain(other_cap)) => {
            cap.bytes.as_slice() == other_cap.bytes.as_slice()
        }
        (KeptCap::Digested(digest), KeptCap::Digested(other_digest)) => {
            digest.as_slice() == other_digest.as_slice()
        }
        (KeptCap::Plain(_), KeptCap::Digested(_)) => false,
        (KeptCap::Digested(_), KeptCap::Plain(_)) => false,
    }
}

/// The record in version 2: of a capability only its digest is kept.
pub fn upgraded_record(held: &Record) -> Record
    ensures { result ≡ upgraded_record held.now }
{
    Record {
        read: upgraded_kept(&held.read),
        write: upgraded_kept(&held.write),
    }
}

fn upgraded_kept(kept: &KeptCap) -> KeptCap
    ensures { result ≡ upgraded_kept kept.now }
{
    match kept {
        KeptCap::Plain(cap) => KeptCap::Digested(Sha256::digest(cap.bytes.as_slice())),
        KeptCap::Digested(digest) => KeptCap::Digested(*digest),
    }
}

/// What a shown capability, as it would be kept, attains against the record of a primary block.
pub fn record_level(held: &Record, shown: &KeptCap) -> Level
    ensures { result ≡ record_level (Some held.now) shown.now }
{
    if kept_eq(shown, &held.write) {
        Level::Write
    } else if kept_eq(shown, &held.read) {
        Level::Read
    } else {
        Level::Bare
    }
}
