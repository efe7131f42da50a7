//! What a certificate shows of a volume, without a search.

ghost use Rattle.std.specs.Prelude.{◌≡◌, ◌↔◌, ℕ, ◌<◌, ◌^◌, length, count_by, is_some, MatchOption};
ghost use Rattle.std.specs.Prelude.{IfSome, IsTrue, true};
ghost use Rattle.tsd_model.specs.Reach.{reach};
ghost use Rattle.tsd_model.specs.Pairs.{holds};
ghost use Rattle.tsd_model.specs.Valid.{IsSized};
ghost use Rattle.tsd_model.specs.World.{has_number, is_live, primary_blocks};
ghost use Rattle.volume_laws.specs.Volume.{IsVolumeReady, told_by};
ghost use Rattle.image_audit.specs.Certificates.{ListsPrimaries, HasGoodEntries, IsClosed, IsClosedAt, IsGoodEntry};
ghost use Rattle.image_audit.specs.Certificates.{IsVerdict};
ghost use Rattle.image_audit.specs.Certificates.{IsLeastPrimaryOut, IsLeastBadEntry, IsLeastOut, IsLeastOutAt};
ghost use Rattle.image_audit.specs.Certificates.{HasParent};
ghost use Rattle.image_audit.specs.Certificates.{IsBelow, IsPrimaryEntry};
ghost use Rattle.image_audit.specs.Depths.{AreReached};
ghost use Rattle.image_audit.specs.Entries.{entry_at, is_listed};

use crate::certificate::Certificate;
use crate::entry::Entry;
use crate::targets::Targets;
use crate::verdict::Verdict;
use volume::Volume;

/// What a certificate shows of a volume: the first case that applies. Each entry and each pair from a listed block is
/// looked at once, and no memory is taken.
pub fn verify(volume: &Volume, certificate: &Certificate) -> Verdict
    requires ready { IsVolumeReady volume.now }
    requires blocks { length certificate.now.entries ≡ volume.now.tables.geometry.blocks }
    /// promise: A certificate is answered by the first of the four cases that applies, with the least block or pair.
    ensures verdict { IsVerdict (told_by volume.now) certificate.now.entries result }
    /// promise: **Where it is yes, exactly the listed blocks are reached, whoever made the certificate.**
    ensures reached { (n : ℕ) → result ≡ Verdict.Yes n → (b : ℕ)
        → is_listed certificate.now.entries b ≡ has_number (reach (told_by volume.now)) b }
    /// promise: What a search from the primary blocks finds is answered yes.
    ensures found { AreReached (told_by volume.now) (primary_blocks (told_by volume.now)) certificate.now.entries
        → result ≡ Verdict.Yes (count_by is_some certificate.now.entries) }
{
    let entries = certificate.entries();
    if let Some(block) = primary_out(volume, entries) {
        return Verdict::Primary { block };
    }
    if let Some(block) = first_bad(volume, entries) {
        return Verdict::Entry { block };
    }
    if let Some((source, target)) = first_out(volume, entries) {
        return Verdict::Open { source, target };
    }
    Verdict::Yes {
        blocks: count_listed(entries),
    }
}

/// How many blocks are listed.
fn count_listed(entries: &[Option<Entry>]) -> u32
    requires { length entries.now < 2 ^ 32 }
    ensures { result ≡ count_by is_some entries.now }
{
    entries.iter().filter(|entry| entry.is_some()).count() as u32
}

/// The least primary block that isn't listed.
fn primary_out(volume: &Volume, entries: &[Option<Entry>]) -> Option<u32>
    requires blocks { length entries.now ≡ volume.now.tables.geometry.blocks }
    ensures out { MatchOption result (ListsPrimaries (told_by volume.now) entries.now)
        (IsLeastPrimaryOut (told_by volume.now) entries.now) }
    ensures sized { IsSized (told_by volume.now) }
    ensures ends { (a b : ℕ) → holds (told_by volume.now).pairs a b ≡ true
        → (is_live (told_by volume.now) a ≡ true) × (is_live (told_by volume.now) b ≡ true) }
{
    for block in 0..volume.geometry().primaries {
        if entries[block as usize].is_none() {
            return Some(block);
        }
    }
    None
}

/// The least listed block whose entry isn't good.
fn first_bad(volume: &Volume, entries: &[Option<Entry>]) -> Option<u32>
    requires ready { IsVolumeReady volume.now }
    requires blocks { length entries.now ≡ volume.now.tables.geometry.blocks }
    ensures { MatchOption result (HasGoodEntries (told_by volume.now) entries.now)
        (IsLeastBadEntry (told_by volume.now) entries.now) }
{
    for block in 0..volume.geometry().blocks {
        if !is_good_at(volume, entries, block) {
            return Some(block);
        }
    }
    None
}

/// Whether a block isn't listed, or its entry is good.
fn is_good_at(volume: &Volume, entries: &[Option<Entry>], block: u32) -> bool
    requires ready { IsVolumeReady volume.now }
    requires blocks { length entries.now ≡ volume.now.tables.geometry.blocks }
    requires inside { block < volume.now.tables.geometry.blocks }
    ensures { IsTrue result ↔ IfSome (entry_at entries.now block) (IsGoodEntry (told_by volume.now) entries.now block) }
{
    match entries[block as usize] {
        Some(entry) => {
            if block < volume.geometry().primaries {
                is_first(entry)
            } else {
                has_parent(volume, entries, block, entry)
            }
        }
        None => true,
    }
}

/// Whether an entry is one of a primary block.
fn is_first(entry: Entry) -> bool
    ensures { IsTrue result ↔ IsPrimaryEntry entry }
{
    entry.depth == 0 && entry.parent.is_none()
}

/// Whether the parent of an entry is listed, points to its block and is one level up.
fn has_parent(volume: &Volume, entries: &[Option<Entry>], block: u32, entry: Entry) -> bool
    requires ready { IsVolumeReady volume.now }
    requires blocks { length entries.now ≡ volume.now.tables.geometry.blocks }
    requires inside { block < volume.now.tables.geometry.blocks }
    ensures { IsTrue result ↔ HasParent (told_by volume.now) entries.now block entry.depth entry.parent }
{
    match entry.parent {
        Some(parent) => is_below(volume, entries, block, entry.depth, parent),
        None => false,
    }
}

/// Whether a block is listed, points to another one and is one level above this depth.
fn is_below(volume: &Volume, entries: &[Option<Entry>], block: u32, depth: u32, parent: u32) -> bool
    requires ready { IsVolumeReady volume.now }
    requires blocks { length entries.now ≡ volume.now.tables.geometry.blocks }
    requires inside { block < volume.now.tables.geometry.blocks }
    ensures { IsTrue result ↔ IsBelow (told_by volume.now) entries.now block depth parent }
{
    match entries.get(parent as usize) {
        Some(Some(above)) => {
            above.depth < depth && depth - above.depth == 1 && volume.has(parent, block)
        }
        _ => false,
    }
}

/// The least pair from a listed block to one that isn't.
fn first_out(volume: &Volume, entries: &[Option<Entry>]) -> Option<(u32, u32)>
    requires ready { IsVolumeReady volume.now }
    requires blocks { length entries.now ≡ volume.now.tables.geometry.blocks }
    ensures { MatchOption result (IsClosed (told_by volume.now) entries.now)
        (λ pair. IsLeastOut (told_by volume.now) entries.now pair.0 pair.1) }
{
    for source in 0..volume.geometry().blocks {
        if entries[source as usize].is_some() {
            if let Some(target) = target_out(volume, entries, source) {
                return Some((source, target));
            }
        }
    }
    None
}

/// The least target of a block that isn't listed.
fn target_out(volume: &Volume, entries: &[Option<Entry>], source: u32) -> Option<u32>
    requires ready { IsVolumeReady volume.now }
    requires blocks { length entries.now ≡ volume.now.tables.geometry.blocks }
    requires inside { source < volume.now.tables.geometry.blocks }
    ensures { MatchOption result (IsClosedAt (told_by volume.now) entries.now source)
        (IsLeastOutAt (told_by volume.now) entries.now source) }
{
    let mut targets = Targets::of(source);
    while let Some(target) = targets.next(volume) {
        if entries[target as usize].is_none() {
            return Some(target);
        }
    }
    None
}
