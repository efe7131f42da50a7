//! A search of a volume, level by level.

ghost use Rattle.std.specs.Prelude.{◌≡◌, ℕ, ◌+◌, ◌<◌, ◌++◌, ◌∷◌, [], List, Some, cond};
ghost use Rattle.std.specs.Prelude.{length, slice_set, OnOk};
ghost use Rattle.std.specs.List.{All};
ghost use Rattle.volume_laws.specs.Volume.{IsVolumeReady, told_by};
ghost use Rattle.image_audit.specs.Entries.{entry_at, is_listed};
ghost use Rattle.image_audit.specs.Searching.{HasRoots, NoneSeen, IsSearching, IsSearched};
ghost use Rattle.image_audit.specs.Searching.{SearchesOn, noted, lesser};

use crate::entry::Entry;
use crate::targets::Targets;
use std::alloc::Global;
use std::mem;
use tsd_model::NoMemory;
use volume::Volume;

/// Lists the roots.
fn list_roots(roots: &[u32], entries: &mut [Option<Entry>])
    requires inside { All (λ root. root < length entries.old) roots.now }
    requires none { HasRoots [] entries.old }
    ensures listed { HasRoots roots.now entries.new }
    ensures size { length entries.new ≡ length entries.old }
{
    for root in roots {
        entries[*root as usize] = Some(Entry {
            depth: 0,
            parent: None,
        });
    }
}

/// Lists the roots and what they lead to. At first nothing is listed.
pub(crate) fn search(
    alloc: Global,
    volume: &Volume,
    roots: &[u32],
    entries: &mut [Option<Entry>],
) -> Result<(), NoMemory>
    requires ready { IsVolumeReady volume.now }
    requires inside { All (λ root. root < volume.now.tables.geometry.blocks) roots.now }
    requires size { length entries.old ≡ volume.now.tables.geometry.blocks }
    requires none { HasRoots [] entries.old }
    ensures size { OnOk result (length entries.new ≡ length entries.old) }
    ensures searched { OnOk result (IsSearched (told_by volume.now) roots.now entries.new) }
{
    list_roots(roots, entries);
    let mut level = Vec::new(alloc);
    level.extend_from_slice(roots)?;
    search_levels(alloc, volume, &mut level, entries)
}

/// Lists what the roots lead to. At first they are listed, and are the level.
fn search_levels(
    alloc: Global,
    volume: &Volume,
    level: &mut Vec<u32>,
    entries: &mut [Option<Entry>],
) -> Result<(), NoMemory>
    requires ready { IsVolumeReady volume.now }
    requires size { length entries.old ≡ volume.now.tables.geometry.blocks }
    requires roots { HasRoots level.old.items entries.old }
    ensures size { OnOk result (length entries.new ≡ length entries.old) }
    ensures searched { OnOk result (IsSearched (told_by volume.now) level.old.items entries.new) }
{
    let mut next = Vec::new(alloc);
    for depth in 0..volume.geometry().blocks {
        if level.is_empty() {
            return Ok(());
        }
        search_level(volume, level.as_slice(), depth, &mut next, entries)?;
        mem::swap(level, &mut next);
        next.clear();
    }
    Ok(())
}

/// Looks at each pair from the blocks of a level.
fn search_level(
    volume: &Volume,
    level: &[u32],
    depth: u32,
    next: &mut Vec<u32>,
    entries: &mut [Option<Entry>],
) -> Result<(), NoMemory>
    requires ready { IsVolumeReady volume.now }
    requires size { length entries.old ≡ volume.now.tables.geometry.blocks }
    requires depth { depth < volume.now.tables.geometry.blocks }
    requires none { next.old.items ≡ [] }
    requires inside { All (λ source. source < volume.now.tables.geometry.blocks) level.now }
    ensures size { OnOk result (length entries.new ≡ length entries.old) }
    ensures searched { (roots : List ℕ)
        → IsSearching (told_by volume.now) roots depth level.now [] NoneSeen entries.old
        → OnOk result (IsSearching (told_by volume.now) roots (depth + 1) next.new.items [] NoneSeen entries.new) }
{
    for source in level {
        search_from(volume, *source, depth, next, entries)?;
    }
    Ok(())
}

/// Looks at each pair from a block of the level.
fn search_from(
    volume: &Volume,
    source: u32,
    depth: u32,
    next: &mut Vec<u32>,
    entries: &mut [Option<Entry>],
) -> Result<(), NoMemory>
    requires ready { IsVolumeReady volume.now }
    requires size { length entries.old ≡ volume.now.tables.geometry.blocks }
    requires depth { depth < volume.now.tables.geometry.blocks }
    requires inside { source < volume.now.tables.geometry.blocks }
    ensures size { OnOk result (length entries.new ≡ length entries.old) }
    ensures searched { OnOk result (SearchesOn (told_by volume.now) depth source next.old.items next.new.items
        entries.old entries.new) }
{
    let blocks = volume.geometry().blocks;
    let mut targets = Targets::of(source);
    while let Some(target) = targets.next(volume) {
        note(next, entries, target, depth + 1, source)?;
    }
    Ok(())
}

/// Notes that a block one level up points to a block, which would then have this depth. A block that wasn't listed is
/// one of the next level.
fn note(
    next: &mut Vec<u32>,
    entries: &mut [Option<Entry>],
    block: u32,
    depth: u32,
    parent: u32,
) -> Result<(), NoMemory>
    requires inside { block < length entries.old }
    ensures entries { OnOk result (entries.new
        ≡ slice_set entries.old block (Some (noted (entry_at entries.old block) depth parent))) }
    ensures next { OnOk result (next.new.items
        ≡ next.old.items ++ cond (is_listed entries.old block) [] (block ∷ [])) }
{
    let old = entries[block as usize];
    entries[block as usize] = Some(noted(old, depth, parent));
    if old.is_none() && next.push(block).is_err() {
        return Err(NoMemory);
    }
    Ok(())
}

/// The entry of a block once a pair from a block one level up was looked at: of two parents the lesser one counts.
fn noted(old: Option<Entry>, depth: u32, parent: u32) -> Entry
    ensures { result ≡ noted old depth parent }
{
    match old {
        Some(entry) => {
            if entry.depth == depth {
                Entry {
                    depth,
                    parent: Some(lesser(entry.parent, parent)),
                }
            } else {
                entry
            }
        }
        None => Entry {
            depth,
            parent: Some(parent),
        },
    }
}

/// The lesser of two parents, of which one may be missing.
fn lesser(one: Option<u32>, other: u32) -> u32
    ensures { result ≡ lesser one other }
{
    match one {
        Some(one) => one.min(other),
        None => other,
    }
}
