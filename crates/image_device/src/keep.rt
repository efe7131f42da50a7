// What a station in memory keeps: an event, and the cell that it leaves, both or none.
ghost use Rattle.std.specs.HashMap.{get};
ghost use Rattle.std.specs.Prelude.{◌≡◌, ◌+◌, ◌++◌, [], ◌∷◌, ℕ, nat_eq, length, option_map, OnOk};
ghost use Rattle.std.specs.Prelude.{OnErr};
ghost use Rattle.image_device.specs.declared.event.Event.TheVariants.{Poke, Put, Write};
ghost use Rattle.image_device.specs.Cells.{cell_or_blank, poked_cell, settled_cell, written_cell, IsEventKept, IsSame};

use crate::Pick;
use crate::cell::{Cell, blank_cell};
use crate::event::Event;
use std::alloc::{AllocError, Global};
use std::collections::HashMap;

/// The cell of a sector, which is blank where it was never written.
pub(crate) fn copy_cell(cells: &HashMap<u32, Cell>, sector: u32) -> Cell
    ensures { result ≡ cell_or_blank (get nat_eq cells.now sector) }
{
    match cells.get(&sector) {
        Some(cell) => *cell,
        None => blank_cell(),
    }
}

/// Keeps an event and the cell that it leaves, or leaves all as it was.
fn keep_cell(
    cells: &mut HashMap<u32, Cell>,
    log: &mut Vec<Event>,
    event: Event,
    sector: u32,
    cell: Cell,
) -> Result<(), AllocError>
    ensures ok { OnOk result (IsEventKept event sector cell log.old.items log.new.items (get nat_eq cells.old)
        (get nat_eq cells.new)) }
    ensures err { OnErr result (IsSame log.old.items log.new.items (get nat_eq cells.old) (get nat_eq cells.new)) }
{
    cells.reserve(1)?;
    log.push(event)?;
    let _ = cells.insert(sector, cell);
    Ok(())
}

/// Keeps a write, or leaves all as it was.
pub(crate) fn keep_write(
    alloc: Global,
    cells: &mut HashMap<u32, Cell>,
    log: &mut Vec<Event>,
    synced: usize,
    sector: u32,
    from: &[u8; 512],
) -> Result<(), AllocError>
    ensures ok { OnOk result ((bytes : _) × (bytes.value ≡ from.now) × IsEventKept (Write sector bytes) sector
        (written_cell synced (length log.old.items + 1) from.now (cell_or_blank (get nat_eq cells.old sector)))
        log.old.items log.new.items (get nat_eq cells.old) (get nat_eq cells.new)) }
    ensures err { OnErr result (IsSame log.old.items log.new.items (get nat_eq cells.old) (get nat_eq cells.new)) }
{
    let mut cell = copy_cell(cells, sector);
    cell.write(synced, log.len() + 1, from);
    let bytes = Box::new(alloc, *from)?;
    keep_cell(cells, log, Event::Write { sector, bytes }, sector, cell)
}

/// Keeps a poke, or leaves all as it was.
pub(crate) fn keep_poke(
    alloc: Global,
    cells: &mut HashMap<u32, Cell>,
    log: &mut Vec<Event>,
    sector: u32,
    from: &[u8; 512],
) -> Result<(), AllocError>
    ensures ok { OnOk result ((bytes : _) × (bytes.value ≡ from.now) × IsEventKept (Poke sector bytes) sector
        (poked_cell from.now (cell_or_blank (get nat_eq cells.old sector)))
        log.old.items log.new.items (get nat_eq cells.old) (get nat_eq cells.new)) }
    ensures err { OnErr result (IsSame log.old.items log.new.items (get nat_eq cells.old) (get nat_eq cells.new)) }
{
    let mut cell = copy_cell(cells, sector);
    cell.poke(from);
    let bytes = Box::new(alloc, *from)?;
    keep_cell(cells, log, Event::Poke { sector, bytes }, sector, cell)
}

/// Keeps a piece that was put, or leaves all as it was.
pub(crate) fn keep_piece(
    alloc: Global,
    log: &mut Vec<Event>,
    sent: &mut Vec<u8>,
    piece: &[u8],
) -> Result<(), AllocError>
    ensures ok { OnOk result ((kept : _) × (kept.items ≡ piece.now)
        × (log.new.items ≡ log.old.items ++ Put kept ∷ []) × (sent.new.items ≡ sent.old.items ++ piece.now)) }
    ensures err { OnErr result ((log.new.items ≡ log.old.items) × (sent.new.items ≡ sent.old.items)) }
{
    let before = sent.len();
    let kept = piece.to_vec(alloc)?;
    sent.extend_from_slice(piece)?;
    if log.push(Event::Put { piece: kept }).is_err() {
        sent.truncate(before);
        return Err(AllocError);
    }
    Ok(())
}

/// Makes each cell what a crash leaves in it.
pub(crate) fn settle_all(cells: &mut HashMap<u32, Cell>, pick: Pick, synced: usize)
    ensures { (n : ℕ) → get nat_eq cells.new n ≡ option_map (settled_cell pick synced) (get nat_eq cells.old n) }
{
    cells.retain(|_, cell| {
        cell.settle(pick, synced);
        true
    });
}
