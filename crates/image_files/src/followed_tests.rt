//! Tests of what is read ahead, and of rows that are written, over a file in memory that notes its calls.

use crate::followed::Followed;
use crate::sectors::{SECTOR, Sectors};
use crate::trouble::Trouble;
use std::cell::Cell;
use std::test::Fail;

/// A file in memory. Of each read and each write it notes where it began and how many sectors it had.
#[derive(Drop)]
struct Noted {
    bytes: Vec<u8>,
    reads: Vec<(u32, usize)>,
    writes: Vec<(u32, usize)>,
    fails: Cell<bool>,
}

impl Noted {
    /// In which each byte of a sector is its number.
    fn new(rt: &HostRuntime) -> Result<Noted, Fail> {
        let mut bytes = Vec::new(rt.alloc());
        for sector in 0..=255u8 {
            bytes.extend_from_slice(&[sector; SECTOR])?;
        }
        Ok(Noted {
            bytes,
            reads: Vec::new(rt.alloc()),
            writes: Vec::new(rt.alloc()),
            fails: Cell::new(false),
        })
    }
}

impl Sectors for Noted {
    ghost told = { ⊥ };

    ghost content = { λ file offset. 0 };

    fn read(&mut self, sector: u32, room: &mut [u8]) -> Result<(), Trouble> {
        if self.reads.push((sector, room.len() / SECTOR)).is_err() || self.fails.get() {
            return Err(Trouble::PastEnd);
        }
        let start = sector as usize * SECTOR;
        match self.bytes.get(start..start.saturating_add(room.len())) {
            Some(bytes) => {
                room.copy_from_slice(bytes);
                Ok(())
            }
            None => Err(Trouble::PastEnd),
        }
    }

    fn refusal(&self) -> Option<Trouble> {
        None
    }

    fn write(&mut self, sector: u32, from: &[u8]) -> Result<(), Trouble> {
        if self.writes.push((sector, from.len() / SECTOR)).is_err() || self.fails.get() {
            return Err(Trouble::PastEnd);
        }
        let start = sector as usize * SECTOR;
        let end = start.saturating_add(from.len());
        if end > self.bytes.len() {
            return Err(Trouble::PastEnd);
        }
        self.bytes[start..end].copy_from_slice(from);
        Ok(())
    }

    fn sync(&mut self) -> Result<(), Trouble> {
        if self.fails.get() {
            return Err(Trouble::PastEnd);
        }
        Ok(())
    }
}

/// The byte of which a sector is full, as it is read.
fn byte_of(file: &mut Followed<Noted>, sector: u32) -> Option<u8> {
    let mut bytes = [0; SECTOR];
    match file.read(sector, &mut bytes) {
        Ok(()) if bytes.iter().all(|byte| *byte == bytes[0]) => Some(bytes[0]),
        _ => None,
    }
}

/// The first byte that a file has in a sector.
fn first_byte(file: &Followed<Noted>, sector: u32) -> Option<u8> {
    file.file().bytes.get(sector as usize * SECTOR).copied()
}

/// Reads blocks of so many sectors, each from its first sector on, and tells whether they are what the file has there.
fn reads_blocks(file: &mut Followed<Noted>, sectors: u32, blocks: &[u8]) -> bool {
    for block in blocks {
        for offset in 0..sectors {
            let sector = u32::from(*block)
                .saturating_mul(sectors)
                .saturating_add(offset);
            if byte_of(file, sector).map(u32::from) != Some(sector) {
                return false;
            }
        }
    }
    true
}

/// A block of eight sectors is read by one call, once another one was read; of one sector no more is read than that.
#[test]
fn a_block_is_read_by_one_call(rt: HostRuntime) -> Result<(), Fail> {
    let mut eight = Followed::new(rt.alloc(), Noted::new(&rt)?);
    assert!(rt; reads_blocks(&mut eight, 8, &[3, 9, 1, 20]));
    let wanted = [
        (24, 1),
        (25, 2),
        (27, 4),
        (31, 8),
        (72, 8),
        (8, 8),
        (160, 8),
    ];
    assert_eq!(rt; eight.file().reads.as_slice(), wanted.as_slice());
    let mut one = Followed::new(rt.alloc(), Noted::new(&rt)?);
    assert!(rt; reads_blocks(&mut one, 1, &[3, 9, 1, 20]));
    assert_eq!(rt;
        one.file().reads.as_slice(),
        [(3, 1), (9, 1), (1, 1), (20, 1)].as_slice()
    );
    Ok(())
}

/// A sector that was read ahead and then written is read as it was written.
#[test]
fn what_was_read_ahead_is_written(rt: HostRuntime) -> Result<(), Fail> {
    let mut file = Followed::new(rt.alloc(), Noted::new(&rt)?);
    assert!(rt; reads_blocks(&mut file, 1, &[10, 11, 12, 13]));
    assert_eq!(rt;
        file.file().reads.as_slice(),
        [(10, 1), (11, 2), (13, 4)].as_slice()
    );
    for sector in [13, 16, 17] {
        assert!(rt; file.write(sector, &[99; SECTOR]).is_ok());
        assert_eq!(rt; byte_of(&mut file, sector), Some(99));
    }
    assert_eq!(rt; byte_of(&mut file, 15), Some(15));
    Ok(())
}

/// Once a write or a sync failed each call fails, also where the file goes on; a write may be answered Ok before.
#[test]
fn after_a_failure_each_call_fails(rt: HostRuntime) -> Result<(), Fail> {
    for turn in 0..3 {
        let mut file = Followed::new(rt.alloc(), Noted::new(&rt)?);
        assert!(rt; reads_blocks(&mut file, 8, &[2, 4]));
        file.file().fails.set(true);
        assert_eq!(rt; byte_of(&mut file, 39), Some(39));
        assert!(rt; file.write(39, &[0; SECTOR]).is_ok());
        let done = match turn {
            0 => file.write(41, &[0; SECTOR]),
            1 => file.send(),
            _ => file.sync(),
        };
        assert!(rt; done.is_err());
        file.file().fails.set(false);
        assert_eq!(rt; byte_of(&mut file, 39), None);
        assert!(rt; file.write(39, &[0; SECTOR]).is_err());
        assert!(rt; file.send().is_err());
        assert!(rt; file.sync().is_err());
    }
    Ok(())
}

/// Sectors that follow one another are written by one call, also where one is written again among them; a gap ends the
/// row. Before that they are read as they were written.
#[test]
fn a_row_is_written_by_one_call(rt: HostRuntime) -> Result<(), Fail> {
    let mut file = Followed::new(rt.alloc(), Noted::new(&rt)?);
    for (sector, byte) in [
        (8, 78),
        (9, 70),
        (10, 80),
        (11, 81),
        (9, 79),
        (12, 82),
        (10, 99),
    ] {
        assert!(rt; file.write(sector, &[byte; SECTOR]).is_ok());
    }
    assert!(rt; file.file().writes.is_empty());
    for (sector, wanted) in [
        (7, 7),
        (8, 78),
        (9, 79),
        (10, 99),
        (11, 81),
        (12, 82),
        (13, 13),
    ] {
        assert_eq!(rt; byte_of(&mut file, sector), Some(wanted));
    }
    assert!(rt; file.file().writes.is_empty());
    assert!(rt; file.write(14, &[1; SECTOR]).is_ok());
    assert!(rt; file.write(13, &[2; SECTOR]).is_ok());
    assert!(rt; file.sync().is_ok());
    assert!(rt; file.sync().is_ok());
    assert_eq!(rt;
        file.file().writes.as_slice(),
        [(8, 5), (14, 1), (13, 1)].as_slice()
    );
    assert_eq!(rt; first_byte(&file, 8), Some(78));
    assert_eq!(rt; first_byte(&file, 10), Some(99));
    assert_eq!(rt; first_byte(&file, 13), Some(2));
    Ok(())
}

/// At most 128 sectors wait.
#[test]
fn a_row_has_an_end(rt: HostRuntime) -> Result<(), Fail> {
    let mut file = Followed::new(rt.alloc(), Noted::new(&rt)?);
    for sector in 0..130 {
        assert!(rt; file.write(sector, &[1; SECTOR]).is_ok());
    }
    assert!(rt; file.send().is_ok());
    assert_eq!(rt;
        file.file().writes.as_slice(),
        [(0, 128), (128, 2)].as_slice()
    );
    Ok(())
}

/// Behind the file's end nothing is read: the sectors before it are, each alone.
#[test]
fn what_ends_is_read_up_to_its_end(rt: HostRuntime) -> Result<(), Fail> {
    let mut file = Followed::new(rt.alloc(), Noted::new(&rt)?);
    assert!(rt; reads_blocks(&mut file, 8, &[3]));
    for sector in 250..256 {
        assert_eq!(rt; byte_of(&mut file, sector).map(u32::from), Some(sector));
    }
    assert_eq!(rt; byte_of(&mut file, 256), None);
    Ok(())
}
