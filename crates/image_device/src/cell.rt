// One sector of a station in memory: what it held at the start, at the last sync, and what it holds now.
ghost use Rattle.std.specs.Prelude.{◌≡◌};
ghost use Rattle.image_device.specs.Cells.{blank, FitsPick, is_loose, left_in, poked_cell, settled_cell, written_cell};

/// What a sector holds that was loose as the station stopped.
#[derive(Clone, Copy, Debug, PartialEq, Eq)]
pub enum Pick {
    /// What the last sync held.
    Old,
    /// What was last written.
    New,
    /// 512 equal bytes.
    Torn(u8),
}

/// A sector that was written or poked. It is loose where its last write stands behind the last sync.
#[derive(Clone, Copy)]
pub(crate) struct Cell {
    /// As the station began.
    pub(crate) start: [u8; 512],
    /// Where it is loose: as the last sync held it.
    pub(crate) firm: [u8; 512],
    /// As a read gives it.
    pub(crate) last: [u8; 512],
    /// How many events there were with its last write, or 0 after a poke.
    pub(crate) written: usize,
}

/// The cell of a sector never written.
pub(crate) fn blank_cell() -> Cell
    ensures { result ≡ blank }
{
    Cell {
        start: [0; 512],
        firm: [0; 512],
        last: [0; 512],
        written: 0,
    }
}

impl Cell {
    /// Whether it was written since the last sync, behind which stand so many events.
    pub(crate) fn is_loose(&self, synced: usize) -> bool
        ensures { result ≡ is_loose synced self.now }
    {
        synced < self.written
    }

    /// Writes it, by the event of this number.
    pub(crate) fn write(&mut self, synced: usize, number: usize, bytes: &[u8; 512])
        ensures { self.new ≡ written_cell synced number bytes.now self.old }
    {
        if !self.is_loose(synced) {
            let last = self.last;
            self.firm = last;
        }
        self.last = *bytes;
        self.written = number;
    }

    /// Pokes it.
    pub(crate) fn poke(&mut self, bytes: &[u8; 512])
        ensures { self.new ≡ poked_cell bytes.now self.old }
    {
        self.firm = *bytes;
        self.last = *bytes;
        self.written = 0;
    }

    /// What a crash leaves in it.
    fn left_in(&self, pick: Pick, synced: usize) -> [u8; 512]
        ensures { result ≡ left_in pick synced self.now }
    {
        if !self.is_loose(synced) {
            return self.last;
        }
        match pick {
            Pick::Old => self.firm,
            Pick::New => self.last,
            Pick::Torn(byte) => [byte; 512],
        }
    }

    /// Makes it what a crash leaves.
    pub(crate) fn settle(&mut self, pick: Pick, synced: usize)
        ensures { self.new ≡ settled_cell pick synced self.old }
    {
        let left = self.left_in(pick, synced);
        *self = Cell {
            start: left,
            firm: left,
            last: left,
            written: 0,
        };
    }
}

/// The byte of a pick is one.
pub(crate) fn pick_fits(pick: Pick)
    ensures { FitsPick pick }
{
    match pick {
        Pick::Torn(byte) => {
            let _byte = byte;
        }
        Pick::Old | Pick::New => {}
    }
}
