// What was done to a disk in memory.

/// One thing that was done to a disk in memory and took place.
#[derive(Drop)]
pub enum Event {
    /// A sector was written.
    Write { sector: u32, bytes: Box<[u8; 512]> },
    /// All that was written before is on the disk.
    Sync,
    /// A piece was sent.
    Put { piece: Vec<u8> },
    /// A sector was set from outside, which leaves it firm.
    Poke { sector: u32, bytes: Box<[u8; 512]> },
}
