//! Where the journal stands: a ring of eight records, in sectors 2 to 130.
//!
//! | sectors | content |
//! |---|---|
//! | 2, 3 | gate and descriptor of record 0 |
//! | 4 to 116 | 113 bodies, shared by all records in order |
//! | 115 + 2i, 116 + 2i | gate and descriptor of record i, for i from 1 to 7 |

ghost use Rattle.std.specs.Prelude.{◌≡◌, ◌+◌, ◌-◌, ◌<◌, ◌≤◌};
ghost use Rattle.image_layout.specs.Ring.{ring_start, ring_end, records, bodies, gate_sector, descriptor_sector};
ghost use Rattle.image_layout.specs.Ring.{body_sector};

/// How many records the ring has.
pub const RECORDS: u32 = 8;

/// How many bodies all records have together.
pub const BODIES: u32 = 113;

/// The first sector of the ring.
pub const RING_START: u32 = 2;

/// The last sector of the ring.
pub const RING_END: u32 = 130;

/// The first body.
const BODIES_START: u32 = 4;

/// Where the gates of records from 1 on are counted from, two sectors a record.
const LATER_GATES: u32 = 115;

/// The sector of a record's gate.
pub fn gate_sector(index: u32) -> u32
    requires { index < RECORDS }
    ensures value { result ≡ gate_sector index }
    ensures in_ring { (RING_START ≤ result) × (result < RING_END) }
{
    if index == 0 {
        RING_START
    } else {
        LATER_GATES + 2 * index
    }
}

/// The sector of a record's descriptor, right after its gate.
pub fn descriptor_sector(index: u32) -> u32
    requires { index < RECORDS }
    ensures value { result ≡ descriptor_sector index }
    ensures in_ring { (RING_START < result) × (result ≤ RING_END) }
{
    gate_sector(index) + 1
}

/// The sector of a body, counted over all records in order.
pub fn body_sector(body: u32) -> u32
    requires { body < BODIES }
    ensures value { result ≡ body_sector body }
    ensures in_ring { (RING_START < result) × (result < RING_END) }
{
    BODIES_START + body
}

/// These numbers are those of the format, and the ring ends with the descriptor of its last record.
pub fn numbers_are_the_formats()
    /// promise (with bodies, start, end): The constants of the journal are those of the format.
    ensures records { RECORDS ≡ records }
    ensures bodies { BODIES ≡ bodies }
    ensures start { RING_START ≡ ring_start }
    ensures end { RING_END ≡ ring_end }
    ensures first_gate { gate_sector 0 ≡ ring_start }
    ensures last_descriptor { descriptor_sector (records - 1) ≡ ring_end }
{}
