//! Gates and flags: a sector each, open or closed by its first byte alone.

ghost use Rattle.std.specs.Prelude.{◌≡◌};
ghost use Rattle.image_layout.specs.Image.{says_open, gate_bytes};

use crate::sectors::SECTOR_BYTES;

/// The sector to write for an open or a closed gate.
pub fn gate_bytes(open: bool) -> [u8; SECTOR_BYTES]
    ensures value { result ≡ gate_bytes «open» }
    ensures reads_back { says_open result ≡ «open» }
{
    let mut bytes = [0; SECTOR_BYTES];
    bytes[0] = u8::from(open);
    bytes
}

/// Whether a gate with this sector is open: its first byte is 1.
pub fn says_open(sector: &[u8; SECTOR_BYTES]) -> bool
    ensures { result ≡ says_open sector.now }
{
    sector[0] == 1
}
