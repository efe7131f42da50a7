//! The bytes of a sector.

ghost use Rattle.std.specs.Prelude.{◌+◌, ◌≤◌, length};

use std::process::Abort;

/// Sees that these bytes stand in a sector, from an offset on.
pub fn see_bytes(rt: &impl Abort, sector: &[u8; 512], start: usize, bytes: &[u8])
    requires { start + length bytes.now ≤ 512 }
{
    assert_eq!(rt; &sector[start..start + bytes.len()], bytes, "at {start}");
}
