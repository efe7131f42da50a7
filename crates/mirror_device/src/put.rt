// A whole piece, put beside two sides by as many calls as it takes.
ghost use Rattle.mirror_device.specs.Putting.{SidesPutAll};

use crate::sides::Sides;
use image_device::Failed;

/// Sends all of a piece, which may be empty. After `Failed` a shorter front than the piece is sent; it
/// comes only where `put_faults` rose. Both sides stay as they were.
pub fn put_all<P: Sides>(sides: &mut P, piece: &[u8]) -> Result<(), Failed>
    ensures { SidesPutAll P.told piece.now (P.view sides.old) (P.view sides.new) result }
{
    let mut rest = piece;
    while !rest.is_empty() {
        let count = sides.put(rest)?;
        rest = &rest[count..];
    }
    Ok(())
}
