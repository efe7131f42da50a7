// A whole piece, put by as many calls as it takes.
ghost use Rattle.image_device.specs.Runs.{PutsAll};

use crate::{Failed, Port};

/// Sends all of a piece, which may be empty. After `Failed` a shorter front than the piece is
/// sent; it comes only where `put_faults` rose.
pub fn put_all<P: Port>(port: &mut P, piece: &[u8]) -> Result<(), Failed>
    /// promise: What is sent at every moment is a front of the piece, all of it after Ok; `Failed` comes only where the
    /// port's count rose.
    ensures { PutsAll P.told piece.now (P.view port.old) (P.view port.new) result }
{
    let mut rest = piece;
    while !rest.is_empty() {
        let count = port.put(rest)?;
        rest = &rest[count..];
    }
    Ok(())
}
