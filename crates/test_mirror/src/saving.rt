// A small program over any port, and what it leaves on each side of a mirror.
ghost use Rattle.std.specs.Prelude.{◌≡◌, IfOk};
ghost use Rattle.image_device.specs.Runs.{LeavesOnly};
ghost use Rattle.mirror_device.specs.declared.side.Serving.{Serving};
ghost use Rattle.mirror_device.specs.Mirror.{start_at, EachSound, Start};
ghost use Rattle.mirror_device.specs.Sending.{CanRise, IsIdle};
ghost use Rattle.mirror_device.specs.SidesView.{Item};
ghost use Rattle.test_mirror.specs.Saving.{IsSaved};

use image_device::{Failed, Port, put_all, write_through};
use mirror_device::{Began, Mirror, Sides};
use std::marker::Brand;

/// Writes a sector and then says so by a line.
fn save<D: Port>(port: &mut D, sector: u32, from: &[u8; 512]) -> Result<(), Failed>
    // A crash at any moment leaves any bytes in the sector, and these ones once something was sent.
    ensures { D.told → LeavesOnly (D.view port.old) (D.view port.new)
        (IsSaved sector from.now (D.view port.old).reads (D.view port.old).loose (D.view port.old).sent) }
{
    write_through(port, sector, from)?;
    put_all(port, b"ok\n")
}

/// The same over a mirror, which gives its sides back.
fn save_over<P: Sides + Drop, K: Began>(sides: P, sector: u32, from: &[u8; 512]) -> Result<P, P>
    requires { K.start ≡ start_at (P.view sides) }
    ensures saved { P.told → IfOk result (λ rest. (c : Serving)
        × ((i : Item) → (P.view rest).left (P.view sides).clock i
        → EachSound K.start c i (λ x. IsSaved sector from.now (P.view sides).first.reads
        (P.view sides).first.loose (P.view sides).sent x i.sent))) }
    ensures late { P.told → IfOk result (λ rest. CanRise K.start → (i : Item)
        → (P.view rest).left (P.view sides).clock i → IsIdle K.start i.second → i.sent ≡ (P.view sides).sent) }
{
    let mut mirror: Mirror<P, K> = Mirror::new(sides)?;
    let _ = save(&mut mirror, sector, from);
    Ok(mirror.into_sides())
}

/// The same of any sides, whatever their counts. At each moment, each side that has failed no call (the second one,
/// once the copying was done) holds what the program says of the first side as it was; and no byte is sent before.
pub fn save_both<P: Sides + Drop>(sides: P, sector: u32, from: &[u8; 512]) -> Result<P, P>
    ensures saved { P.told → IfOk result (λ rest. (c : Serving)
        × ((i : Item) → (P.view rest).left (P.view sides).clock i
        → EachSound (start_at (P.view sides)) c i (λ x. IsSaved sector from.now (P.view sides).first.reads
        (P.view sides).first.loose (P.view sides).sent x i.sent))) }
    ensures late { P.told → IfOk result (λ rest. CanRise (start_at (P.view sides)) → (i : Item)
        → (P.view rest).left (P.view sides).clock i
        → IsIdle (start_at (P.view sides)) i.second → i.sent ≡ (P.view sides).sent) }
{
    save_over::<P, Brand>(sides, sector, from)
}
