//! Two images served as one device, which goes on where one of them fails.
//!
//! It stands on `image_device`. The trait [`Sides`] says what two disks under one clock are, with one
//! port beside them; [`MemSides`] is two of them in memory. A [`Mirror`] is proved to be a device and a
//! port over any sides: it copies the first side to the second as it begins, writes both, reads one, and
//! goes on with the side that is left once the other has failed. A crash at any moment leaves, on each
//! side that has failed no call, what the mirror as a device says that a crash leaves. It may also begin
//! after reads of the first side (`Mirror::after_reads`).
//!
//! It repairs no lost side, and it does not compare the sides: of two that read differently later, each
//! read answers what one of them says.
#![tactic(auto)]

mod copy;
mod entry;
mod mem_side;
mod mem_sides;
mod mirror;
mod pair;
mod put;
mod ready;
mod side;
mod sides;
mod twins;

pub use mem_sides::MemSides;
pub use mirror::Mirror;
pub use put::put_all;
pub use ready::Began;
pub use side::{Side, SideCounts};
pub use sides::Sides;
