//! Homes: the sectors that a batch may give new bytes.

ghost use Rattle.std.specs.Prelude.{◌≡◌};
ghost use Rattle.intent_journal.specs.Homes.{is_lawful_home};

use image_layout::sectors::{HEADER_SECTOR, MOST_SECTORS, SWEEP_FLAG};

/// Whether a batch may give this sector new bytes: the header, the sweep flag, and all that stands behind it, up to the
/// end of the largest image.
pub fn is_lawful_home(sector: u32) -> bool
    ensures { result ≡ is_lawful_home sector }
{
    sector == HEADER_SECTOR || (SWEEP_FLAG <= sector && sector < MOST_SECTORS)
}
