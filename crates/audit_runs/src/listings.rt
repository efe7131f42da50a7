//! The certificate of a search, put.

ghost use Rattle.std.specs.Prelude.{◌≡◌, ◌<◌, ◌≤◌, ◌+◌, ◌++◌, length};
ghost use Rattle.image_device.specs.Runs.{PutsAll};
ghost use Rattle.image_audit.specs.Laws.{listings_from};
ghost use Rattle.audit_runs.specs.Audit.{listings_text, text_from};

use image_audit::{Reached, put_listing};
use image_device::{Failed, Port, put_all};
use script_text::OutBuf;

/// The lines of how many blocks are put at a time. A line has at most 60 bytes.
const PAGE_BLOCKS: u32 = 128;

/// Puts a line for each block that is reached, ascending.
pub(crate) fn put_listings<P: Port>(reached: &Reached, port: &mut P) -> Result<(), Failed>
    ensures { PutsAll P.told (listings_text (listings_from 0 reached.now)) (P.view port.old) (P.view port.new) result }
{
    let blocks = reached.blocks();
    let mut page = OutBuf::new();
    let mut from = 0;
    while from < blocks {
        from = put_page(reached, from, &mut page);
        put_all(port, page.as_slice())?;
    }
    Ok(())
}

/// The lines of some blocks, from one on, and the block behind the last of them.
fn put_page(reached: &Reached, from: u32, page: &mut OutBuf) -> u32
    requires { from < length reached.now }
    ensures later { from < result }
    ensures inside { result ≤ length reached.now }
    ensures text { text_from reached.now from ≡ page.new ++ text_from reached.now result }
{
    page.clear();
    let end = end_of_page(from, reached.blocks());
    for block in from..end {
        if let Some(listing) = reached.listing(block) {
            put_listing(page, &listing);
        }
    }
    end
}

/// Where the lines end that are put at a time.
fn end_of_page(from: u32, blocks: u32) -> u32
    requires { from < blocks }
    ensures later { from < result }
    ensures inside { result ≤ blocks }
    ensures few { result ≤ from + PAGE_BLOCKS }
{
    if blocks - from > PAGE_BLOCKS {
        from + PAGE_BLOCKS
    } else {
        blocks
    }
}
