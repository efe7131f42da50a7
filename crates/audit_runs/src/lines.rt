//! Lines of a certificate as a protocol.

ghost use Rattle.std.specs.Prelude.{[]};
ghost use Rattle.script_text.specs.Lines.{WasFed};
ghost use Rattle.audit_runs.specs.Lines.{listing_spelling};
ghost use Rattle.audit_runs.specs.LineLaws.{listings_lawful};

use image_audit::{Listing, parse_listing};
use script_text::LineCutter;
use serving::{Ending, Fed, Protocol};

/// Cuts lines, and reads what each says of a block.
#[derive(Drop)]
pub(crate) struct ListingLines {
    cutter: LineCutter,
}

impl ListingLines {
    /// Nothing was fed yet.
    pub(crate) fn new() -> ListingLines
        ensures { ⟦<ListingLines as Protocol>⟧.was_fed [] result }
    {
        ListingLines {
            cutter: LineCutter::new(),
        }
    }
}

impl Protocol for ListingLines {
    /// What a line says, None where it isn't of the form.
    type Request = Option<Listing>;

    ghost spelling = { listing_spelling };

    ghost was_fed = { λ x l. WasFed x l.cutter };

    ghost lawful = { listings_lawful };

    fn blank() -> Option<Listing> {
        None
    }

    fn feed(&mut self, piece: &[u8], into: &mut Option<Listing>) -> Fed {
        let fed = self.cutter.feed(piece);
        if fed.whole {
            *into = parse_listing(self.cutter.line());
        }
        Fed {
            used: fed.used,
            whole: fed.whole,
        }
    }

    fn ending(&self) -> Ending<Option<Listing>> {
        let rest = self.cutter.rest();
        if rest.is_empty() {
            return Ending::Nothing;
        }
        Ending::One(parse_listing(rest))
    }
}
