//! What the loop's promise is at a handler that is lent beside something, over lines.

ghost use Rattle.std.specs.Prelude.{◌≡◌, ◌≤◌, []};
ghost use Rattle.image_device.specs.Runs.{IsFirm};
ghost use Rattle.script_text.specs.Lines.{WasFed};
ghost use Rattle.serving.specs.Faults.{TellsFaults};
ghost use Rattle.serving.specs.Handling.{FitsDevice};
ghost use Rattle.serving.specs.LineSpelling.{line_spelling, line_voice};
ghost use Rattle.serving.specs.Ran.{Ran, moments, taking};
ghost use Rattle.serving.specs.Voice.{spoken};

use image_device::{Device, Failed, Port, Source};
use script_text::LineCutter;
use serving::{Handler, INPUT_MAX, serve};
use tsd_model::{Reply, Request};
use tsd_words::Status;

/// A handler that is lent, with a number beside it.
#[derive(Drop)]
pub struct Lent<'a, H> {
    pub handler: &'a mut H,
    pub number: u8,
}

impl<'a, H: Handler> Handler for Lent<'a, H> {
    ghost rules = { H.rules };

    ghost work = { H.work };

    ghost is_ready = { λ h. H.is_ready h.handler.now };

    ghost is_spent = { λ h. H.is_spent h.handler.now };

    ghost holds = { λ h x. H.holds h.handler.now x };

    ghost state = { λ h x. H.state h.handler.now x };

    ghost due = { λ h x. H.due h.handler.now x };

    ghost is_closed = { H.is_closed };

    ghost aside = { λ h. H.aside h.handler.now };

    ghost lender = { λ h. h.handler.ghost_name };

    ghost stands_now = { λ h x e. H.stands_now h.handler.now x e };

    ghost given_form = { H.given_form };

    fn apply<D: Device>(
        &mut self,
        dev: &mut D,
        request: &Request,
        into: &mut Reply,
    ) -> Result<(), Failed> {
        self.handler.apply(dev, request, into)
    }

    fn settle_some<D: Device>(&mut self, dev: &mut D) -> Result<bool, Failed> {
        self.handler.settle_some(dev)
    }

    fn close<D: Device>(&mut self, dev: &mut D) -> Result<(), Failed> {
        self.handler.close(dev)
    }
}

/// Serves the lines of an input by a handler that is lent.
pub fn serve_lent_lines<S: Source, P: Port, H: Handler>(
    handler: &mut H,
    number: u8,
    cutter: &mut LineCutter,
    source: &mut S,
    port: &mut P,
    limit: u64,
) -> Status
    requires few { limit ≤ INPUT_MAX }
    requires fresh { WasFed [] cutter.old }
    requires ready { H.is_ready handler.old }
    requires at { P.told → FitsDevice (H.holds handler.old) (P.view port.old) }
    ensures ran { (final : H.rules.States) × Ran result (spoken H.rules line_voice) H.work line_spelling
        (H.state handler.old (P.view port.old).reads) final limit
        (taking S.told S.taken S.left_bytes S.ended source.old source.new)
        (H.due handler.old (P.view port.old).reads) (moments P.told P.view port.old port.new)
        × (result ≡ Status.Done → P.told → IsFirm (P.view port.new)
        × H.rules.stands final (P.view port.new).reads × H.is_closed (P.view port.new).reads) }
    ensures spent { result ≡ Status.DeviceFault → H.is_spent handler.new }
    ensures faults { TellsFaults result (S.faults source.old) (S.faults source.new) (P.view port.old)
        (P.view port.new) }
{
    let mut lent = Lent { handler, number };
    serve::<S, P, LineCutter, Lent<'_, H>>(&mut lent, cutter, source, port, limit)
}
