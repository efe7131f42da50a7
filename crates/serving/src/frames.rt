//! Frames as a protocol.

ghost use Rattle.image_device.specs.Runs.{PutsAll};
ghost use Rattle.request_frames.specs.Cutting.{WasFed};
ghost use Rattle.tsd_model.specs.ReplyForm.{HasBody};
ghost use Rattle.serving.specs.FrameSpelling.{frame_reply, frame_spelling, frame_voice};
ghost use Rattle.serving.specs.FrameLaws.{frames_lawful, frames_apart};

use crate::protocol::{Ending, Fed, Protocol};
use crate::replies::Replies;
use image_device::{Failed, Port, put_all};
use request_frames::{
    FrameBuf, FrameCutter, ShortFrame, decode_body, encode_reply, put_short_frame,
};
use tsd_model::{Reply, Request};

impl Protocol for FrameCutter {
    type Request = Request;

    ghost spelling = { frame_spelling };

    ghost was_fed = { WasFed };

    ghost lawful = { frames_lawful };

    fn blank() -> Request {
        Request::Bad
    }

    fn feed(&mut self, piece: &[u8], into: &mut Request) -> Fed {
        let fed = FrameCutter::feed(self, piece);
        if fed.whole {
            decode_body(self.body(), into);
        }
        Fed {
            used: fed.used,
            whole: fed.whole,
        }
    }

    #[inline(never)]
    fn ending(&self) -> Ending<Request> {
        if self.is_inside() {
            return Ending::CutOff;
        }
        Ending::Nothing
    }
}

impl Replies for FrameCutter {
    ghost voice = { frame_voice };

    ghost apart = { frames_apart };

    fn put_reply<P: Port>(port: &mut P, reply: &Reply) -> Result<(), Failed> {
        let mut frame = ShortFrame::new();
        if put_short_frame(reply, &mut frame) {
            put_all(port, frame.as_slice())
        } else {
            put_long(port, reply)
        }
    }
}

/// Sends a reply whole. It stays a call, so that a short reply pays for no room of a long one.
#[inline(never)]
fn put_long<P: Port>(port: &mut P, reply: &Reply) -> Result<(), Failed>
    requires { HasBody reply.now }
    ensures { PutsAll P.told (frame_reply reply.now) (P.view port.old) (P.view port.new) result }
{
    let mut frame = FrameBuf::new();
    encode_reply(reply, &mut frame);
    put_all(port, frame.as_slice())
}
