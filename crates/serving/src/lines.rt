//! Lines as a protocol.

ghost use Rattle.image_device.specs.Runs.{PutsAll};
ghost use Rattle.script_text.specs.Lines.{WasFed};
ghost use Rattle.serving.specs.LineSpelling.{line_of, line_spelling, line_voice};
ghost use Rattle.serving.specs.LineLaws.{lines_lawful, lines_apart};

use crate::protocol::{Ending, Fed, Protocol};
use crate::replies::Replies;
use image_device::{Failed, Port, put_all};
use script_text::{LineCutter, OutBuf, ShortLine, parse_line, print_reply, put_short_line};
use tsd_model::{Reply, Request};

impl Protocol for LineCutter {
    type Request = Request;

    ghost spelling = { line_spelling };

    ghost was_fed = { WasFed };

    ghost lawful = { lines_lawful };

    fn blank() -> Request {
        Request::Bad
    }

    fn feed(&mut self, piece: &[u8], into: &mut Request) -> Fed {
        let fed = LineCutter::feed(self, piece);
        if fed.whole {
            parse_line(self.line(), into);
        }
        Fed {
            used: fed.used,
            whole: fed.whole,
        }
    }

    #[inline(never)]
    fn ending(&self) -> Ending<Request> {
        let rest = self.rest();
        if rest.is_empty() {
            return Ending::Nothing;
        }
        let mut request = Request::Bad;
        parse_line(rest, &mut request);
        Ending::One(request)
    }
}

impl Replies for LineCutter {
    ghost voice = { line_voice };

    ghost apart = { lines_apart };

    fn put_reply<P: Port>(port: &mut P, reply: &Reply) -> Result<(), Failed> {
        let mut line = ShortLine::new();
        if put_short_line(reply, &mut line) {
            put_all(port, line.as_slice())
        } else {
            put_long(port, reply)
        }
    }
}

/// Sends a reply whole. It stays a call, so that a short reply pays for no room of a long one.
#[inline(never)]
fn put_long<P: Port>(port: &mut P, reply: &Reply) -> Result<(), Failed>
    ensures { PutsAll P.told (line_of reply.now) (P.view port.old) (P.view port.new) result }
{
    let mut text = OutBuf::new();
    print_reply(reply, &mut text);
    put_all(port, text.as_slice())
}
