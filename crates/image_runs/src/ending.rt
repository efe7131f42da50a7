//! A text that is put once the work is done.

ghost use Rattle.std.specs.Prelude.{◌≡◌};
ghost use Rattle.image_runs.specs.Sending.{HasPut, ended_by};

use image_device::{Failed, Port, put_all};
use script_text::OutBuf;
use tsd_words::Status;

/// Puts a text once the work is done. The status is that of the work, or PutFault where that count rose.
pub fn put_text<P: Port>(port: &mut P, text: &OutBuf, done: Status) -> Status
    ensures { HasPut P.told text.now done result (P.view port.old) (P.view port.new) }
{
    ended(put_all(port, text.as_slice()), done)
}

/// How a command ends that put a text once its work was done.
pub fn ended(put: Result<(), Failed>, done: Status) -> Status
    ensures { result ≡ ended_by put done }
{
    match put {
        Ok(()) => done,
        Err(_) => Status::PutFault,
    }
}
