//! The answer of an ask that changes the tree, as it is sent.

ghost use Rattle.std.specs.Prelude.{◌≡◌, ◌≢◌, [], ◌∷◌, ◌++◌, IfErr};
ghost use Rattle.fs_trees.specs.Answer.{bad, done, available, refused};
ghost use Rattle.shell_text.specs.Texts.{answer_text};
ghost use Rattle.image_device.specs.Runs.{PutsAll};
ghost use Rattle.shell_server.specs.Carried.{IsOneLine, SendsLine, change_line};

use fs_port::FsRefusal;
use image_device::{Port, put_all};
use script_text::OutBuf;
use shell_text::{print_bad, print_done, print_end, print_free, print_refusal};
use tsd_words::Status;

/// Sends the line of a change, or nothing where the device failed.
pub fn send_change<P: Port>(port: &mut P, outcome: Result<(), FsRefusal>) -> Result<(), Status>
    ensures failed { outcome ≡ Err FsRefusal.Device → result ≡ Err Status.DeviceFault }
    ensures silent { outcome ≡ Err FsRefusal.Device → port.new ≡ port.old }
    ensures line { outcome ≢ Err FsRefusal.Device → IsOneLine outcome }
    ensures stops { outcome ≢ Err FsRefusal.Device → IfErr result (λ why. why ≡ Status.PutFault) }
    ensures puts { outcome ≢ Err FsRefusal.Device → PutsAll P.told (change_line outcome) (P.view port.old)
        (P.view port.new) result }
{
    match outcome {
        Ok(()) => send_done(port),
        Err(FsRefusal::Device) => Err(Status::DeviceFault),
        Err(why) => send_refusal(port, &why),
    }
}

/// Sends the line of a change that was made.
fn send_done<P: Port>(port: &mut P) -> Result<(), Status>
    ensures { SendsLine P.told (answer_text done) (P.view port.old) (P.view port.new) result }
{
    let mut line = OutBuf::new();
    print_done(&mut line);
    send_text(port, line.as_slice())
}

/// Sends the line of a refusal.
fn send_refusal<P: Port>(port: &mut P, why: &FsRefusal) -> Result<(), Status>
    requires { why.now ≢ FsRefusal.Device }
    ensures { SendsLine P.told (answer_text (refused why.now)) (P.view port.old) (P.view port.new) result }
{
    let mut line = OutBuf::new();
    print_refusal(why, &mut line);
    send_text(port, line.as_slice())
}

/// Sends the line of a number of free blocks.
pub(crate) fn send_free<P: Port>(port: &mut P, count: u32) -> Result<(), Status>
    ensures stops { IfErr result (λ why. why ≡ Status.PutFault) }
    ensures puts { PutsAll P.told (answer_text (available count) ++ 10 ∷ []) (P.view port.old) (P.view port.new)
        result }
{
    let mut line = OutBuf::new();
    print_free(count, &mut line);
    send_text(port, line.as_slice())
}

/// Sends the line of what asks nothing.
pub(crate) fn send_bad<P: Port>(port: &mut P) -> Result<(), Status>
    ensures { SendsLine P.told (answer_text bad) (P.view port.old) (P.view port.new) result }
{
    let mut line = OutBuf::new();
    print_bad(&mut line);
    send_text(port, line.as_slice())
}

/// Sends the end of a line.
pub(crate) fn send_end<P: Port>(port: &mut P) -> Result<(), Status>
    ensures stops { IfErr result (λ why. why ≡ Status.PutFault) }
    ensures puts { PutsAll P.told (10 ∷ []) (P.view port.old) (P.view port.new) result }
{
    let mut line = OutBuf::new();
    print_end(&mut line);
    send_text(port, line.as_slice())
}

/// Sends a text whole.
pub(crate) fn send_text<P: Port>(port: &mut P, text: &[u8]) -> Result<(), Status>
    ensures stops { IfErr result (λ why. why ≡ Status.PutFault) }
    ensures puts { PutsAll P.told text.now (P.view port.old) (P.view port.new) result }
{
    match put_all(port, text) {
        Ok(()) => Ok(()),
        Err(_) => Err(Status::PutFault),
    }
}
