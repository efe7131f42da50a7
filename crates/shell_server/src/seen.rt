//! The answers of asks that only look, as they are sent.

ghost use Rattle.std.specs.Prelude.{◌≤◌, IsTrue, length};
ghost use Rattle.fs_trees.specs.Names.{is_name};
ghost use Rattle.shell_server.specs.Carried.{SendsLine};
ghost use Rattle.shell_text.specs.Looked.{dir_here, file_of, looked_text, next_dir, next_file, none_left, part_of};

use crate::send::send_text;
use fs_trees::Name;
use image_device::Port;
use script_text::OutBuf;
use shell_text::{
    print_dir, print_file_size, print_next_dir, print_next_file, print_no_name, print_part,
};
use tsd_model::lists::DATA_MAX;
use tsd_words::Status;

/// Sends the line of a file, with how many bytes it has.
pub(crate) fn send_size<P: Port>(port: &mut P, size: u64) -> Result<(), Status>
    ensures { SendsLine P.told (looked_text (file_of size)) (P.view port.old) (P.view port.new) result }
{
    let mut line = OutBuf::new();
    print_file_size(size, &mut line);
    send_text(port, line.as_slice())
}

/// Sends the line of a directory.
pub(crate) fn send_dir<P: Port>(port: &mut P) -> Result<(), Status>
    ensures { SendsLine P.told (looked_text dir_here) (P.view port.old) (P.view port.new) result }
{
    let mut line = OutBuf::new();
    print_dir(&mut line);
    send_text(port, line.as_slice())
}

/// Sends the line of some of the bytes of a file.
pub(crate) fn send_part<P: Port>(port: &mut P, bytes: &[u8]) -> Result<(), Status>
    requires { length bytes.now ≤ DATA_MAX }
    ensures { SendsLine P.told (looked_text (part_of bytes.now)) (P.view port.old) (P.view port.new) result }
{
    let mut line = OutBuf::new();
    print_part(bytes, &mut line);
    send_text(port, line.as_slice())
}

/// Sends the line of the next name, which is that of a file, with how many bytes that has.
pub(crate) fn send_next_file<P: Port>(port: &mut P, name: &Name, size: u64) -> Result<(), Status>
    requires { IsTrue (is_name name.now) }
    ensures { SendsLine P.told (looked_text (next_file name.now size)) (P.view port.old) (P.view port.new) result }
{
    let mut line = OutBuf::new();
    print_next_file(name, size, &mut line);
    send_text(port, line.as_slice())
}

/// Sends the line of the next name, which is that of a directory.
pub(crate) fn send_next_dir<P: Port>(port: &mut P, name: &Name) -> Result<(), Status>
    requires { IsTrue (is_name name.now) }
    ensures { SendsLine P.told (looked_text (next_dir name.now)) (P.view port.old) (P.view port.new) result }
{
    let mut line = OutBuf::new();
    print_next_dir(name, &mut line);
    send_text(port, line.as_slice())
}

/// Sends the line of a directory that has no such name left.
pub(crate) fn send_no_name<P: Port>(port: &mut P) -> Result<(), Status>
    ensures { SendsLine P.told (looked_text none_left) (P.view port.old) (P.view port.new) result }
{
    let mut line = OutBuf::new();
    print_no_name(&mut line);
    send_text(port, line.as_slice())
}
