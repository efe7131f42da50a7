//! The ask that a frame's body spells.

ghost use Rattle.std.specs.Prelude.{◌≡◌, ◌⊎◌};
ghost use Rattle.request_frames.specs.Reading.{ends};
ghost use Rattle.fs_trees.specs.declared.ask.ShellAsk.TheVariants as shell;
ghost use Rattle.shell_text.specs.declared.file_ask.FileAsk.{FileAsk};
ghost use Rattle.shell_text.specs.declared.file_ask.FileAsk.TheVariants as file;
ghost use Rattle.shell_text.specs.FileBodies.{IsAskBody};
ghost use Rattle.shell_text.specs.FileReading.{put_of, append_of, cat_of, ls_of, make_dir_of, rm_of, copy_of};
ghost use Rattle.shell_text.specs.FileReading.{size_of, read_of, next_of, of_inodes, coded, asked, file_ask_of};

use crate::body::{read_after, read_path, read_start};
use crate::file_ask::FileAsk;
use fs_trees::{ShellAsk, ShellKind};
use request_frames::reader::BodyReader;

/// An empty tree.
const MAKE: u8 = 1;

/// A file with these bytes.
const PUT: u8 = 2;

/// Bytes at the end of a file.
const APPEND: u8 = 3;

/// The bytes of a file.
const CAT: u8 = 4;

/// The names in a directory.
const LS: u8 = 5;

/// A new directory.
const MAKE_DIR: u8 = 6;

/// The end of a file, or of a directory without entries.
const RM: u8 = 7;

/// A new file with the bytes of another.
const COPY: u8 = 8;

/// The number of free blocks.
const DF: u8 = 9;

/// What stands at a path.
const SIZE: u8 = 16;

/// Some bytes of a file.
const READ: u8 = 17;

/// The least name above another.
const NEXT: u8 = 18;

/// The ask that the body of a frame spells for a layout, and Bad where it spells none.
pub fn decode_ask(kind: ShellKind, body: &[u8]) -> FileAsk
    // What is read is spelled so, from the first byte to the last.
    /// promise (with only): An ask exactly where the body is its spelling for that layout, with nothing after the last
    /// field, and `Bad` exactly where it is none's.
    ensures spelled { (result ≡ file.Shell shell.Bad) ⊎ IsAskBody kind body.now result }
    // What is spelled so is read: so no body asks two things. No body spells Bad.
    ensures only { (a : FileAsk) → IsAskBody kind body.now a → result ≡ a }
    // As a function that computes.
    ensures value { result ≡ file_ask_of kind body.now }
{
    read_body(kind, body)
}

/// What a body says.
#[tactic(auto, unfolding(crate::specs::FileReading::file_ask_of))]
fn read_body(kind: ShellKind, body: &[u8]) -> FileAsk
    ensures { result ≡ file_ask_of kind body.now }
{
    match asked(kind, BodyReader::of(body)) {
        Some(ask) => ask,
        None => FileAsk::Shell { ask: ShellAsk::Bad },
    }
}

#[tactic(auto, unfolding(crate::specs::FileReading::asked))]
fn asked(kind: ShellKind, mut reader: BodyReader) -> Option<FileAsk>
    ensures { result ≡ asked kind reader.entry }
{
    let code = reader.byte()?;
    coded(kind, code, reader)
}

/// The ask by its code.
#[tactic(auto, unfolding(crate::specs::FileReading::coded))]
fn coded(kind: ShellKind, code: u8, reader: BodyReader) -> Option<FileAsk>
    ensures { result ≡ coded kind code reader.entry }
{
    match code {
        MAKE => shell(reader, ShellAsk::Make),
        PUT => put(reader),
        APPEND => append(reader),
        CAT => cat(reader),
        LS => ls(reader),
        MAKE_DIR => make_dir(kind, reader),
        RM => rm(reader),
        COPY => copy(kind, reader),
        DF => shell(reader, ShellAsk::Df),
        SIZE => size(reader),
        READ => read(reader),
        NEXT => next(reader),
        _ => None,
    }
}

/// The ask, where no byte is left.
fn done(reader: BodyReader, ask: FileAsk) -> Option<FileAsk>
    ensures { result ≡ ends reader.entry ask }
{
    if reader.is_empty() { Some(ask) } else { None }
}

/// The ask of the shell, where no byte is left.
fn shell(reader: BodyReader, ask: ShellAsk) -> Option<FileAsk>
    ensures { result ≡ ends reader.entry (file.Shell ask) }
{
    done(reader, FileAsk::Shell { ask })
}

#[tactic(auto, unfolding(crate::specs::FileReading::put_of))]
fn put(mut reader: BodyReader) -> Option<FileAsk>
    ensures { result ≡ put_of reader.entry }
{
    let path = read_path(&mut reader)?;
    let bytes = reader.data()?;
    shell(reader, ShellAsk::Put { path, bytes })
}

#[tactic(auto, unfolding(crate::specs::FileReading::append_of))]
fn append(mut reader: BodyReader) -> Option<FileAsk>
    ensures { result ≡ append_of reader.entry }
{
    let path = read_path(&mut reader)?;
    let bytes = reader.data()?;
    shell(reader, ShellAsk::Append { path, bytes })
}

#[tactic(auto, unfolding(crate::specs::FileReading::cat_of))]
fn cat(mut reader: BodyReader) -> Option<FileAsk>
    ensures { result ≡ cat_of reader.entry }
{
    let path = read_path(&mut reader)?;
    shell(reader, ShellAsk::Cat { path })
}

#[tactic(auto, unfolding(crate::specs::FileReading::ls_of))]
fn ls(mut reader: BodyReader) -> Option<FileAsk>
    ensures { result ≡ ls_of reader.entry }
{
    let path = read_path(&mut reader)?;
    shell(reader, ShellAsk::Ls { path })
}

/// A new directory: inodes alone have those.
#[tactic(auto, unfolding(crate::specs::FileReading::make_dir_of))]
fn make_dir(kind: ShellKind, mut reader: BodyReader) -> Option<FileAsk>
    ensures { result ≡ of_inodes kind make_dir_of reader.entry }
{
    match kind {
        ShellKind::Inode => {
            let path = read_path(&mut reader)?;
            shell(reader, ShellAsk::MakeDir { path })
        }
        ShellKind::Chain => None,
    }
}

#[tactic(auto, unfolding(crate::specs::FileReading::rm_of))]
fn rm(mut reader: BodyReader) -> Option<FileAsk>
    ensures { result ≡ rm_of reader.entry }
{
    let path = read_path(&mut reader)?;
    shell(reader, ShellAsk::Rm { path })
}

/// A copy: inodes alone have those.
#[tactic(auto, unfolding(crate::specs::FileReading::copy_of))]
fn copy(kind: ShellKind, mut reader: BodyReader) -> Option<FileAsk>
    ensures { result ≡ of_inodes kind copy_of reader.entry }
{
    match kind {
        ShellKind::Inode => {
            let path = read_path(&mut reader)?;
            let new = read_path(&mut reader)?;
            shell(reader, ShellAsk::Copy { path, new })
        }
        ShellKind::Chain => None,
    }
}

#[tactic(auto, unfolding(crate::specs::FileReading::size_of))]
fn size(mut reader: BodyReader) -> Option<FileAsk>
    ensures { result ≡ size_of reader.entry }
{
    let path = read_path(&mut reader)?;
    done(reader, FileAsk::Size { path })
}

#[tactic(auto, unfolding(crate::specs::FileReading::read_of))]
fn read(mut reader: BodyReader) -> Option<FileAsk>
    ensures { result ≡ read_of reader.entry }
{
    let path = read_path(&mut reader)?;
    let start = read_start(&mut reader)?;
    let count = reader.number()?;
    done(reader, FileAsk::Read { path, start, count })
}

#[tactic(auto, unfolding(crate::specs::FileReading::next_of))]
fn next(mut reader: BodyReader) -> Option<FileAsk>
    ensures { result ≡ next_of reader.entry }
{
    let path = read_path(&mut reader)?;
    let after = read_after(&mut reader)?;
    done(reader, FileAsk::Next { path, after })
}
