//! A file system as the shell asks it.

use crate::site::{Site, Tested};
use crate::words::expanded;
use fs_trees::{FsRefusal, Name, Path, ShellAsk};
use shell_text::{
    ShellBuf, parse_shell, print_bad, print_data_head, print_data_part, print_done, print_end,
    print_free, print_name, print_names_head, print_refusal,
};
use std::alloc::Global;

/// Adds what was printed.
fn add(said: &mut Vec<u8>, text: &ShellBuf) -> Result<(), FsRefusal> {
    match said.extend_from_slice(text.as_slice()) {
        Ok(()) => Ok(()),
        Err(_) => Err(FsRefusal::Device),
    }
}

/// The names in a directory, one by one, and the line's end.
fn list<F: Tested>(site: &mut Site<F>, path: &Path, said: &mut Vec<u8>) -> Result<(), FsRefusal> {
    let mut text = ShellBuf::new();
    let mut last = Name::new();
    for at in 0..129 {
        let next = site.name_after(path, &last)?;
        if at == 0 {
            print_names_head(next.is_none(), &mut text);
            add(said, &text)?;
        }
        match next {
            None => {
                print_end(&mut text);
                return add(said, &text);
            }
            Some(name) => {
                print_name(&name, &mut text);
                add(said, &text)?;
                last = name;
            }
        }
    }
    Err(FsRefusal::Device)
}

/// The bytes of a file, and the line's end.
fn read<F: Tested>(
    alloc: Global,
    site: &mut Site<F>,
    path: &Path,
    said: &mut Vec<u8>,
) -> Result<(), FsRefusal> {
    let bytes = site.cat(alloc, path)?;
    let mut text = ShellBuf::new();
    print_data_head(bytes.is_empty(), &mut text);
    add(said, &text)?;
    for byte in bytes.as_slice() {
        print_data_part(&[*byte], &mut text);
        add(said, &text)?;
    }
    print_end(&mut text);
    add(said, &text)
}

/// Carries out an ask whose answer is one word.
fn change<F: Tested>(site: &mut Site<F>, ask: ShellAsk) -> Result<(), FsRefusal> {
    match ask {
        ShellAsk::Make => site.make(),
        ShellAsk::Put { path, bytes } => site.put(&path, &bytes),
        ShellAsk::Append { path, bytes } => site.append(&path, &bytes),
        ShellAsk::MakeDir { path } => site.make_dir(&path),
        ShellAsk::Rm { path } => site.remove(&path),
        ShellAsk::Copy { path, new } => site.copy(&path, &new),
        _ => Err(FsRefusal::Device),
    }
}

/// Carries out a line and adds its answer where it isn't refused.
fn carry_out<F: Tested>(
    alloc: Global,
    site: &mut Site<F>,
    line: &[u8],
    said: &mut Vec<u8>,
) -> Result<(), FsRefusal> {
    let mut text = ShellBuf::new();
    match parse_shell(site.files.kind(), line) {
        ShellAsk::Bad => print_bad(&mut text),
        ShellAsk::Df => print_free(site.free()?, &mut text),
        ShellAsk::Cat { path } => return read(alloc, site, &path, said),
        ShellAsk::Ls { path } => return list(site, &path, said),
        other => {
            change(site, other)?;
            print_done(&mut text)
        }
    }
    add(said, &text)
}

/// What is answered to a line, with its line feed; Device where the disk failed. In the line `61*3` stands for
/// `616161`.
pub fn answer_to<F: Tested>(
    alloc: Global,
    site: &mut Site<F>,
    line: &str,
) -> Result<Vec<u8>, FsRefusal> {
    let mut said = Vec::new(alloc);
    let asked = match expanded(alloc, line) {
        Ok(asked) => asked,
        Err(_) => return Err(FsRefusal::Device),
    };
    match carry_out(alloc, site, asked.as_slice(), &mut said) {
        Ok(()) => Ok(said),
        Err(FsRefusal::Device) => Err(FsRefusal::Device),
        Err(refusal) => {
            let mut text = ShellBuf::new();
            let mut said = Vec::new(alloc);
            print_refusal(&refusal, &mut text);
            add(&mut said, &text)?;
            Ok(said)
        }
    }
}
