//! Texts that stand for long ones, and what lines say.

use fs_trees::{Path, ShellAsk, ShellKind};
use shell_text::parse_shell;
use std::alloc::{AllocError, Global};
use tsd_model::Data;

/// Repeats the last two digits, which stand there once, so many times in all.
fn repeat(all: &mut Vec<u8>, count: u32) -> Result<(), AllocError> {
    let len = all.len();
    if len >= 2 {
        let digits = [all[len - 2], all[len - 1]];
        for _ in 1..count {
            all.extend_from_slice(&digits)?;
        }
    }
    Ok(())
}

/// A text in which `61*3` stands for `616161`, and a comma for nothing.
pub fn expanded(alloc: Global, text: &str) -> Result<Vec<u8>, AllocError> {
    let mut all = Vec::new(alloc);
    let mut count: Option<u32> = None;
    for byte in text.as_bytes() {
        match (count, *byte) {
            (Some(so_far), b'0'..=b'9') => {
                count = Some(
                    so_far
                        .saturating_mul(10)
                        .saturating_add((*byte % 16) as u32),
                )
            }
            (Some(times), _) => {
                repeat(&mut all, times)?;
                count = None;
            }
            (None, _) => {}
        }
        match (count, *byte) {
            (Some(_), _) | (None, b',') => {}
            (None, b'*') => count = Some(0),
            (None, other) => all.push(other)?,
        }
    }
    repeat(&mut all, count.unwrap_or(0))?;
    Ok(all)
}

/// The path that a word spells; None where it is none.
pub fn name_path(word: &[u8]) -> Option<Path> {
    let mut line = Data::new();
    line.extend_from_slice(b"ls ").ok()?;
    line.extend_from_slice(word).ok()?;
    match parse_shell(ShellKind::Inode, line.as_slice()) {
        ShellAsk::Ls { path } => Some(path),
        _ => None,
    }
}

/// The bytes that such a text of digits spells; None where it spells none.
pub fn bytes_of(alloc: Global, digits: &str) -> Option<Data> {
    let mut line = Vec::new(alloc);
    line.extend_from_slice(b"put / ").ok()?;
    line.extend_from_slice(expanded(alloc, digits).ok()?.as_slice())
        .ok()?;
    match parse_shell(ShellKind::Inode, line.as_slice()) {
        ShellAsk::Put { path: _, bytes } => Some(bytes),
        _ => None,
    }
}
