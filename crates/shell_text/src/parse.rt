//! The ask that a line spells.

ghost use Rattle.std.specs.Prelude.{◌≡◌, ◌⊎◌, ℕ, List, take};
ghost use Rattle.script_text.specs.Grammar.{held_max};
ghost use Rattle.script_text.specs.Reading.{ends};
ghost use Rattle.fs_trees.specs.declared.ask.ShellAsk.{ShellAsk};
ghost use Rattle.shell_text.specs.Grammar.{IsShellLine};
ghost use Rattle.shell_text.specs.Reading.{put_of, append_of, cat_of, ls_of, rm_of, make_dir_of, copy_of, of_inodes};
ghost use Rattle.shell_text.specs.Reading.{named, asked, ask_of};

use crate::words::{bytes_in, path_in};
use fs_trees::{ShellAsk, ShellKind};
use script_text::Words;
use script_text::parse::LINE_MAX;

/// The ask that a line spells for a layout, and Bad where it spells none. The line comes without its line feed.
pub fn parse_shell(kind: ShellKind, line: &[u8]) -> ShellAsk
    // What is read is spelled so.
    /// promise (with only): An ask exactly where the line is its spelling for that layout, by a grammar apart from the
    /// code, and `Bad` exactly where it is none's; so no line asks two things.
    ensures spelled { (result ≡ ShellAsk.Bad) ⊎ IsShellLine kind line.now result }
    // What is spelled so is read: so no line has two asks. No line spells Bad.
    ensures only { (a : ShellAsk) → IsShellLine kind line.now a → result ≡ a }
    // A longer line is as bad where it is cut to one byte more than a line may have.
    /// promise: A line that is too long is as bad where it is cut.
    ensures cut { (whole : List ℕ) → line.now ≡ take held_max whole → result ≡ ask_of kind whole }
    // As a function that computes.
    ensures value { result ≡ ask_of kind line.now }
{
    read_line(kind, line)
}

#[tactic(auto, unfolding(crate::specs::Reading::ask_of))]
fn read_line(kind: ShellKind, line: &[u8]) -> ShellAsk
    ensures { result ≡ ask_of kind line.now }
{
    if line.len() > LINE_MAX {
        return ShellAsk::Bad;
    }
    match asked(kind, Words::of(line)) {
        Some(ask) => ask,
        None => ShellAsk::Bad,
    }
}

#[tactic(auto, unfolding(crate::specs::Reading::asked))]
fn asked(kind: ShellKind, mut words: Words) -> Option<ShellAsk>
    ensures { result ≡ asked kind words.entry }
{
    let name = words.next()?;
    named(kind, name, words)
}

/// The ask by its first word.
#[tactic(auto, unfolding(crate::specs::Reading::named))]
fn named(kind: ShellKind, name: &[u8], words: Words) -> Option<ShellAsk>
    ensures { result ≡ named kind name.now words.entry }
{
    if name == b"mkfs".as_slice() {
        done(words, ShellAsk::Make)
    } else if name == b"put".as_slice() {
        put(words)
    } else if name == b"append".as_slice() {
        append(words)
    } else if name == b"cat".as_slice() {
        cat(words)
    } else if name == b"ls".as_slice() {
        ls(words)
    } else if name == b"mkdir".as_slice() {
        make_dir(kind, words)
    } else if name == b"rm".as_slice() {
        rm(words)
    } else if name == b"cp".as_slice() {
        copy(kind, words)
    } else if name == b"df".as_slice() {
        done(words, ShellAsk::Df)
    } else {
        None
    }
}

/// The ask, where no word is left.
fn done(words: Words, ask: ShellAsk) -> Option<ShellAsk>
    ensures { result ≡ ends words.entry ask }
{
    if words.is_empty() { Some(ask) } else { None }
}

#[tactic(auto, unfolding(crate::specs::Reading::put_of))]
fn put(mut words: Words) -> Option<ShellAsk>
    ensures { result ≡ put_of words.entry }
{
    let path = path_in(&mut words)?;
    let bytes = bytes_in(&mut words)?;
    done(words, ShellAsk::Put { path, bytes })
}

#[tactic(auto, unfolding(crate::specs::Reading::append_of))]
fn append(mut words: Words) -> Option<ShellAsk>
    ensures { result ≡ append_of words.entry }
{
    let path = path_in(&mut words)?;
    let bytes = bytes_in(&mut words)?;
    done(words, ShellAsk::Append { path, bytes })
}

#[tactic(auto, unfolding(crate::specs::Reading::cat_of))]
fn cat(mut words: Words) -> Option<ShellAsk>
    ensures { result ≡ cat_of words.entry }
{
    let path = path_in(&mut words)?;
    done(words, ShellAsk::Cat { path })
}

#[tactic(auto, unfolding(crate::specs::Reading::ls_of))]
fn ls(mut words: Words) -> Option<ShellAsk>
    ensures { result ≡ ls_of words.entry }
{
    let path = path_in(&mut words)?;
    done(words, ShellAsk::Ls { path })
}

#[tactic(auto, unfolding(crate::specs::Reading::rm_of))]
fn rm(mut words: Words) -> Option<ShellAsk>
    ensures { result ≡ rm_of words.entry }
{
    let path = path_in(&mut words)?;
    done(words, ShellAsk::Rm { path })
}

/// A new directory: inodes alone have those.
#[tactic(auto, unfolding(crate::specs::Reading::make_dir_of))]
fn make_dir(kind: ShellKind, mut words: Words) -> Option<ShellAsk>
    ensures { result ≡ of_inodes kind make_dir_of words.entry }
{
    match kind {
        ShellKind::Inode => {
            let path = path_in(&mut words)?;
            done(words, ShellAsk::MakeDir { path })
        }
        ShellKind::Chain => None,
    }
}

/// A copy: inodes alone have those.
#[tactic(auto, unfolding(crate::specs::Reading::copy_of))]
fn copy(kind: ShellKind, mut words: Words) -> Option<ShellAsk>
    ensures { result ≡ of_inodes kind copy_of words.entry }
{
    match kind {
        ShellKind::Inode => {
            let path = path_in(&mut words)?;
            let new = path_in(&mut words)?;
            done(words, ShellAsk::Copy { path, new })
        }
        ShellKind::Chain => None,
    }
}
