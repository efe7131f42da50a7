//! Names of files as they are printed: no name makes a line of its own, moves a cursor, or is read by a shell as more
//! than one word.

use std::fmt::{self, Formatter};

/// A name within a line for people: as it is, or where it has a character that isn't shown as itself, as the word of a
/// shell that spells it.
#[derive(Clone, Copy, Debug)]
pub struct Shown<'a> {
    /// The name.
    pub name: &'a str,
}

/// A name as one word of a command for a shell: as it is, or in quotes.
#[derive(Clone, Copy, Debug)]
pub struct Quoted<'a> {
    /// The name.
    pub name: &'a str,
}

impl fmt::Display for Shown<'_> {
    fn fmt<W: fmt::Write>(&self, f: &mut Formatter<W>) -> fmt::Result {
        if self.name.chars().any(is_hidden) {
            write_spelt(f, self.name)
        } else {
            f.write_str(self.name)
        }
    }
}

impl fmt::Display for Quoted<'_> {
    fn fmt<W: fmt::Write>(&self, f: &mut Formatter<W>) -> fmt::Result {
        if self.name.chars().any(is_hidden) {
            write_spelt(f, self.name)
        } else if !self.name.is_empty() && self.name.bytes().all(is_plain) {
            f.write_str(self.name)
        } else {
            write_quoted(f, self.name)
        }
    }
}

/// Whether a character isn't shown as itself: a control character, or one that parts lines or turns their direction.
fn is_hidden(char: char) -> bool {
    char.is_control()
        || matches!(char, '\u{200e}' | '\u{200f}' | '\u{2028}'..='\u{202e}' | '\u{2066}'..='\u{2069}')
}

/// Whether a byte stands for itself in a word of a shell.
fn is_plain(byte: u8) -> bool {
    byte.is_ascii_alphanumeric()
        || matches!(
            byte,
            b'/' | b'.' | b'_' | b'-' | b'+' | b',' | b':' | b'@' | b'%' | b'='
        )
}

/// Writes a name between quotes.
fn write_quoted<W: fmt::Write>(f: &mut Formatter<W>, name: &str) -> fmt::Result {
    f.write_str("'")?;
    for char in name.chars() {
        match char {
            '\'' => f.write_str("'\\''")?,
            _ => f.write_char(char)?,
        }
    }
    f.write_str("'")
}

/// Writes a name between quotes of the kind in which a shell reads a backslash, with what isn't shown spelt out.
fn write_spelt<W: fmt::Write>(f: &mut Formatter<W>, name: &str) -> fmt::Result {
    f.write_str("$'")?;
    for char in name.chars() {
        match char {
            '\n' => f.write_str("\\n")?,
            '\'' | '\\' => write!(f, "\\{char}")?,
            _ if char.is_ascii_control() => write!(f, "\\x{:02x}", u32::from(char))?,
            _ if is_hidden(char) => write!(f, "\\u{:04x}", u32::from(char))?,
            _ => f.write_char(char)?,
        }
    }
    f.write_str("'")
}
