//! The words of a command line, parted: an option, images, and a command.

use std::alloc::{AllocError, Global};

/// The first word of a disk in memory.
pub const MEMORY: &str = "-";

/// The first word before two images that are one disk.
pub const MIRROR: &str = "mirror";

/// The word before the image where what is no disk may be overwritten.
pub const OVERWRITE: &str = "--overwrite";

/// A command line.
#[derive(Drop)]
pub struct Line {
    /// Whether what is no disk may be overwritten.
    pub overwrites: bool,

    /// What is served.
    pub target: Target,

    /// The words of the command.
    pub command: Vec<String>,
}

/// What is served.
#[derive(Drop)]
pub enum Target {
    /// A disk in memory.
    Memory,

    /// The image at a path.
    File(String),

    /// The images at two paths, as one disk.
    Sides(String, String),

    /// What `mirror` has behind it isn't two images.
    NoSides,
}

impl Line {
    /// The parts of these words: an option, an image or behind `mirror` two of them, and a command.
    pub fn of(alloc: Global, words: Vec<String>) -> Result<Line, AllocError> {
        let mut words = words.into_iter();
        let mut next = words.next();
        let overwrites = is_word(&next, OVERWRITE);
        if overwrites {
            next = words.next();
        }
        let target = if is_word(&next, MIRROR) {
            let first = words.next();
            sides_of(first, words.next())
        } else {
            image_of(alloc, next)
        };
        let mut command = Vec::new(alloc);
        for word in words {
            command.push(word)?;
        }
        Ok(Line {
            overwrites,
            target,
            command,
        })
    }
}

/// What two words behind `mirror` name.
fn sides_of(first: Option<String>, second: Option<String>) -> Target {
    let Some(first) = first else {
        return Target::NoSides;
    };
    match second {
        Some(second) => Target::Sides(first, second),
        None => Target::NoSides,
    }
}

/// What a word in the place of an image names.
fn image_of(alloc: Global, word: Option<String>) -> Target {
    let Some(word) = word else {
        return Target::File(String::new(alloc));
    };
    if word.as_str() == MEMORY {
        return Target::Memory;
    }
    Target::File(word)
}

/// The paths of the images in a command line.
pub fn images_of(words: &[String]) -> &[String] {
    let words = match words {
        [first, others @ ..] if first.as_str() == OVERWRITE => others,
        _ => words,
    };
    match words {
        [first, images @ ..] if first.as_str() == MIRROR => front_of(images, 2),
        [image, ..] if image.as_str() != MEMORY => front_of(words, 1),
        _ => front_of(words, 0),
    }
}

/// So many words, or all where they are fewer.
fn front_of(words: &[String], count: usize) -> &[String] {
    words.get(..count).unwrap_or(words)
}

/// Whether a word is this one.
fn is_word(word: &Option<String>, text: &str) -> bool {
    match word {
        Some(word) => word.as_str() == text,
        None => false,
    }
}
