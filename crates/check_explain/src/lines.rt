//! Lines of scripts and texts, and their numbers.
ghost use Rattle.std.specs.Prelude.{◌≤◌, length};

use std::alloc::{AllocError, Global};

// Returns the number of bytes of a text up to the first `end`, that one included.
fn length_to(text: &[u8], end: u8) -> usize
    ensures { result ≤ length text.now }
{
    match text.iter().position(|byte| *byte == end) {
        Some(i) => i + 1,
        None => text.len(),
    }
}

/// Returns a line without its end.
pub(crate) fn without_end(line: &[u8]) -> &[u8] {
    line.strip_suffix(b"\n").unwrap_or(line)
}

/// Returns the first word of a line, and its other words.
pub fn cut_word(line: &[u8]) -> (&[u8], &[u8]) {
    let line = without_end(line);
    let (word, rest) = line.split_at(length_to(line, b' '));
    (word.strip_suffix(b" ").unwrap_or(word), rest)
}

/// The lines of a text from one on.
#[derive(Clone, Copy)]
pub struct Lines<'a> {
    /// Their bytes.
    pub rest: &'a [u8],
    /// The number of lines before them.
    pub before: usize,
}

impl<'a> Lines<'a> {
    /// Returns all lines of a text.
    pub fn new(text: &'a [u8]) -> Lines<'a> {
        Lines {
            rest: text,
            before: 0,
        }
    }

    /// Returns the lines from the one that begins `count` bytes after the first one on.
    pub fn after_bytes(self, count: usize) -> Lines<'a> {
        let (front, rest) = self.rest.split_at(count.min(self.rest.len()));
        let lines = front.iter().filter(|byte| **byte == b'\n').count();
        let before = self.before.saturating_add(lines);
        Lines { rest, before }
    }

    /// Takes the first line, its end included. It is empty if there are no lines.
    pub fn take(&mut self) -> &'a [u8] {
        let (line, rest) = self.rest.split_at(length_to(self.rest, b'\n'));
        self.rest = rest;
        if line.ends_with(b"\n") {
            self.before = self.before.saturating_add(1);
        }
        line
    }

    /// Returns the first line, its end included. It is empty if there are no lines.
    pub fn first(mut self) -> &'a [u8] {
        self.take()
    }

    /// Returns the number of the first line, from 1.
    pub fn number(self) -> u64 {
        self.before.saturating_add(1) as u64
    }

    /// Returns the lines after the first `count` ones.
    pub fn after(mut self, count: usize) -> Lines<'a> {
        for _ in 0..count {
            self.take();
        }
        self
    }

    /// Returns the lines after those of closed files and of tags with which they begin, whatever
    /// these say.
    pub fn after_closes(mut self) -> Lines<'a> {
        for _ in 0..self.rest.len() {
            if !self.rest.starts_with(b"closed ") && !self.rest.starts_with(b"tag ") {
                break;
            }
            self.take();
        }
        self
    }
}

/// A line of a script that is a command or a request.
#[derive(Clone, Copy)]
pub struct AskedLine<'a> {
    /// Its bytes without its end.
    pub bytes: &'a [u8],
    /// Its number in the script, from 1.
    pub number: u64,
}

/// Returns the lines of a script that are commands or requests, in order.
///
/// # Errors
/// `AllocError` if an allocation fails.
pub fn asked_lines(alloc: Global, script: &[u8]) -> Result<Vec<AskedLine<'_>>, AllocError> {
    let (mut asked, mut lines) = (Vec::new(alloc), Lines::new(script));
    for _ in 0..script.len() {
        let number = lines.number();
        let bytes = without_end(lines.take());
        if !bytes.is_empty() && !bytes.starts_with(b"#") && !bytes.starts_with(b"file ") {
            asked.push(AskedLine { bytes, number })?;
        }
    }
    Ok(asked)
}
