//! Words for a person: of places, marks, files, bytes and lines.
use crate::case::place_of;
use crate::lines::without_end;
use fx_base::{Catalogue, Closed, Mark, NoMemory};
use fx_chain::Place;
use std::alloc::Global;

/// The largest number of bytes of a line that are shown.
const SHOWN: usize = 100;

/// The reason why a line without its end is wrong.
pub(crate) const CUT: &str = "the text ends within this line";

/// The column of [`Words::column`].
const COLUMN: usize = 44;

/// Words for a person, appended one after another. If an allocation fails, some are missing, and
/// [`Words::text`] returns the error.
#[derive(Drop)]
pub struct Words {
    words: String,
    pub(crate) is_whole: bool,
}

impl Words {
    /// Returns no words.
    pub fn new(alloc: Global) -> Words {
        Words {
            words: String::new(alloc),
            is_whole: true,
        }
    }

    /// Returns the words.
    ///
    /// # Errors
    /// `NoMemory` if an allocation failed.
    pub fn text(&self) -> Result<&str, NoMemory> {
        if self.is_whole {
            Ok(self.words.as_str())
        } else {
            Err(NoMemory)
        }
    }

    /// Returns the number of their bytes.
    pub fn len(&self) -> usize {
        self.words.len()
    }

    /// Discards the words.
    pub fn clear(&mut self) {
        self.words.clear();
    }

    /// Checks whether a text begins with the words.
    pub fn begin(&self, text: &[u8]) -> bool {
        text.starts_with(self.words.as_bytes())
    }

    /// Appends a text.
    pub fn say(&mut self, text: &str) {
        self.is_whole &= self.words.push_str(text).is_ok();
    }

    /// Appends a number.
    pub fn number(&mut self, number: u64) {
        self.is_whole &= write!(self.words, "{number}").is_ok();
    }

    /// Appends a number between two texts.
    pub fn count(&mut self, before: &str, number: u64, after: &str) {
        self.say(before);
        self.number(number);
        self.say(after);
    }

    /// Appends a result.
    pub fn result(&mut self, res: i32) {
        if res < 0 {
            self.say("-");
        }
        self.number(u64::from(res.unsigned_abs()));
    }

    // Appends bytes in lower case hexadecimal.
    fn hex(&mut self, bytes: &[u8]) {
        for byte in bytes {
            self.is_whole &= write!(self.words, "{byte:02x}").is_ok();
        }
    }

    /// Appends a place: `S.C.M`.
    pub fn place(&mut self, place: Place) {
        self.number(u64::from(place.submission));
        self.count(".", u64::from(place.chain), ".");
        self.number(u64::from(place.member));
    }

    /// Appends a mark: `rK.I` or `S.C.M.E`.
    pub fn mark(&mut self, mark: Mark) {
        match mark {
            Mark::Registered { k, i } => {
                self.count("r", u64::from(k), ".");
                self.number(u64::from(i));
            }
            Mark::Submitted {
                submission,
                chain,
                member,
                entry,
            } => {
                self.place(place_of(submission, chain, member));
                self.count(".", u64::from(entry), "");
            }
        }
    }

    /// Appends a file: its mark and its name.
    pub(crate) fn file(&mut self, catalogue: &Catalogue, file: Closed) {
        self.mark(file.mark);
        self.say(" ");
        self.say(name_of(catalogue, file.entry));
    }

    /// Appends bytes of a line of a script or a text, which are printable.
    pub(crate) fn bytes(&mut self, bytes: &[u8]) {
        for byte in bytes {
            self.is_whole &= self.words.push(char::from(*byte)).is_ok();
        }
    }

    /// Appends a space and the bytes of a read in hexadecimal, unless it has no bytes.
    pub fn got(&mut self, bytes: &[u8]) {
        if !bytes.is_empty() {
            self.say(" ");
            self.hex(bytes);
        }
    }

    // Appends at most 100 bytes: as `\xNN` each that isn't printable, and a space at the end.
    fn shown(&mut self, bytes: &[u8]) {
        for i in 0..bytes.len().min(SHOWN) {
            let byte = bytes[i];
            if byte < 32 || byte > 126 || byte == b' ' && i + 1 == bytes.len() {
                self.say("\\x");
                self.hex(&[byte]);
            } else {
                self.bytes(&[byte]);
            }
        }
    }

    /// Appends a line as a person is shown it: at most 100 bytes, and as `\xNN` each that isn't
    /// printable, and a space at the end of the line. For an empty or missing line it appends
    /// `none`.
    pub fn line(&mut self, line: &[u8], none: &str) {
        let bytes = without_end(line);
        self.shown(bytes);
        if bytes.is_empty() {
            self.say(none);
        } else if bytes.len() > SHOWN {
            self.say("..");
        } else if bytes.len() == line.len() {
            self.say(" without a line end");
        }
    }

    /// Appends spaces to the last line up to a column, unless it is longer.
    pub(crate) fn column(&mut self, from: usize) {
        for _ in self.words.len().saturating_sub(from)..COLUMN {
            self.say(" ");
        }
    }
}

/// Returns the sign before a word of a list: before the second and each later one, and before the
/// last one if that isn't the first.
pub fn sign_before(i: usize, count: usize, last: &'static str) -> &'static str {
    match i {
        0 => "",
        _ if i.saturating_add(1) == count => last,
        _ => ", ",
    }
}

/// Returns the name of a catalogue entry, or no bytes if there is no such entry.
pub(crate) fn name_of(catalogue: &Catalogue, entry: u8) -> &str {
    if u32::from(entry) < catalogue.len() {
        catalogue.name_of(entry)
    } else {
        ""
    }
}
