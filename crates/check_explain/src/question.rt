//! A question that a judge is asked, and the facts of the submission at which its text breaks.
use crate::case::Case;
use crate::facts::Facts;
use crate::lines::{AskedLine, Lines};
use check_judge::Break;
use check_lines::accepted_in;
use fx_base::NoMemory;
use fx_script::{Command, Script};
use std::alloc::Global;

/// A script, and a text that is judged for it.
#[derive(Clone, Copy)]
pub struct Question<'a> {
    /// The allocator of each explanation.
    pub alloc: Global,
    /// The script.
    pub script: &'a Script,
    /// The lines of the script that are commands or requests.
    pub asked: &'a [AskedLine<'a>],
    /// The text.
    pub text: &'a [u8],
}

/// A place in a script and in a text, from which a later one is found.
#[derive(Clone, Copy)]
pub struct TextPlace<'a> {
    // The number of commands before it.
    commands: usize,
    /// The lines of the script from those of the next command on.
    pub asked: &'a [AskedLine<'a>],
    /// The lines of the text there.
    pub text: Lines<'a>,
}

// Returns the number of lines of a script that a command and its requests have.
fn lines_of(command: &Command) -> usize {
    match command {
        Command::Submit(requests) => requests.len().saturating_add(1),
        _ => 1,
    }
}

impl<'a> Question<'a> {
    /// Returns the place before the first command.
    pub fn beginning(&self) -> TextPlace<'a> {
        TextPlace {
            commands: 0,
            asked: self.asked,
            text: Lines::new(self.text),
        }
    }

    /// Returns the place of a break, which isn't before `from`. No line before `from` is read
    /// again.
    pub fn place_of(&self, broken: &Break, from: TextPlace<'a>) -> TextPlace<'a> {
        let commands = self.script.commands().get(from.commands..broken.commands);
        let mut lines = 0usize;
        for command in commands.unwrap_or(&[]) {
            lines = lines.saturating_add(lines_of(command));
        }
        let passed = self.text.len().saturating_sub(from.text.rest.len());
        TextPlace {
            commands: broken.commands,
            asked: from.asked.get(lines..).unwrap_or(&[]),
            text: from.text.after_bytes(broken.at.saturating_sub(passed)),
        }
    }

    /// Returns the number of the line of the script that ends the command at a place, from 1, or 0
    /// if there is none.
    pub fn line_at(&self, place: &TextPlace<'_>) -> u64 {
        let Some(command) = self.script.commands().get(place.commands) else {
            return 0;
        };
        let last = lines_of(command).saturating_sub(1);
        place.asked.get(last).map_or(0, |line| line.number)
    }

    /// Returns the facts of the submission at a break and its place, if it is one that is accepted.
    ///
    /// # Errors
    /// `NoMemory` if an allocation fails.
    pub fn facts_at<'b>(
        &'b self,
        broken: &'b Break,
        place: &TextPlace<'b>,
    ) -> Result<Option<Facts<'b>>, NoMemory> {
        let submissions = broken.ring.submissions;
        let command = self.script.commands().get(broken.commands);
        let Some(requests) = command.and_then(|command| accepted_in(command, submissions)) else {
            return Ok(None);
        };
        let facts = Facts::new(&Case {
            alloc: self.alloc,
            catalogue: self.script.catalogue(),
            slots: &broken.ring.slots,
            submissions,
            asked: place.asked,
            requests,
            text: place.text,
        })?;
        Ok(Some(facts))
    }
}
