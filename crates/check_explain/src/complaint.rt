//! Complaints about the lines of a submission, for a person. They are advice, on which no verdict
//! rests.
use crate::contradiction::no_order;
use crate::facts::Facts;
use crate::words::Words;
use crate::wrong_answer::wrong_answer;
use crate::wrong_files::{wrong_close, wrong_count};
use fx_base::NoMemory;

/// Invalid lines of a submission's report.
#[derive(Drop)]
pub struct Complaint {
    /// The numbers of the lines in order, which count from 0 at the first line of the report.
    pub lines: Vec<usize>,
    /// The lines that would be valid in the place of a wrong line, or no words if the lines
    /// contradict each other.
    pub expected: Words,
    /// The reason. Of a wrong line it may be empty.
    pub why: Words,
}

impl Complaint {
    /// Adds a line.
    pub(crate) fn line(&mut self, at: usize) {
        self.why.is_whole &= self.lines.push(at).is_ok();
    }

    /// Says that a line is wrong, in fixed words.
    pub(crate) fn wrong(&mut self, at: usize, expected: &str, why: &str) {
        self.line(at);
        self.expected.say(expected);
        self.why.say(why);
    }
}

impl Facts<'_> {
    /// Looks for the first invalid lines of the submission. `slot`: the slot that the judge blames,
    /// if it blames one.
    ///
    /// # Errors
    /// `NoMemory` if an allocation fails.
    pub fn explain(&self, slot: Option<u32>) -> Result<Option<Complaint>, NoMemory> {
        let alloc = self.case.alloc;
        let mut out = Complaint {
            lines: Vec::new(alloc),
            expected: Words::new(alloc),
            why: Words::new(alloc),
        };
        let is_found = wrong_answer(self, &mut out)?
            || wrong_close(self, &mut out)
            || wrong_count(self, &mut out)?
            || no_order(self, slot, &mut out)?;
        if !out.expected.is_whole || !out.why.is_whole {
            return Err(NoMemory);
        }
        Ok(is_found.then_some(out))
    }
}
