//! The facts that the lines of a submission's report show about its requests.
use crate::case::{Act, Case, Installed, Row, place_after, place_of, result_of};
use crate::lines::{Lines, cut_word};
use check_lines::{ReportLines, read_report};
use fx_base::{Closed, Errno, Mark, NoMemory};
use fx_chain::{Completion, Intent, Place, Request, intent_of, refusal_of};
use fx_order::Slots;

/// A `closed` line.
#[derive(Clone, Copy)]
pub(crate) struct Close<'a> {
    /// The name that the line has.
    pub name: &'a [u8],
    /// False if the text ends within the line.
    pub has_end: bool,
    /// Its mark, or `None` if the line can't be read.
    pub mark: Option<Mark>,
    /// The file with that mark, if there is one, with its earlier `closed` line, if it has one.
    pub file: Option<Installed>,
}

/// The requests of a submission, and the facts that its lines show, as far as they were read.
#[derive(Drop)]
pub struct Facts<'a> {
    pub(crate) case: Case<'a>,
    pub(crate) rows: Vec<Row<'a>>,
    /// The accesses of the requests that aren't refused, in order.
    pub(crate) acts: Vec<Act>,
    /// The files: first those that were at the slots, then the others in order of mark.
    pub(crate) files: Vec<Installed>,
    /// The `closed` lines after the completions, if each request has one.
    pub(crate) closes: Vec<Close<'a>>,
    /// The text after these lines.
    pub(crate) rest: Lines<'a>,
    // False if an allocation failed.
    is_whole: bool,
}

// The result of a request whose completion isn't read. No request has it.
const UNREAD: i32 = i32::MIN;

// Returns whether an access found a file, by the result of its request, or `None` if that doesn't
// show it.
fn found_by(intent: Intent, res: i32) -> Option<bool> {
    let (if_done, error) = match intent {
        Intent::Look(_) | Intent::Take(_) => (true, Errno::EBADF),
        Intent::Allocate(_) => (false, Errno::ENFILE),
        Intent::Put(..) | Intent::Clear(_) => return None,
    };
    if res >= 0 {
        Some(if_done)
    } else if res == result_of(error) {
        Some(!if_done)
    } else {
        None
    }
}

impl<'a> Facts<'a> {
    // Adds a file that is at a slot before the submission, or that the request of a line installs.
    fn add_file(&mut self, file: Closed, slot: u32, line: Option<usize>) {
        let installed = Installed {
            file,
            slot,
            line,
            closed: None,
        };
        self.is_whole &= self.files.push(installed).is_ok();
    }

    // Adds the files at the slots before the submission.
    fn add_files(&mut self) {
        let mut slot = 0u32;
        for file in &self.case.slots.at {
            if let Some(file) = *file {
                self.add_file(file, slot, None);
            }
            slot = slot.saturating_add(1);
        }
    }

    // Reads a line of a completion if `count` is 1, or a `closed` line if it is 0.
    fn read(&mut self, line: &[u8], count: usize) -> Option<ReportLines> {
        let found = read_report(self.case.alloc, line, count);
        self.is_whole &= found.is_ok();
        Some(found.ok()??.0)
    }

    // Checks whether each request has a completion.
    fn is_answered(&self) -> bool {
        match self.rows.last() {
            Some(row) => row.answer.is_some(),
            None => true,
        }
    }

    // Takes the next line if it is the completion of the request at a place, and each earlier
    // request has one.
    fn take_completion(&mut self, place: Place) -> Option<Completion> {
        if !self.is_answered() {
            return None;
        }
        let mut after = self.rest;
        let it = self.read(after.take(), 1)?.completions.pop()?;
        if it.place != place {
            return None;
        }
        self.rest = after;
        Some(it)
    }

    // Checks whether an open or an update may succeed with its completion, whatever is at the
    // slots.
    fn may_install(&self, row: &Row<'_>) -> bool {
        let Some(it) = &row.answer else {
            return false;
        };
        if !it.got.is_empty() {
            return false;
        }
        let (first, count) = self.case.slots.range;
        match (row.fixed_result(), u32::try_from(it.res)) {
            (Some(res), _) => it.res == res,
            (None, Ok(slot)) => slot >= first && slot - first < count,
            (None, Err(_)) => false,
        }
    }

    // Returns an access of the request of a line, with the facts that the request's result shows
    // about it. Adds the file that the access installed, if the request may succeed so.
    fn act_of(&mut self, intent: Intent, line: usize, res: i32, may_install: bool) -> Act {
        let (asked, put) = match intent {
            Intent::Look(slot) | Intent::Take(slot) | Intent::Clear(slot) => (Some(slot), None),
            Intent::Put(slot, file) => (Some(slot), Some(file)),
            Intent::Allocate(file) => (None, Some(file)),
        };
        let slot = asked.or(u32::try_from(res).ok());
        let (is_done, mut file) = (res >= 0, None);
        if let (Some(added), true, Some(slot)) = (put, may_install, slot)
            && (slot as usize) < self.case.size()
        {
            file = Some(self.files.len());
            self.add_file(added, slot, Some(line));
        }
        Act {
            intent,
            asked,
            put,
            line,
            slot,
            found: found_by(intent, res),
            is_done,
            file,
        }
    }

    // Adds the accesses of a request that isn't refused.
    fn add_acts(&mut self, row: &Row<'_>) {
        let catalogue = self.case.catalogue;
        let res = row.answer.as_ref().map_or(UNREAD, |it| it.res);
        let may_install = self.may_install(row);
        for made in 0..row.request.accesses() {
            let Some(intent) = intent_of(catalogue, u32::MAX, row.place, row.request, made) else {
                break;
            };
            let act = self.act_of(intent, row.at, res, may_install);
            self.is_whole &= self.acts.push(act).is_ok();
        }
    }

    // Adds a request. `chain`: the number of the first access of its chain.
    fn add(&mut self, request: &'a Request, place: Place, chain: usize) {
        let size = u32::try_from(self.case.size()).unwrap_or(u32::MAX);
        let first = self.acts.len();
        let mut row = Row {
            request,
            place,
            at: self.rows.len(),
            refusal: refusal_of(self.case.catalogue, size, request),
            acts: (chain, first, first),
            answer: self.take_completion(place),
        };
        if row.refusal.is_none() {
            self.add_acts(&row);
            row.acts.2 = self.acts.len();
        }
        self.is_whole &= self.rows.push(row).is_ok();
    }

    // Adds the requests, and reads the lines of their completions.
    fn add_requests(&mut self) {
        let mut place = place_of(self.case.submissions.saturating_add(1), 1, 1);
        let mut chain = 0usize;
        for request in self.case.requests {
            if place.member == 1 {
                chain = self.acts.len();
            }
            self.add(request, place, chain);
            place = place_after(place, request);
        }
    }

    // Returns the marks of the files in their order, each with its file's number, from 0.
    fn marks(&self) -> Result<Vec<(Mark, usize)>, NoMemory> {
        let mut marks = Vec::new(self.case.alloc);
        for (number, it) in self.files.iter().enumerate() {
            marks.push((it.file.mark, number))?;
        }
        marks.sort()?;
        Ok(marks)
    }

    // Returns the mark of a `closed` line, if the line can be read.
    fn mark_in(&mut self, line: &[u8]) -> Option<Mark> {
        Some(self.read(line, 0)?.closed.first()?.mark)
    }

    // Records the `closed` lines, and the first one of each file.
    fn take_closes(&mut self) -> Result<(), NoMemory> {
        let marks = self.marks()?;
        for _ in 0..self.rest.rest.len() {
            if !self.rest.rest.starts_with(b"closed ") {
                break;
            }
            let at = self.rest.before;
            let line = self.rest.take();
            let (mark, mut file) = (self.mark_in(line), None);
            if let Some(mark) = mark
                && let Ok(found) = marks.binary_search_by_key(&mark, |it| it.0)
                && let Some((_, number)) = marks.get(found)
                && let Some(it) = self.files.get_mut(*number)
            {
                file = Some(*it);
                it.closed = it.closed.or(Some(at));
            }
            let close = Close {
                name: cut_word(cut_word(line).1).1,
                has_end: line.ends_with(b"\n"),
                mark,
                file,
            };
            self.is_whole &= self.closes.push(close).is_ok();
        }
        Ok(())
    }

    /// Returns the facts of a case.
    ///
    /// # Errors
    /// `NoMemory` if an allocation fails.
    pub fn new(case: &Case<'a>) -> Result<Facts<'a>, NoMemory> {
        let alloc = case.alloc;
        let mut facts = Facts {
            case: *case,
            rows: Vec::new(alloc),
            acts: Vec::new(alloc),
            files: Vec::new(alloc),
            closes: Vec::new(alloc),
            rest: Lines::new(case.text.rest),
            is_whole: true,
        };
        facts.add_files();
        facts.add_requests();
        if facts.is_answered() {
            facts.take_closes()?;
        }
        facts.is_whole.then_some(facts).ok_or(NoMemory)
    }

    /// Returns the accesses from one on up to another one, by their numbers.
    pub(crate) fn acts_between(&self, from: usize, to: usize) -> &[Act] {
        self.acts.get(from..to).unwrap_or(&[])
    }

    /// Returns the chain of the request of a line, or 0 if it isn't that of a request.
    pub(crate) fn chain_of(&self, line: usize) -> u32 {
        self.rows.get(line).map_or(0, |row| row.place.chain)
    }

    /// Returns the slots that the text shows after the submission, and the rest of the text. A file
    /// that was at a slot, or that a completion installs there, is there unless it has a `closed`
    /// line. A completion that claims what its request can't do installs nothing. Returns `None` if
    /// a request has no completion, or if two files are at one slot.
    ///
    /// # Errors
    /// `NoMemory` if an allocation fails.
    pub fn slots_after(&self) -> Result<Option<(Slots, &'a [u8])>, NoMemory> {
        if !self.is_answered() {
            return Ok(None);
        }
        let mut at = vec![in self.case.alloc; None; self.case.size()]?;
        for it in &self.files {
            let slot = it.slot as usize;
            if it.closed.is_none() {
                if slot >= at.len() || at[slot].is_some() {
                    return Ok(None);
                }
                at[slot] = Some(it.file);
            }
        }
        let range = self.case.slots.range;
        Ok(Some((Slots { range, at }, self.rest.after_closes().rest)))
    }
}
