//! The answers that a request may give, whatever the other requests answer (docs/inside/MODEL.md,
//! "What a request answers").
use crate::case::{Act, Row, result_of, slots_of};
use crate::facts::Facts;
use crate::words::{Words, name_of, sign_before};
use fx_base::Errno;
use fx_chain::{Completion, Intent};
use std::alloc::AllocError;

/// The largest number of answers, and of bytes of a file, that are shown.
const SHOWN: usize = 16;

/// A content that requests leave at a slot, and their chain, or `None` if it may be any.
pub(crate) type Left = (Option<u8>, Option<u32>);

/// An answer that a request may give: one of the results from `first` to `last`, with the bytes
/// that it reads of a file of an entry, or with none.
#[derive(Clone, Copy)]
struct ValidAnswer {
    first: i32,
    last: i32,
    entry: Option<u8>,
}

/// The answers that a request of a submission may give.
#[derive(Drop)]
pub(crate) struct Answers<'a> {
    pub facts: &'a Facts<'a>,
    // For each slot, the contents that requests leave there.
    left: &'a [Vec<Left>],
    list: Vec<ValidAnswer>,
    // The bytes that were read last.
    bytes: Vec<u8>,
    /// False if an allocation failed.
    pub is_whole: bool,
}

// Returns the content that an access leaves at its slot, or `None` if it changes nothing.
fn content_after(act: &Act) -> Option<Option<u8>> {
    match (act.intent, act.put) {
        (Intent::Look(_), _) => None,
        (_, Some(file)) => Some(Some(file.entry)),
        (_, None) => Some(None),
    }
}

// Adds a content to those that requests leave at a slot. `by`: the chain of the request, or `None`
// if it may be any.
fn add_content(
    there: &mut Vec<Left>,
    content: Option<u8>,
    by: Option<u32>,
) -> Result<(), AllocError> {
    for i in 0..there.len() {
        if there[i].0 == content {
            if there[i].1 != by {
                there[i].1 = None;
            }
            return Ok(());
        }
    }
    Ok(there.push((content, by))?)
}

// Adds the content that an access leaves at each slot that it may reach.
fn add_left(facts: &Facts<'_>, act: &Act, left: &mut [Vec<Left>]) -> Result<(), AllocError> {
    let Some(content) = content_after(act) else {
        return Ok(());
    };
    let mut by = None;
    if act.asked.is_some() {
        by = Some(facts.chain_of(act.line));
    }
    let (first, end) = slots_of(act.asked, facts.case.slots.range);
    for slot in first..end {
        if let Some(there) = left.get_mut(slot as usize) {
            add_content(there, content, by)?;
        }
    }
    Ok(())
}

/// Returns for each slot the contents that requests leave there, each once.
pub(crate) fn left_at_slots(facts: &Facts<'_>) -> Result<Vec<Vec<Left>>, AllocError> {
    let mut left: Vec<Vec<Left>> = Vec::new(facts.case.alloc);
    for _ in 0..facts.case.size() {
        left.push(Vec::new(facts.case.alloc))?;
    }
    for act in &facts.acts {
        add_left(facts, act, &mut left)?;
    }
    Ok(left)
}

// Returns the content that a slot has before a request if no other chain changes it: that of the
// last earlier member of its chain, or else that before the submission.
fn content_before(facts: &Facts<'_>, row: &Row<'_>, slot: u32) -> Option<u8> {
    let mut content = match facts.case.slots.at.get(slot as usize) {
        Some(Some(file)) => Some(file.entry),
        _ => None,
    };
    let (from, to, _) = row.acts;
    for act in facts.acts_between(from, to) {
        if act.asked == Some(slot)
            && let Some(left) = content_after(act)
        {
            content = left;
        }
    }
    content
}

// Checks whether a slot had a file before the submission, or a request that names it installs one.
fn may_have_file(facts: &Facts<'_>, slot: u32) -> bool {
    if let Some(Some(_)) = facts.case.slots.at.get(slot as usize) {
        return true;
    }
    let mut acts = facts.acts.iter();
    acts.any(|act| act.asked == Some(slot) && act.put.is_some())
}

/// Replaces some bytes by those that a request reads of a file of an entry, or by none without one.
/// Returns false if an allocation fails.
pub(crate) fn read(
    facts: &Facts<'_>,
    row: &Row<'_>,
    entry: Option<u8>,
    bytes: &mut Vec<u8>,
) -> bool {
    bytes.clear();
    match entry {
        Some(entry) => {
            let catalogue = facts.case.catalogue;
            row.request.read_into(catalogue, entry, bytes).is_ok()
        }
        None => true,
    }
}

// Appends an answer: its result, or its range of results, its first 16 bytes, and the name of the
// file that has them.
fn say_answer(facts: &Facts<'_>, row: &Row<'_>, answer: &ValidAnswer, words: &mut Words) {
    words.result(answer.first);
    if answer.first < answer.last {
        words.say(" to ");
        words.result(answer.last);
    }
    if let Some(entry) = answer.entry {
        let mut bytes = Vec::new(facts.case.alloc);
        words.is_whole &= read(facts, row, answer.entry, &mut bytes);
        words.got(bytes.get(..SHOWN).unwrap_or(&bytes));
        words.say(if bytes.len() > SHOWN {
            ".. of "
        } else {
            " of "
        });
        words.say(name_of(facts.case.catalogue, entry));
    }
}

impl<'a> Answers<'a> {
    /// Returns no answers. `left`: the contents that requests leave at the slots.
    pub(crate) fn new(facts: &'a Facts<'a>, left: &'a [Vec<Left>]) -> Answers<'a> {
        Answers {
            facts,
            left,
            list: Vec::new(facts.case.alloc),
            bytes: Vec::new(facts.case.alloc),
            is_whole: true,
        }
    }

    // Appends an answer: one of some results, with the bytes of a file of an entry or with none.
    fn push(&mut self, first: i32, last: i32, entry: Option<u8>) {
        self.is_whole &= self.list.push(ValidAnswer { first, last, entry }).is_ok();
    }

    // Appends the answer of an error.
    fn push_error(&mut self, errno: Errno) {
        self.push(result_of(errno), result_of(errno), None);
    }

    // Appends the answer of a read of a file of an entry, unless it is there, or that of a close of
    // any file.
    fn push_file(&mut self, row: &Row<'_>, entry: u8) {
        let entry = row.request.is_read().then_some(entry);
        if self.list.iter().any(|answer| answer.entry == entry) {
            return;
        }
        self.is_whole &= read(self.facts, row, entry, &mut self.bytes);
        let number = i32::try_from(self.bytes.len()).unwrap_or(i32::MAX);
        self.push(number, number, entry);
    }

    // Appends the answers of an open at any slot of the allocation range.
    fn push_open(&mut self) {
        let facts = self.facts;
        let (first, count) = facts.case.slots.range;
        if count > 0 {
            let last = first.saturating_add(count).saturating_sub(1);
            let first = i32::try_from(first).unwrap_or(i32::MAX);
            self.push(first, i32::try_from(last).unwrap_or(i32::MAX), None);
        }
        self.push_error(Errno::ENFILE);
    }

    // Appends the answers of a read or a close of a slot, by the contents that the slot may have
    // before it: its content if no other chain changes it, and those that other chains leave. A
    // later member of the request's chain comes too late.
    fn push_slot(&mut self, row: &Row<'_>, slot: u32) {
        let mut is_empty = false;
        match content_before(self.facts, row, slot) {
            Some(entry) => self.push_file(row, entry),
            None => is_empty = true,
        }
        let left = self.left;
        if let Some(left) = left.get(slot as usize) {
            for (content, by) in left {
                match content {
                    _ if *by == Some(row.place.chain) => {}
                    Some(entry) => self.push_file(row, *entry),
                    None => is_empty = true,
                }
            }
        }
        if is_empty {
            self.push_error(Errno::EBADF);
        }
    }

    // Appends the answers that a request may give by what its access finds.
    fn push_found(&mut self, row: &Row<'_>) {
        let facts = self.facts;
        let (_, from, to) = row.acts;
        for act in facts.acts_between(from, to) {
            match act.asked {
                None => self.push_open(),
                Some(slot) => self.push_slot(row, slot),
            }
        }
        if row.request.bytes_asked() > 0 {
            self.push_error(Errno::ENOMEM);
        }
    }

    /// Replaces the answers by those that a request may give. `severed`: whether an earlier member
    /// severed its chain.
    pub(crate) fn set(&mut self, row: &Row<'_>, severed: bool) {
        self.list.clear();
        if severed {
            self.push_error(Errno::ECANCELED);
        } else if let Some(res) = row.fixed_result() {
            self.push(res, res, None);
        } else {
            self.push_found(row);
        }
    }

    /// Checks whether one of them, the answers of a request, is that of its completion.
    pub(crate) fn have(&mut self, row: &Row<'_>, it: &Completion) -> bool {
        for answer in &self.list {
            if answer.first <= it.res && it.res <= answer.last {
                self.is_whole &= read(self.facts, row, answer.entry, &mut self.bytes);
                if self.bytes.as_slice() == it.got.as_slice() {
                    return true;
                }
            }
        }
        false
    }

    // Checks whether other requests may fill the allocation range: each slot that was empty needs
    // an access that names it and installs a file, or an open at any slot.
    fn may_be_full(&self, row: &Row<'_>) -> bool {
        let facts = self.facts;
        let (first, end) = slots_of(None, facts.case.slots.range);
        let empty = (first..end).filter(|slot| !may_have_file(facts, *slot));
        let acts = facts.acts.iter();
        let opens = acts.filter(|act| act.asked.is_none() && act.line != row.at);
        empty.count() <= opens.count()
    }

    /// Checks whether one of them, the answers of a request, severs its chain.
    pub(crate) fn may_sever(&self, row: &Row<'_>) -> bool {
        for answer in &self.list {
            let it = Completion {
                place: row.place,
                res: answer.first,
                got: Vec::new(self.facts.case.alloc),
            };
            let is_full = it.is_refusal(row.place, Errno::ENFILE);
            if row.request.severs(&it) && (!is_full || self.may_be_full(row)) {
                return true;
            }
        }
        false
    }

    /// Appends the first 16 of them, the answers of a request.
    pub(crate) fn say(&self, row: &Row<'_>, words: &mut Words) {
        for (i, answer) in self.list.iter().enumerate() {
            if i >= SHOWN {
                words.say(" or others");
                break;
            }
            words.say(sign_before(i, self.list.len(), " or "));
            say_answer(self.facts, row, answer, words);
        }
    }
}
