//! Prints one whole history of a script and a legal text: an event or an answer on each line, with
//! the state of the table after it.
use crate::case::{place_after, place_of};
use crate::lines::{AskedLine, Lines, cut_word};
use crate::question::Question;
use crate::words::Words;
use fx_base::{Closed, Mark, NoMemory};
use fx_chain::{Place, Request};
use fx_order::{Access, AccessPlace, Order};
use fx_ring::tag_at;
use fx_script::Command;

/// A request's place, its line of the script without its end, and its result as the text has it.
#[derive(Clone, Copy)]
struct Answer<'a> {
    place: Place,
    request: &'a [u8],
    result: &'a [u8],
}

/// The maker of an access: a request, by its place, or a command, by its word.
#[derive(Clone, Copy)]
enum Maker<'a> {
    Request(Place),
    Command(&'a [u8]),
}

/// A history that is printed command by command, in the order of the script: the rest of the
/// script's lines, of the text and of the orders. At most one file is held or removed at a time,
/// since a history is written in which what was looked up is released at once, and what was removed
/// is closed at once.
#[derive(Drop)]
pub struct History<'a> {
    question: &'a Question<'a>,
    asked: &'a [AskedLine<'a>],
    text: Lines<'a>,
    orders: &'a [Order],
    // The number of accepted lists.
    lists: u32,
    // The file at each slot. Without a table there are no slots.
    at: Vec<Option<Closed>>,
    // The maker of the next access.
    who: Maker<'a>,
    // The file that a request holds, and the one that was removed and isn't closed yet.
    held: Option<Closed>,
    removed: Option<Closed>,
    // The lines that aren't printed yet, and the place at which the last one begins, which may be
    // unfinished.
    lines: Words,
    last: usize,
}

// Checks whether no access from one on is of a request.
fn is_last(places: &[AccessPlace], from: usize, request: &AccessPlace) -> bool {
    for at in from..places.len() {
        if places[at].chain == request.chain {
            return places[at].member != request.member;
        }
    }
    true
}

impl<'a> History<'a> {
    /// Returns the history of a legal text before the first command of a script, with the orders of
    /// its submissions: a line that says that the text is legal.
    pub fn new(question: &'a Question<'a>, orders: &'a [Order]) -> History<'a> {
        let mut lines = Words::new(question.alloc);
        lines.say("legal\n");
        History {
            question,
            asked: question.asked,
            text: Lines::new(question.text),
            orders,
            lists: 0,
            at: Vec::new(question.alloc),
            who: Maker::Command(b""),
            held: None,
            removed: None,
            last: lines.len(),
            lines,
        }
    }

    /// Returns the lines that aren't printed yet.
    pub fn lines(&self) -> &Words {
        &self.lines
    }

    /// Discards the lines, once they are printed.
    pub fn clear(&mut self) {
        self.lines.clear();
        self.last = 0;
    }

    // Takes the next line of the script that is a command or a request.
    fn next_asked(&mut self) -> &'a [u8] {
        match self.asked {
            [line, rest @ ..] => {
                self.asked = rest;
                line.bytes
            }
            [] => b"",
        }
    }

    // Takes the next line of the text. Returns it without its first word.
    fn next_answer(&mut self) -> &'a [u8] {
        cut_word(self.text.take()).1
    }

    // Returns the file at a slot.
    fn file_at(&self, slot: u32) -> Option<Closed> {
        *self.at.get(slot as usize)?
    }

    // Appends the state: each slot that has a file, with the file's mark, and the file that was
    // removed.
    fn push_state(&mut self) {
        let mut sign = "";
        for (slot, file) in self.at.iter().enumerate() {
            if let Some(Closed { mark, .. }) = *file {
                self.lines.count(sign, slot as u64, " ");
                self.lines.mark(mark);
                if self.held == *file {
                    self.lines.say(" held");
                }
                sign = ", ";
            }
        }
        if self.at.is_empty() {
            self.lines.say("no table");
        } else if sign.is_empty() {
            self.lines.say("empty");
        }
        if let Some(file) = self.removed {
            self.lines.say(", removed ");
            self.lines.mark(file.mark);
        }
    }

    // Ends the unfinished line with the state.
    fn end_line(&mut self) {
        self.lines.column(self.last);
        self.lines.say(" | ");
        self.push_state();
        self.lines.say("\n");
        self.last = self.lines.len();
    }

    // Appends the beginning of an event: its maker and its name.
    fn push_name(&mut self, name: &str) {
        match self.who {
            Maker::Request(place) => self.lines.place(place),
            Maker::Command(word) => self.lines.bytes(word),
        }
        self.lines.say(" ");
        self.lines.say(name);
    }

    // Appends the line of an event of a file: its tag is in the line, unless it is 0.
    fn push_event(&mut self, name: &str, file: Mark, tag: u64) {
        self.push_name(name);
        self.lines.mark(file);
        self.lines.say(")");
        if tag != 0 {
            self.lines.count(" tag ", tag, "");
        }
        self.end_line();
    }

    // Appends the events of an access (docs/inside/MODEL.md, "Steps"), and applies it. The first
    // event has the slot, the file that was installed, and the mark of the file that was found, or
    // `none` unless the access looks for an empty slot.
    fn push_access(&mut self, access: Access) {
        let (name, slot, put, found, none) = match access {
            Access::Looks(slot, found) => ("Look(", slot, None, found, ", none"),
            Access::Clears(slot, found) => ("Clear(", slot, None, found, ", none"),
            Access::Takes(slot, found) => ("Take(", slot, None, found, ", none"),
            Access::Puts(slot, file, found) => ("Put(", slot, Some(file), found, ", none"),
            Access::Allocates(slot, file) => ("Allocate(", slot, Some(file), None, ""),
            Access::FindsFull => {
                self.push_name("Full");
                return self.end_line();
            }
        };
        self.push_name(name);
        self.lines.number(u64::from(slot));
        if let Some(file) = put {
            self.lines.say(", ");
            self.lines.file(self.question.script.catalogue(), file);
        }
        self.lines.say(if found.is_some() { ", " } else { none });
        if let Some(file) = found {
            self.lines.mark(file.mark);
        }
        self.lines.say(")");
        if matches!(access, Access::Looks(..)) {
            self.held = found;
        } else {
            self.removed = found;
            if let Some(at) = self.at.get_mut(slot as usize) {
                *at = put;
            }
        }
        self.end_access();
    }

    // Ends the line of the first event of an access, and appends the events of the files that were
    // held and removed.
    fn end_access(&mut self) {
        self.end_line();
        if let Some(file) = self.held.take() {
            self.push_event("Release(", file.mark, 0);
        }
        if let Some(file) = self.removed.take() {
            self.push_event("Close(", file.mark, file.tag);
        }
    }

    // Appends the effect of each number of a list on its slot, from the slot `off` on. `clears`:
    // whether -1 empties its slot.
    fn push_list(&mut self, off: u32, list: &[i32], tags: Option<&[u64]>, clears: bool) {
        self.lists = self.lists.saturating_add(1);
        let mut i = 0u32;
        for number in list {
            let slot = off.saturating_add(i);
            let found = self.file_at(slot);
            if let Ok(entry) = u8::try_from(*number) {
                let mark = Mark::Registered { k: self.lists, i };
                let tag = tag_at(tags, i as usize);
                self.push_access(Access::Puts(slot, Closed { mark, entry, tag }, found));
            } else if clears && *number == -1 {
                self.push_access(Access::Clears(slot, found));
            }
            i = i.saturating_add(1);
        }
    }

    // Appends the closes of all files.
    fn push_closes(&mut self) {
        let mut slot = 0u32;
        for _ in 0..self.at.len() {
            if let Some(file) = self.file_at(slot) {
                self.push_access(Access::Clears(slot, Some(file)));
            }
            slot = slot.saturating_add(1);
        }
    }

    // Appends the events of a call between submissions that was accepted.
    fn push_events(&mut self, command: &Command) -> Result<(), NoMemory> {
        match command {
            Command::Sparse(slots) => self.at = vec![in self
                .question
                .alloc; None; *slots as usize]?,
            Command::Register(list, tags) => {
                self.at = vec![in self.question.alloc; None; list.len()]?;
                self.push_list(0, list, tags.as_deref(), false);
            }
            Command::Unregister => {
                self.push_closes();
                self.at.clear();
            }
            Command::Update(off, list, tags) => self.push_list(*off, list, tags.as_deref(), true),
            Command::Range(_, _) | Command::Submit(_) => {}
        }
        Ok(())
    }

    // Appends a command that the next line of the text answers alone.
    fn push_call(&mut self, command: &Command) -> Result<(), NoMemory> {
        let (line, answer) = (self.next_asked(), self.next_answer());
        self.text = self.text.after_closes();
        if !answer.starts_with(b"-") && !answer.starts_with(b"refused") {
            self.who = Maker::Command(cut_word(line).0);
            self.push_events(command)?;
        }
        self.push_answer(line, answer);
        Ok(())
    }

    // Ends the unfinished line with a request or a command, its answer, and the state.
    fn push_answer(&mut self, line: &[u8], answer: &[u8]) {
        self.lines.bytes(line);
        self.lines.say(" answers ");
        self.lines.bytes(answer);
        self.end_line();
    }

    // Appends answers from one on up to a member of a chain, and, if `canceled`, those of the
    // canceled ones after it. Returns the next one.
    fn push_answers(
        &mut self,
        answers: &[Answer<'_>],
        from: usize,
        (chain, member): (u32, u32),
        canceled: bool,
    ) -> usize {
        for at in from..answers.len() {
            let Answer {
                place,
                request,
                result,
            } = answers[at];
            let is_canceled = canceled && result == b"-125".as_slice();
            if place.chain != chain || place.member > member && !is_canceled {
                return at;
            }
            self.lines.place(place);
            self.lines.say(" ");
            self.push_answer(request, result);
        }
        answers.len()
    }

    // Appends the lines of a submission, by the answers of its requests and their order. A request
    // answers after its last access; one that makes none answers when its chain has reached it.
    // `next`: the first request of each chain that hasn't answered yet.
    fn push_turns(&mut self, answers: &[Answer<'_>], order: &Order, next: &mut [usize]) {
        for i in 0..order.places.len() {
            let at = &order.places[i];
            let (chain, member) = (at.chain, at.member);
            let turn = next.get_mut((chain as usize).saturating_sub(1));
            if let (Some(turn), Some(made)) = (turn, order.accesses.get(i)) {
                let before = (chain, member.saturating_sub(1));
                *turn = self.push_answers(answers, *turn, before, false);
                self.who = Maker::Request(place_of(order.submission, chain, member));
                self.push_access(made.access);
                if is_last(&order.places, i.saturating_add(1), at) {
                    *turn = self.push_answers(answers, *turn, (chain, member), true);
                }
            }
        }
    }

    // Takes the lines of a submission's requests in the script, and their lines of the text.
    // Appends the number of the first request of each chain to `next`.
    fn answers(
        &mut self,
        requests: &[Request],
        submission: u32,
        next: &mut Vec<usize>,
    ) -> Result<Vec<Answer<'a>>, NoMemory> {
        let (mut answers, mut place) = (Vec::new(self.question.alloc), place_of(submission, 1, 1));
        for request in requests {
            if place.member == 1 {
                next.push(answers.len())?;
            }
            let (result, _) = cut_word(self.next_answer());
            answers.push(Answer {
                place,
                request: self.next_asked(),
                result,
            })?;
            place = place_after(place, request);
        }
        Ok(answers)
    }

    // Appends the lines of an accepted submission with an order of its requests, and takes its
    // lines of the script and of the text. The script has the submission's own line after those of
    // the requests.
    fn push_submission(&mut self, requests: &[Request], order: &Order) -> Result<(), NoMemory> {
        let mut next = Vec::new(self.question.alloc);
        let answers = self.answers(requests, order.submission, &mut next)?;
        self.next_asked();
        self.text = self.text.after_closes();
        self.push_turns(&answers, order, &mut next);
        let mut chain = 1u32;
        for from in &next {
            self.push_answers(&answers, *from, (chain, u32::MAX), false);
            chain = chain.saturating_add(1);
        }
        Ok(())
    }

    /// Appends the lines of the next command. A submission without requests prints no line, so that
    /// the next line is that of a later command; it is refused only if no submission is accepted
    /// any more.
    ///
    /// # Errors
    /// `NoMemory` if an allocation fails.
    pub fn push(&mut self, command: &Command) -> Result<(), NoMemory> {
        if let Command::Submit(requests) = command {
            let is_refused = !requests.is_empty() && self.text.rest.starts_with(b"submit ");
            if let [order, others @ ..] = self.orders
                && !is_refused
            {
                self.orders = others;
                return self.push_submission(requests, order);
            }
            for _ in 0..requests.len() {
                self.next_asked();
            }
        }
        self.push_call(command)
    }

    /// Appends the lines of the end of the script, where the remaining files are closed.
    pub fn push_end(&mut self) {
        self.who = Maker::Command(b"teardown");
        self.push_closes();
    }
}
