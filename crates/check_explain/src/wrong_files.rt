//! Invalid lines of closed files and of tags after a submission's completions, and lines that
//! contradict each other by the files at one slot.
use crate::case::{Act, Installed};
use crate::complaint::Complaint;
use crate::facts::{Close, Facts};
use crate::lines::Lines;
use crate::words::{CUT, name_of};
use fx_base::{Mark, NoMemory};
use fx_chain::Intent;

// Checks whether a `closed` line is wrong, by the one before it.
fn is_wrong(
    facts: &Facts<'_>,
    at: usize,
    close: &Close<'_>,
    before: Option<Mark>,
    out: &mut Complaint,
) -> bool {
    if !close.has_end {
        out.wrong(at, "a whole line", CUT);
        return true;
    }
    let Some(mark) = close.mark else {
        out.wrong(at, "closed, a mark and a name", "");
        return true;
    };
    let Some(known) = close.file else {
        let expected = "a file that was at a slot, or that a request installed";
        out.wrong(at, expected, "no such file has the mark ");
        out.why.mark(mark);
        return true;
    };
    let name = name_of(facts.case.catalogue, known.file.entry);
    let is_other = close.name != name.as_bytes();
    let is_late = before > close.mark;
    if is_other {
        out.wrong(at, "closed ", "");
        out.expected.file(facts.case.catalogue, known.file);
        out.why.mark(mark);
        out.why.say(" is ");
        out.why.say(name);
    } else if let Some(earlier) = known.closed {
        out.line(earlier);
        out.wrong(at, "", "a file is closed once");
    } else if is_late {
        out.line(at.saturating_sub(1));
        out.wrong(at, "", "closed files are in order of their marks");
    }
    is_other || known.closed.is_some() || is_late
}

// Looks for the first wrong one of the `closed` lines.
fn wrong_closed(facts: &Facts<'_>, out: &mut Complaint) -> bool {
    let (mut at, mut before) = (facts.rows.len(), None);
    for close in &facts.closes {
        if is_wrong(facts, at, close, before, out) {
            return true;
        }
        (at, before) = (at.saturating_add(1), close.mark);
    }
    false
}

// Takes the lines of the closed files' tags, up to the first wrong one. Returns whether one is
// wrong.
fn wrong_tags(facts: &Facts<'_>, rest: &mut Lines<'_>, out: &mut Complaint) -> bool {
    let mut lines = facts.case.text.after(facts.rows.len());
    for close in &facts.closes {
        if let Some(it) = close.file
            && it.file.tag != 0
        {
            out.expected.count("tag ", it.file.tag, "\n");
            let is_next = out.expected.begin(rest.rest);
            out.expected.clear();
            if !is_next {
                out.line(rest.before);
                out.expected.count("tag ", it.file.tag, "");
                out.why
                    .count("tag ", it.file.tag, " is that of the file of line ");
                out.why.number(lines.number());
                return true;
            }
            rest.take();
        }
        lines.take();
    }
    false
}

/// Looks for the first wrong line after a submission's completions. Returns whether a line is
/// wrong.
pub(crate) fn wrong_close(facts: &Facts<'_>, out: &mut Complaint) -> bool {
    if wrong_closed(facts, out) {
        return true;
    }
    let mut rest = facts.rest;
    let submission = u64::from(facts.case.submissions.saturating_add(1));
    out.expected.count("", submission, ".");
    let is_one_more = out.expected.begin(rest.rest);
    out.expected.clear();
    if is_one_more {
        let expected = "a closed file, or the next command's line";
        out.wrong(rest.before, expected, "");
        let count = facts.rows.len() as u64;
        let after = " requests, and this is one more";
        out.why.count("the submission has ", count, after);
        return true;
    }
    if wrong_tags(facts, &mut rest, out) {
        return true;
    }
    let is_more = rest.rest.starts_with(b"tag ") || rest.rest.starts_with(b"closed ");
    if is_more {
        let why = "the closed files come first, and have no further tag";
        out.wrong(rest.before, "the next command's line", why);
    }
    is_more
}

// Says that two files are left at one slot.
fn two_left(facts: &Facts<'_>, one: &Installed, other: &Installed, out: &mut Complaint) {
    for line in [one.line, other.line].iter().flatten() {
        out.line(*line);
    }
    out.why.file(facts.case.catalogue, one.file);
    out.why.say(" and ");
    out.why.file(facts.case.catalogue, other.file);
    let after = ": neither has a `closed` line";
    out.why
        .count(" are both left at slot ", u64::from(one.slot), after);
}

// Looks for the first slot at which two files are left. Sets the number of the file that is left at
// each slot.
fn are_two(facts: &Facts<'_>, left: &mut [usize], out: &mut Complaint) -> bool {
    for (number, it) in facts.files.iter().enumerate() {
        if it.closed.is_none()
            && let Some(at) = left.get_mut(it.slot as usize)
        {
            if let Some(one) = facts.files.get(*at) {
                two_left(facts, one, it, out);
                return true;
            }
            *at = number;
        }
    }
    false
}

// Checks whether a file has no `closed` line, though it was at a slot before an access that removed
// it or found the slot empty.
fn is_removed(facts: &Facts<'_>, act: &Act, it: &Installed, out: &mut Complaint) -> bool {
    let does = match (act.found, act.intent) {
        (Some(false), _) => ", which finds the slot empty",
        (_, Intent::Look(_)) => return false,
        _ if act.is_done => ", which removes what is there",
        _ => return false,
    };
    let Some(later) = facts.rows.get(act.line) else {
        return false;
    };
    if let Some(line) = it.line {
        if line >= act.line || facts.chain_of(line) != later.place.chain {
            return false;
        }
        out.line(line);
    }
    out.line(act.line);
    out.why.file(facts.case.catalogue, it.file);
    out.why
        .count(" is at slot ", u64::from(it.slot), " before ");
    out.why.place(later.place);
    out.why.say(does);
    out.why.say(", and has no `closed` line");
    true
}

/// Looks for the first slot at which two files are left, or for the first access that shows that a
/// file without a `closed` line was removed. Returns whether there is one.
pub(crate) fn wrong_count(facts: &Facts<'_>, out: &mut Complaint) -> Result<bool, NoMemory> {
    // no file has the largest number
    let mut left = vec![in facts.case.alloc; usize::MAX; facts.case.size()]?;
    if are_two(facts, &mut left, out) {
        return Ok(true);
    }
    for act in &facts.acts {
        if let Some(slot) = act.slot
            && let Some(number) = left.get(slot as usize)
            && let Some(it) = facts.files.get(*number)
            && is_removed(facts, act, it, out)
        {
            return Ok(true);
        }
    }
    Ok(false)
}
