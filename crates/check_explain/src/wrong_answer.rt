//! Lines that aren't the completions of their requests, and completions that no request there may
//! have, or that contradict their chain.
use crate::answers::{Answers, left_at_slots, read};
use crate::case::{Act, Row, result_of};
use crate::complaint::Complaint;
use crate::facts::Facts;
use crate::words::{CUT, Words, name_of};
use check_lines::read_report;
use fx_base::{Errno, NoMemory};
use fx_chain::{Completion, Intent, refusal_of};
use std::alloc::Global;

// The reason why a completion without a file has no bytes.
const ONLY_READS: &str = "only a read that finds a file has bytes";

// Appends the reason why a request is refused with an error whatever is at the slots.
fn why_refused(facts: &Facts<'_>, row: &Row<'_>, errno: Errno, why: &mut Words) {
    let size = facts.case.size() as u64;
    let has_bad_entry = refusal_of(facts.case.catalogue, u32::MAX, row.request).is_some();
    match errno {
        Errno::ENOENT => why.say("no file of the script has that name"),
        Errno::EBADF if has_bad_entry => why.say("an entry of the list names no file"),
        _ if size == 0 => why.say("there is no table"),
        _ => why.count("the table has the slots 0 to ", size - 1, ""),
    }
}

// Appends the reason why a read can't have its number or its bytes.
fn why_not_read(facts: &Facts<'_>, row: &Row<'_>, slot: u32, it: &Completion, why: &mut Words) {
    let count = it.got.len();
    if usize::try_from(it.res).ok() != Some(count) {
        why.say("the number is ");
        why.result(it.res);
        return why.count(", and ", count as u64, " bytes follow");
    }
    let mut bytes = Vec::new(facts.case.alloc);
    for entry in 0..=u8::MAX {
        let name = name_of(facts.case.catalogue, entry);
        why.is_whole &= read(facts, row, Some(entry), &mut bytes);
        if !name.is_empty() && bytes.as_slice() == it.got.as_slice() {
            why.say("these are the bytes of ");
            why.say(name);
            return why.count(", which can't be at slot ", u64::from(slot), " then");
        }
    }
    why.say("no file gives this read these bytes");
}

// Appends the reason why an access of a slot can't have an answer without bytes, if one is known.
fn why_not_at(row: &Row<'_>, act: &Act, slot: u32, res: i32, why: &mut Words) {
    let after = if matches!(act.intent, Intent::Take(_)) && res == 0 {
        " can't have a file then"
    } else if res == result_of(Errno::EBADF) && row.fixed_result().is_none() {
        " can't be empty then"
    } else {
        return;
    };
    why.count("slot ", u64::from(slot), after);
}

// Appends the reason why the first access of a request can't have a completion, if one is known.
fn why_not_by(facts: &Facts<'_>, row: &Row<'_>, act: &Act, it: &Completion, why: &mut Words) {
    let is_read = matches!(act.intent, Intent::Look(_));
    match act.asked {
        _ if !is_read && !it.got.is_empty() => why.say(ONLY_READS),
        Some(slot) if is_read && it.res >= 0 => why_not_read(facts, row, slot, it, why),
        Some(slot) => why_not_at(row, act, slot, it.res, why),
        None if facts.case.slots.range.1 == 0 => why.say("the range has no slot"),
        None => {}
    }
}

// Appends the reason why a request can't have a completion, if one is known.
fn why_not(facts: &Facts<'_>, row: &Row<'_>, it: &Completion, why: &mut Words) {
    let (_, from, to) = row.acts;
    if it.res < 0 && !it.got.is_empty() {
        why.say(ONLY_READS);
    } else if let Some(errno) = row.refusal {
        why_refused(facts, row, errno, why);
    } else if let Some(act) = facts.acts_between(from, to).first() {
        why_not_by(facts, row, act, it, why);
    }
}

// Says that a member is canceled, though no earlier one severs its chain: the lines of those that
// could.
fn not_severed(answers: &mut Answers<'_>, row: &Row<'_>, out: &mut Complaint) {
    let facts = answers.facts;
    let first = row
        .at
        .saturating_add(1)
        .saturating_sub(row.place.member as usize);
    for earlier in facts.rows.get(first..row.at).unwrap_or(&[]) {
        answers.set(earlier, false);
        if earlier.may_sever() && answers.may_sever(earlier) {
            out.line(earlier.at);
        }
    }
    out.line(row.at);
    out.why.say(
        "-125 follows a request that severs its chain, and no earlier request severs this chain",
    );
}

// Says that a member isn't canceled, though an earlier one severed its chain.
fn not_canceled(by: &Row<'_>, row: &Row<'_>, out: &mut Complaint) {
    out.line(by.at);
    out.line(row.at);
    out.why.place(by.place);
    out.why.say(" fails and severs its chain, so ");
    out.why.place(row.place);
    out.why.say(" should be -125");
}

// Says that the line of a request doesn't begin with its place and a space, which are expected:
// another line does, or no line does.
fn misplaced(facts: &Facts<'_>, row: &Row<'_>, out: &mut Complaint) {
    out.line(row.at);
    let mut lines = facts.case.text;
    for _ in 0..lines.rest.len() {
        if out.expected.begin(lines.rest) {
            break;
        }
        lines.take();
    }
    out.expected.say("and its result");
    if !lines.rest.is_empty() {
        return out.why.count("line ", lines.number(), " has that place");
    }
    out.why.say("no line answers ");
    if let Some(line) = facts.case.asked.get(row.at) {
        out.why.bytes(line.bytes);
    }
}

// Returns the reason why a line that begins with its request's place can't be read.
fn why_unread(alloc: Global, line: &[u8]) -> Result<&'static str, NoMemory> {
    if !line.ends_with(b"\n") {
        return Ok(CUT);
    }
    let lower = line.to_ascii_lowercase(alloc)?;
    Ok(match read_report(alloc, &lower, 1)? {
        Some(_) => "bytes are printed in lower case",
        None => "its result can't be read",
    })
}

// Says which answers a request may give.
fn expect(row: &Row<'_>, answers: &Answers<'_>, out: &mut Complaint) {
    out.line(row.at);
    out.expected.place(row.place);
    out.expected.say(" with ");
    answers.say(row, &mut out.expected);
}

// Says why the first line after those of the completions isn't the completion of its request.
fn unread(row: &Row<'_>, answers: &Answers<'_>, out: &mut Complaint) {
    let line = answers.facts.rest.first();
    out.expected.place(row.place);
    out.expected.say(" ");
    if out.expected.begin(line) {
        out.expected.clear();
        expect(row, answers, out);
        let why = why_unread(answers.facts.case.alloc, line);
        out.why.is_whole &= why.is_ok();
        out.why.say(why.unwrap_or_default());
    } else {
        misplaced(answers.facts, row, out);
    }
}

// Checks whether the line of a request with these answers is wrong. `severed`: the member that
// severed its chain.
fn is_wrong(
    answers: &mut Answers<'_>,
    severed: Option<&Row<'_>>,
    row: &Row<'_>,
    out: &mut Complaint,
) -> bool {
    let facts = answers.facts;
    let Some(it) = &row.answer else {
        unread(row, answers, out);
        return true;
    };
    let is_canceled = it.is_refusal(row.place, Errno::ECANCELED);
    if let Some(by) = severed {
        if !is_canceled {
            not_canceled(by, row, out);
        }
        return !is_canceled;
    }
    if row.place.member > 1 && is_canceled {
        not_severed(answers, row, out);
        return true;
    }
    let is_other = !answers.have(row, it);
    if is_other {
        expect(row, answers, out);
        why_not(facts, row, it, &mut out.why);
    }
    is_other
}

// Looks for the first wrong line with answers that are set for each request.
fn is_one_wrong(answers: &mut Answers<'_>, out: &mut Complaint) -> bool {
    let facts = answers.facts;
    let mut severed = None;
    for row in &facts.rows {
        answers.set(row, severed.is_some());
        if is_wrong(answers, severed, row, out) {
            return true;
        }
        if !row.request.links() {
            severed = None;
        } else if severed.is_none()
            && let Some(it) = &row.answer
            && row.request.severs(it)
        {
            severed = Some(row);
        }
    }
    false
}

/// Looks for the first line that isn't the completion of its request, or has one that the request
/// can't have or that contradicts an earlier one of its chain. Returns whether there is one.
pub(crate) fn wrong_answer(facts: &Facts<'_>, out: &mut Complaint) -> Result<bool, NoMemory> {
    let left = left_at_slots(facts)?;
    let mut answers = Answers::new(&*facts, &left);
    let is_found = is_one_wrong(&mut answers, out);
    out.why.is_whole &= answers.is_whole;
    Ok(is_found)
}
