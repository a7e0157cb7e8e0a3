//! The reason why a text breaks, in the words of `fixcheck`. It is advice, on which no verdict
//! rests.
use crate::complaint::Complaint;
use crate::facts::Facts;
use crate::lines::Lines;
use crate::question::{Question, TextPlace};
use crate::words::{CUT, Words, sign_before};
use check_judge::{Break, Fault, Reason};
use check_lines::accepted_in;
use fx_base::NoMemory;
use fx_chain::Request;

// Appends the number of the first one of some lines, the lines that are expected there, and the
// line. The reason why it is wrong comes next.
fn push_found(report: &mut Words, found: Lines<'_>, expected: &str) {
    report.count("line ", found.number(), " of the text: expected ");
    report.say(expected);
    report.say(", found ");
    report.line(found.first(), "nothing");
}

// Ends the line of a wrong line with the reason why it is wrong, if that is known.
fn push_why(report: &mut Words, why: &Words) -> Result<(), NoMemory> {
    let why = why.text()?;
    if !why.is_empty() {
        report.say("; ");
    }
    report.say(why);
    report.say("\n");
    Ok(())
}

// Appends the numbers of some lines, which count from 0 at the first one of `text`, the reason why
// they conflict, and the lines.
fn push_conflict(report: &mut Words, text: Lines<'_>, lines: &[usize], why: &str) {
    report.say(if lines.len() == 1 { "line " } else { "lines " });
    for (i, line) in lines.iter().enumerate() {
        let sign = sign_before(i, lines.len(), " and ");
        report.count(sign, text.after(*line).number(), "");
    }
    report.say(" of the text: ");
    report.say(why);
    report.say("\n");
    for line in lines {
        let found = text.after(*line);
        report.count("  ", found.number(), ": ");
        report.line(found.first(), "nothing");
        report.say("\n");
    }
}

// Appends the judge's reason for refusing a submission.
fn push_refusal(report: &mut Words, submission: u32, reason: Reason) {
    report.count("submission ", u64::from(submission), ": ");
    match reason {
        Reason::Member(place) => {
            report.say("no table lets ");
            report.place(place);
            report.say(" complete so\n");
        }
        Reason::TooManyCompletions => report.say("there are more completions than requests\n"),
        Reason::Closes => report.say("no order closes these files\n"),
        Reason::Slot(slot) => report.count("slot ", u64::from(slot), " alone has no order\n"),
        Reason::Chains => report.say("its chains have no order\n"),
    }
}

// Returns the requests of the last command before a break, if it is a submission that was accepted.
fn last_accepted<'a>(question: &Question<'a>, broken: &Break) -> Option<&'a [Request]> {
    let command = broken.commands.checked_sub(1)?;
    let earlier = broken.ring.submissions.checked_sub(1)?;
    accepted_in(question.script.commands().get(command)?, earlier)
}

// Appends the reason if a line is one completion too many of the last submission before a break.
// Returns whether it is one.
fn is_one_more(question: &Question<'_>, broken: &Break, line: &[u8], why: &mut Words) -> bool {
    let (command, submission) = (broken.commands as u64, u64::from(broken.ring.submissions));
    let Some(requests) = last_accepted(question, broken) else {
        return false;
    };
    why.count("", submission, ".");
    let is_one = why.begin(line);
    why.clear();
    if is_one {
        why.count("submission ", submission, ", ");
        why.count("command ", command, ", has ");
        why.count("", requests.len() as u64, " requests, and this is one more");
    }
    is_one
}

// Appends the slot of the file that a line closes, if it closes one.
fn why_closed(broken: &Break, line: &[u8], why: &mut Words) {
    for (slot, file) in broken.ring.slots.at.iter().enumerate() {
        if let Some(file) = file {
            why.say("closed ");
            why.mark(file.mark);
            why.say(" ");
            let is_closed = why.begin(line);
            why.clear();
            if is_closed {
                why.mark(file.mark);
                return why.count(" is at slot ", slot as u64, "");
            }
        }
    }
}

// Checks whether a line of a closed file is the beginning of the expected one, after which the text
// ends.
fn is_cut_close(line: &[u8], expected: &[u8]) -> bool {
    line.starts_with(b"closed") && !line.ends_with(b"\n") && expected.starts_with(line)
}

// Appends the first line in which a text differs from the likeliest one, and the reason, which may
// be empty.
fn push_difference(
    report: &mut Words,
    question: &Question<'_>,
    broken: &Break,
    text: Lines<'_>,
    expected: &[u8],
) -> Result<(), NoMemory> {
    let (mut found, mut likely) = (text, Lines::new(expected));
    for _ in 0..expected.len() {
        if likely.rest.is_empty() || found.first() != likely.first() {
            break;
        }
        found.take();
        likely.take();
    }
    let (mut line, mut why) = (Words::new(question.alloc), Words::new(question.alloc));
    line.line(likely.first(), "the end");
    push_found(report, found, line.text()?);
    if is_cut_close(found.first(), likely.first()) {
        why.say(CUT);
    } else if !is_one_more(question, broken, found.first(), &mut why) {
        // the line of the end has no result, so that a `closed` line after it is the wrong one
        let rest = likely.rest;
        why_closed(
            broken,
            rest.strip_prefix(b"teardown\n").unwrap_or(rest),
            &mut why,
        );
    }
    push_why(report, &why)
}

// Appends the judge's fault.
fn push_fault(
    report: &mut Words,
    question: &Question<'_>,
    broken: &Break,
    text: Lines<'_>,
) -> Result<(), NoMemory> {
    match &broken.fault {
        Fault::Text(expected) => {
            push_difference(report, question, broken, text, expected.as_bytes())?;
        }
        Fault::Line(lines, expected) => {
            push_found(report, text.after(*lines), expected.as_str());
            report.say("\n");
        }
        Fault::Order(submission, reason) => push_refusal(report, *submission, *reason),
    }
    Ok(())
}

// Appends a complaint about the lines of the submission at which a text breaks, those of `text`.
fn push_complaint(
    report: &mut Words,
    text: Lines<'_>,
    complaint: &Complaint,
) -> Result<(), NoMemory> {
    let expected = complaint.expected.text()?;
    if expected.is_empty() {
        push_conflict(report, text, &complaint.lines, complaint.why.text()?);
        return Ok(());
    }
    for line in &complaint.lines {
        push_found(report, text.after(*line), expected);
        push_why(report, &complaint.why)?;
    }
    Ok(())
}

/// Appends the reason why a text breaks at a place: a complaint about the lines of the submission
/// there, if one is found, or else the judge's fault. `facts`: those of the submission. The last
/// line has its end.
///
/// # Errors
/// `NoMemory` if an allocation fails.
pub fn push_why_broken(
    report: &mut Words,
    question: &Question<'_>,
    broken: &Break,
    place: &TextPlace<'_>,
    facts: &Option<Facts<'_>>,
) -> Result<(), NoMemory> {
    let (is_text, slot) = match &broken.fault {
        Fault::Text(_) => (true, None),
        Fault::Order(_, Reason::Slot(slot)) => (false, Some(*slot)),
        Fault::Line(..) | Fault::Order(..) => (false, None),
    };
    if let Some(facts) = facts
        && !is_text
        && let Some(complaint) = facts.explain(slot)?
    {
        return push_complaint(report, place.text, &complaint);
    }
    push_fault(report, question, broken, place.text)
}
