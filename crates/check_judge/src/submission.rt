//! Plays accepted submissions against a text.
ghost use Rattle.std.specs.Prelude.{◌≤◌, ◌≡◌, ◌<◌, length, All, IfOk, OnOk};
ghost use Rattle.check_judge.specs.Words.{IsAccepted, all_asked, MOST_SLOTS, all_completed, runs_of, MOST_SUBMISSIONS, SubmitsAll, AreChainsDone};
ghost use Rattle.check_judge.specs.Step.{IsCommandVerdict};
ghost use Rattle.check_judge.specs.Kept.{IsRingKept};
ghost use Rattle.check_judge.specs.Places.{AreAccessPlaces};
ghost use Rattle.check_judge.specs.Recorded.{AreApart, HasLines, YieldsKnown};
ghost use Rattle.fx_table.specs.declared.limits.TheConstants.{MAX_CHAINS};

use crate::command::CommandVerdict;
use crate::judgement::{Fault, Verdict};
use crate::judging::judge_submission;
use crate::places::{Answered, places_of};
use crate::recorded::{
    Recorded, files_recorded, tags_recorded, unknown_file, wrong_order, wrong_tag,
};
use check_lines::{ReportLines, read_report};
use check_search::Limits;
use fx_base::{Catalogue, NoMemory};
use fx_chain::{Place, Request, cut};
use fx_order::{ChainAccess, Order, OrderSetting, RingSlots};
use std::alloc::Global;

// Returns the number of bytes of the first line of a text, with its end.
fn line_length(text: &[u8]) -> usize
    ensures { result ≤ length text.now }
{
    for i in 0..text.len() {
        if text[i] == b'\n' {
            return i + 1;
        }
    }
    text.len()
}

// Checks whether a line is that of a completion at a place.
fn is_completion(alloc: Global, line: &[u8], place: Place) -> Result<bool, NoMemory> {
    match read_report(alloc, line, 1)? {
        Some((lines, _)) => Ok(matches!(lines.completions.first(), Some(c) if c.place == place)),
        None => Ok(false),
    }
}

// Checks whether a line is that of a closed file or of a tag.
fn is_close(line: &[u8]) -> bool {
    line.starts_with(b"closed ") || line.starts_with(b"tag ")
}

/// Returns the first line of a text that isn't a line of the submission's report, if the report
/// can't be read.
///
/// # Errors
/// `NoMemory` if an allocation fails.
pub(crate) fn wrong_line(
    alloc: Global,
    submission: u32,
    requests: &[Request],
    text: &[u8],
) -> Result<Fault, NoMemory>
    requires { IsAccepted (all_asked requests.now) }
{
    let mut rest = text;
    let mut place = Place {
        submission,
        chain: 1,
        member: 1,
    };
    for (count, request) in requests.iter().enumerate() {
        let (line, others) = rest.split_at(line_length(rest));
        if !is_completion(alloc, line, place)? {
            let Place { chain, member, .. } = place;
            let expected = format!(in alloc; "{submission}.{chain}.{member} and its result")?;
            return Ok(Fault::Line(count, expected));
        }
        rest = others;
        if request.links() {
            place.member = place.member.saturating_add(1);
        } else {
            place.chain = place.chain.saturating_add(1);
            place.member = 1;
        }
    }
    wrong_close(alloc, requests.len(), rest)
}

// Returns the first invalid line of the lines of closed files and tags, which follow `before`
// lines.
fn wrong_close(alloc: Global, before: usize, text: &[u8]) -> Result<Fault, NoMemory> {
    let mut rest = text;
    let mut count = before;
    for _ in 0..text.len() {
        let (line, others) = rest.split_at(line_length(rest));
        if !is_close(line) || read_report(alloc, line, 0)?.is_none() {
            break;
        }
        rest = others;
        count = count.saturating_add(1);
    }
    line_fault(alloc, count, 0, "the closed files, and then their tags")
}

// Returns the fault of the line at a position after `before` lines, in whose place these words are
// expected.
fn line_fault(alloc: Global, before: usize, i: usize, expected: &str) -> Result<Fault, NoMemory> {
    let number = before.saturating_add(i);
    Ok(Fault::Line(number, String::from_str(alloc, expected)?))
}

// Returns the completions and closes that lines report, or the first invalid line. Each closed file
// must have been at a slot, or a request must have installed it.
fn recorded_by(
    alloc: Global,
    catalogue: &Catalogue,
    ring: &RingSlots,
    requests: &[Request],
    lines: ReportLines,
) -> Result<Result<Recorded, Fault>, NoMemory>
    ensures lines { IfOk result (λ recorded. IfOk recorded (HasLines catalogue.now lines)) }
    ensures only { IfOk result (λ recorded. AreApart catalogue.now ring.now.slots
        → YieldsKnown catalogue.now ring.now.slots (all_asked requests.now) lines recorded) }
{
    let before = lines.completions.len();
    let closes = match files_recorded(alloc, catalogue, &ring.slots, &lines.closed)? {
        Ok(files) => files,
        Err(i) => {
            let expected = "a closed file by its mark and its own name";
            return Ok(Err(line_fault(alloc, before, i, expected)?));
        }
    };
    if let Some(i) = wrong_order(&closes) {
        let expected = "the closed files in order of mark, each once";
        return Ok(Err(line_fault(alloc, before, i, expected)?));
    }
    let own_tags = tags_recorded(alloc, &closes)?;
    if let Some(i) = wrong_tag(&own_tags, &lines.tags) {
        let behind = before.saturating_add(closes.len());
        let expected = "the tags of the closed files, in their order";
        return Ok(Err(line_fault(alloc, behind, i, expected)?));
    }
    if let Some(i) = unknown_file(&ring.slots, requests, &lines.completions, &closes) {
        let expected = "a file that was at a slot, or that a request installed";
        return Ok(Err(line_fault(alloc, before, i, expected)?));
    }
    Ok(Ok(Recorded {
        completions: lines.completions,
        closes,
    }))
}

// Returns the order of a submission, with the places of its accesses. The ring has counted the
// submission.
fn order_of(
    alloc: Global,
    catalogue: &Catalogue,
    ring: &RingSlots,
    requests: &[Request],
    recorded: &Recorded,
    accesses: Vec<ChainAccess>,
) -> Result<Order, NoMemory>
    requires accepted { IsAccepted (all_asked requests.now) }
    requires few_slots { length ring.now.slots.at.items ≤ MOST_SLOTS }
    requires chains { All (λ x. (1 ≤ x.chain)
        × (x.chain ≤ length (runs_of (all_asked requests.now)))) accesses.items }
    requires done { AreChainsDone catalogue.now (length ring.now.slots.at.items)
        ring.now.submissions 1 (runs_of (all_asked requests.now)) accesses.items
        (all_completed recorded.now.completions.items) }
    ensures accesses { IfOk result (λ order. order.accesses ≡ accesses) }
    ensures submission { IfOk result (λ order. order.submission ≡ ring.now.submissions) }
    ensures places { IfOk result (λ order. AreAccessPlaces catalogue.now
        (length ring.now.slots.at.items) ring.now.submissions (runs_of (all_asked requests.now))
        (all_completed recorded.now.completions.items) accesses.items order.places.items) }
{
    let chains = cut(alloc, requests)?;
    let answered = Answered {
        setting: OrderSetting {
            alloc,
            catalogue,
            size: ring.slots.at.len() as u32,
        },
        submission: ring.submissions,
        requests,
        chains: &chains,
        completions: &recorded.completions,
    };
    let places = places_of(&answered, &accesses)?;
    Ok(Order {
        submission: ring.submissions,
        accesses,
        places,
    })
}

/// Plays a submission that is accepted, if an order of its requests leads to the report at the
/// beginning of the text. The limits hold for the states of each part that has slots of its own.
///
/// # Errors
/// `NoMemory` if an allocation fails.
pub(crate) fn play_submission(
    alloc: Global,
    catalogue: &Catalogue,
    ring: &mut RingSlots,
    requests: &[Request],
    text: &[u8],
    limits: Limits,
) -> Result<CommandVerdict, NoMemory>
    requires accepted { IsAccepted (all_asked requests.now) }
    requires few { ring.old.submissions < MOST_SUBMISSIONS }
    requires chains { length (runs_of (all_asked requests.now)) ≤ MAX_CHAINS }
    requires kept { IsRingKept catalogue.now ring.old }
    ensures answer { IfOk result (λ answer. IsCommandVerdict catalogue.now ring.old
        (SubmitsAll (all_asked requests.now)) text.now answer ring.new) }
    ensures kept { OnOk result (IsRingKept catalogue.now ring.new) }
{
    let number = ring.submissions + 1;
    let Some(front) = read_report(alloc, text, requests.len())? else {
        return Ok(CommandVerdict::Broken(wrong_line(alloc, number, requests, text)?));
    };
    let (lines, rest) = front;
    let recorded = match recorded_by(alloc, catalogue, ring, requests, lines)? {
        Ok(recorded) => recorded,
        Err(fault) => return Ok(CommandVerdict::Broken(fault)),
    };
    match judge_submission(alloc, catalogue, ring, requests, &recorded, limits)? {
        Verdict::Legal(accesses) => {
            let order = order_of(alloc, catalogue, ring, requests, &recorded, accesses)?;
            Ok(CommandVerdict::Printed(text.len() - rest.len(), Some(order)))
        }
        Verdict::NotLegal(reason) => Ok(CommandVerdict::Broken(Fault::Order(number, reason))),
        Verdict::Undecided(doubt) => Ok(CommandVerdict::Undecided(doubt)),
    }
}
