//! The rings that one command may lead to.
ghost use Rattle.std.specs.Prelude.{◌≡◌, ◌++◌, ◌<◌, ◌≤◌};
ghost use Rattle.check_texts.specs.Words.{All, IfOk, IsTrue, List, Contains, None, OnOk, length, string_bytes, FileEntry, IsAccepted, fault_of};
ghost use Rattle.check_texts.specs.Words.{all_asked, SubmitsAll, instruction_of, ring_with_slots, MOST_SLOTS, IsRing, MOST_SUBMISSIONS, IsCall};
ghost use Rattle.check_texts.specs.Rings.{Grows, AppendsNext, kept_text, stage_of, stage_reported, stages_of};

use crate::walk::{Reached, Spent, WalkSetting};
use check_lines::{accepted_in, call};
use check_outcomes::{PossibleReport, may_report};
use fx_base::NoMemory;
use fx_chain::Request;
use fx_language::Command;
use fx_order::RingSlots;
use fx_script::report_text;

/// Checks whether two things hold.
pub(crate) fn both(one: bool, other: bool) -> bool
    ensures { IsTrue result → IsTrue one × IsTrue other }
{
    one && other
}

/// Returns a text with a line appended if the setting keeps texts, and else an empty text.
///
/// # Errors
/// `NoMemory` if an allocation fails.
pub(crate) fn printed_after(
    setting: &WalkSetting<'_>,
    before: &str,
    line: &str,
) -> Result<String, NoMemory>
    ensures { IfOk result (λ text.
        string_bytes text ≡ kept_text setting.now.keeps (before.now ++ line.now)) }
{
    if !setting.keeps {
        return Ok(String::new(setting.alloc));
    }
    let room = before.len().saturating_add(line.len());
    let mut text = String::with_capacity(setting.alloc, room)?;
    text.push_str(before)?;
    text.push_str(line)?;
    Ok(text)
}

/// Checks whether both rings have the same slots, the same allocation range and the same counts.
pub(crate) fn are_same(one: &RingSlots, other: &RingSlots) -> bool
    ensures { IsTrue result → (catalogue : List FileEntry)
        → ring_with_slots catalogue one.now ≡ ring_with_slots catalogue other.now }
{
    one.submissions == other.submissions
        && one.registrations == other.registrations
        && one.slots.is_same(&other.slots)
}

// Checks whether a ring is in a list, after the same text.
fn has_ring(rings: &[Reached], one: &Reached) -> bool
    ensures { IsTrue result → (catalogue : List FileEntry)
        → Contains (stages_of catalogue rings.now) (stage_of catalogue one.now) }
{
    for reached in rings {
        if reached.printed.as_bytes() == one.printed.as_bytes()
            && are_same(&reached.ring, &one.ring)
        {
            return true;
        }
    }
    false
}

// Appends a ring unless it is already in the list. If the setting keeps texts, the check is
// skipped: two ways that printed the same led to one ring.
fn push_new(
    setting: &WalkSetting<'_>,
    spent: &mut Spent,
    rings: &mut Vec<Reached>,
    reached: Reached,
) -> Result<(), NoMemory>
    ensures grows { OnOk result ((catalogue : List FileEntry)
        → Grows (λ s. s ≡ stage_of catalogue reached) (stages_of catalogue rings.old.items)
        (stages_of catalogue rings.new.items)) }
    ensures there { OnOk result ((catalogue : List FileEntry)
        → Contains (stages_of catalogue rings.new.items) (stage_of catalogue reached)) }
{
    if !setting.keeps && has_ring(rings, &reached) {
        return Ok(());
    }
    spent.count_ring(setting, &reached);
    rings.push(reached)?;
    Ok(())
}

// Appends the ring that a report leaves, with its lines.
fn push_report(
    setting: &WalkSetting<'_>,
    spent: &mut Spent,
    rings: &mut Vec<Reached>,
    from: &Reached,
    possible: &PossibleReport,
) -> Result<(), NoMemory>
    requires few { from.now.ring.submissions < MOST_SUBMISSIONS }
    requires room { length possible.now.slots.at.items ≤ MOST_SLOTS }
    requires entries { All (λ file. file.entry < length setting.now.catalogue.now)
        possible.now.report.closes.files }
    ensures grows { OnOk result (Grows
        (λ s. s ≡ stage_reported setting.now.keeps (stage_of setting.now.catalogue.now from.now)
        possible.now) (stages_of setting.now.catalogue.now rings.old.items)
        (stages_of setting.now.catalogue.now rings.new.items)) }
    ensures there { OnOk result (Contains (stages_of setting.now.catalogue.now rings.new.items)
        (stage_reported setting.now.keeps (stage_of setting.now.catalogue.now from.now)
        possible.now)) }
{
    let past = spent.keep_order(setting.alloc, from, &possible.order)?;
    let line = report_text(setting.alloc, &possible.report, setting.catalogue)?;
    let printed = printed_after(setting, from.printed.as_str(), line.as_str())?;
    let ring = from.ring_after(setting.alloc, &possible.slots)?;
    let reached = Reached {
        ring,
        printed,
        past: Some(past),
    };
    push_new(setting, spent, rings, reached)?;
    Ok(())
}

// Looks for the reports of the submission, appends the rings that they leave, and returns whether
// these are all.
fn push_reports(
    setting: &WalkSetting<'_>,
    spent: &mut Spent,
    rings: &mut Vec<Reached>,
    from: &Reached,
    requests: &[Request],
) -> Result<bool, NoMemory>
    requires accepted { IsAccepted (all_asked requests.now) }
    requires faultless { fault_of (all_asked requests.now) ≡ None }
    requires few { from.now.ring.submissions < MOST_SUBMISSIONS }
    requires ring { IsRing (ring_with_slots setting.now.catalogue.now from.now.ring) }
    ensures { IfOk result (AppendsNext setting.now.keeps setting.now.catalogue.now from.now
        (SubmitsAll (all_asked requests.now)) rings.old.items rings.new.items) }
{
    let found = may_report(
        setting.alloc,
        setting.catalogue,
        &from.ring.slots,
        from.ring.submissions,
        requests,
        setting.keeps,
        spent.left_of(setting),
    )?;
    spent.count_states(found.states);
    for possible in &found.reports {
        push_report(setting, spent, rings, from, possible)?;
    }
    Ok(found.are_all)
}

// Appends the ring that a call between submissions, or a refused submission, leaves. Returns true:
// there is no other.
fn push_call(
    setting: &WalkSetting<'_>,
    spent: &mut Spent,
    rings: &mut Vec<Reached>,
    from: &Reached,
    command: &Command,
) -> Result<bool, NoMemory>
    requires call { IsCall from.now.ring.submissions (instruction_of command.now) }
    requires ring { IsRing (ring_with_slots setting.now.catalogue.now from.now.ring) }
    ensures { IfOk result (AppendsNext setting.now.keeps setting.now.catalogue.now from.now
        (instruction_of command.now) rings.old.items rings.new.items) }
{
    let called = call(setting.alloc, setting.catalogue, &from.ring, command)?;
    let printed = printed_after(setting, from.printed.as_str(), called.line.as_str())?;
    let reached = Reached {
        ring: called.ring,
        printed,
        past: from.past,
    };
    push_new(setting, spent, rings, reached)?;
    Ok(true)
}

/// Appends the rings that a command may lead to from one, and returns whether these are all of
/// them. Where the limits of the script are reached, it appends none, unless none is kept yet after
/// the command.
///
/// # Errors
/// `NoMemory` if an allocation fails.
pub(crate) fn push_next(
    setting: &WalkSetting<'_>,
    spent: &mut Spent,
    rings: &mut Vec<Reached>,
    from: &Reached,
    command: &Command,
) -> Result<bool, NoMemory>
    requires ring { IsRing (ring_with_slots setting.now.catalogue.now from.now.ring) }
    ensures { IfOk result (AppendsNext setting.now.keeps setting.now.catalogue.now from.now
        (instruction_of command.now) rings.old.items rings.new.items) }
{
    if !spent.has_room(setting.limits) {
        return Ok(false);
    }
    match accepted_in(command, from.ring.submissions) {
        Some(requests) => push_reports(setting, spent, rings, from, requests),
        None => push_call(setting, spent, rings, from, command),
    }
}
