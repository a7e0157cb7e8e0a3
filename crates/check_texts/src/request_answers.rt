//! The answers that a request of a script can give, each in a play to the end of the script.
ghost use Rattle.std.specs.Prelude.{◌≡◌, ◌⊎◌, ◌+◌, ◌<◌, ◌≤◌};
ghost use Rattle.check_texts.specs.Words.{All, Contains, IfNone, IfOk, IfSome, IsTrue, length, Completed, completed_of, all_asked, instructions_of};
ghost use Rattle.check_texts.specs.Words.{ring_of_slots, ring_with_slots, MOST_SLOTS, MOST_SUBMISSIONS, IsRing};
ghost use Rattle.check_texts.specs.Rings.{AreRings, AreSaidFrom, Grows, HasEachSaid, HasEachSaidFrom, IsAskedIn, MayEnd, MaySay, count_after_all};
ghost use Rattle.check_texts.specs.Rings.{said_in, stages_of};
ghost use Rattle.check_texts.specs.Texts.{MayAnswerIn};

use crate::next::{both, push_next};
use crate::rings::after_all;
use crate::walk::{Inquiry, Past, Reached, Spent, WalkSetting};
use check_lines::{accepted_in, is_accepted};
use check_outcomes::{PossibleAnswer, may_answer};
use check_search::Limits;
use fx_base::NoMemory;
use fx_chain::{Completion, Place};
use fx_language::{Command, Script};
use std::alloc::Global;

/// An answer that a request may have.
#[derive(Drop)]
pub struct Said {
    /// The answer.
    pub completion: Completion,
    /// The index of the order of its submission.
    pub past: usize,
}

/// The answers that a request of a script can give, and orders that lead to them.
#[derive(Drop)]
pub struct RequestAnswers {
    /// The answers.
    pub answers: Vec<Said>,
    /// The orders of the submissions up to the answers.
    pub orders: Vec<Past>,
    /// True if these were shown to be all. If so and there is none, no accepted submission has the
    /// request.
    pub are_all: bool,
}

// Returns the submission of a place and the commands around it, if the commands have that number of
// accepted submissions.
fn asking_at(commands: &[Command], place: Place) -> Option<Inquiry<'_>>
    ensures some { IfSome result (IsAskedIn (instructions_of commands.now) place) }
    ensures none { IfNone result ((place.submission ≡ 0)
        ⊎ (count_after_all 0 (instructions_of commands.now) < place.submission)) }
{
    if place.submission == 0 {
        return None;
    }
    let mut count = 0u32;
    for (i, command) in commands.iter().enumerate() {
        let Some(requests) = accepted_in(command, count) else {
            continue;
        };
        count += 1;
        if count == place.submission {
            return Some(Inquiry {
                place,
                front: &commands[..i],
                requests,
                behind: &commands[i + 1..],
            });
        }
    }
    None
}

// Checks whether an answer is in a list.
fn has_answer(answers: &[Said], c: &Completion) -> bool
    ensures { IsTrue result → Contains (said_in answers.now) (completed_of c.now) }
{
    for said in answers {
        if said.completion == *c {
            return true;
        }
    }
    false
}

// Checks whether it was seen that commands and the end of the script lead on from a ring.
fn goes_on(setting: &WalkSetting<'_>, from: Reached, commands: &[Command]) -> Result<bool, NoMemory>
    requires { IsRing (ring_with_slots setting.now.catalogue.now from.ring) }
    ensures { IfOk result (λ yes. IsTrue yes → MayEnd
        (ring_with_slots setting.now.catalogue.now from.ring) (instructions_of commands.now)) }
{
    let mut reached = from;
    for command in commands {
        let mut spent = Spent::nothing(setting.alloc);
        let mut rings = Vec::new(setting.alloc);
        let _all = push_next(setting, &mut spent, &mut rings, &reached, command)?;
        match rings.pop() {
            Some(next) => reached = next,
            None => return Ok(false),
        }
    }
    Ok(true)
}

// Appends an answer that a ring can give, unless the list has it, if it was shown that the script
// goes on from there to its end. Returns whether the list then has it.
fn push_answer(
    setting: &WalkSetting<'_>,
    spent: &mut Spent,
    answers: &mut Vec<Said>,
    from: &Reached,
    answer: &PossibleAnswer,
    behind: &[Command],
) -> Result<bool, NoMemory>
    requires few { from.now.ring.submissions < MOST_SUBMISSIONS }
    requires room { length answer.now.slots.at.items ≤ MOST_SLOTS }
    requires ring { IsRing (ring_of_slots setting.now.catalogue.now answer.now.slots
        (from.now.ring.submissions + 1) from.now.ring.registrations) }
    ensures grows { IfOk result (λ _. Grows (λ c. (c ≡ completed_of answer.now.completion) × MayEnd
        (ring_of_slots setting.now.catalogue.now answer.now.slots
        (from.now.ring.submissions + 1) from.now.ring.registrations) (instructions_of behind.now))
        (said_in answers.old.items) (said_in answers.new.items)) }
    ensures there { IfOk result (λ yes. IsTrue yes
        → Contains (said_in answers.new.items) (completed_of answer.now.completion)) }
{
    if has_answer(answers, &answer.completion) {
        return Ok(true);
    }
    let ring = from.ring_after(setting.alloc, &answer.slots)?;
    let reached = Reached {
        ring,
        printed: String::new(setting.alloc),
        past: None,
    };
    if !goes_on(setting, reached, behind)? {
        return Ok(false);
    }
    let past = spent.keep_order(setting.alloc, from, &answer.order)?;
    let completion = answer.completion.copy(setting.alloc)?;
    answers.push(Said { completion, past })?;
    Ok(true)
}

// Appends the answers that a ring can give. Returns whether the list then has all of them.
fn push_answers(
    setting: &WalkSetting<'_>,
    spent: &mut Spent,
    answers: &mut Vec<Said>,
    from: &Reached,
    asking: &Inquiry<'_>,
) -> Result<bool, NoMemory>
    requires few { from.now.ring.submissions < MOST_SUBMISSIONS }
    requires ring { IsRing (ring_with_slots setting.now.catalogue.now from.now.ring) }
    ensures grows { IfOk result (λ _. Grows
        (MaySay (ring_with_slots setting.now.catalogue.now from.now.ring)
        (all_asked asking.now.requests.now) (instructions_of asking.now.behind.now)
        asking.now.place) (said_in answers.old.items) (said_in answers.new.items)) }
    ensures all { IfOk result (λ all. IsTrue all → HasEachSaid
        (ring_with_slots setting.now.catalogue.now from.now.ring)
        (all_asked asking.now.requests.now) asking.now.place (said_in answers.new.items)) }
{
    let found = may_answer(
        setting.alloc,
        setting.catalogue,
        &from.ring.slots,
        from.ring.submissions,
        asking.requests,
        asking.place,
        setting.limits,
    )?;
    let mut are_there = true;
    for answer in &found.answers {
        let is_there = push_answer(setting, spent, answers, from, answer, asking.behind)?;
        are_there = both(are_there, is_there);
    }
    let all = both(found.are_all, are_there);
    Ok(all)
}

// Returns the answers of the request at some rings, and whether these are all.
fn answers_at(
    setting: &WalkSetting<'_>,
    spent: &mut Spent,
    rings: &[Reached],
    asking: &Inquiry<'_>,
) -> Result<(Vec<Said>, bool), NoMemory>
    requires { AreRings (stages_of setting.now.catalogue.now rings.now) }
    ensures each { IfOk result (λ found. AreSaidFrom (stages_of setting.now.catalogue.now rings.now)
        (all_asked asking.now.requests.now) (instructions_of asking.now.behind.now)
        asking.now.place (said_in found.0.items)) }
    ensures all { IfOk result (λ found. IsTrue found.1 → HasEachSaidFrom
        (stages_of setting.now.catalogue.now rings.now) (all_asked asking.now.requests.now)
        asking.now.place (said_in found.0.items)) }
{
    let mut answers = Vec::new(setting.alloc);
    let mut are_all = true;
    for from in rings {
        if !is_accepted(asking.requests, from.ring.submissions) {
            continue;
        }
        let all = push_answers(setting, spent, &mut answers, from, asking)?;
        are_all = both(are_all, all);
    }
    Ok((answers, are_all))
}

/// Returns the answers that the request at `place` has in the plays of the whole script in which no
/// allocation fails, as the definitions have them. Where `are_all` is true there is no other; else
/// that was not shown within `limits`, which apply to the states of each submission at one ring,
/// and to the rings after each command. The orders are those by which the answers were found, and
/// no contract says anything of them.
///
/// # Errors
/// `NoMemory` if an allocation fails.
pub fn may(
    alloc: Global,
    script: &Script,
    place: Place,
    limits: Limits,
) -> Result<RequestAnswers, NoMemory>
    ensures each { IfOk result (λ may. All
        (λ said. MayAnswerIn script.now place (completed_of said.completion)) may.answers.items) }
    ensures all { IfOk result (λ may. IsTrue may.are_all → (c : Completed)
        → MayAnswerIn script.now place c → Contains (said_in may.answers.items) c) }
{
    let setting = WalkSetting {
        alloc,
        catalogue: script.catalogue(),
        limits,
        keeps: false,
        most: 0,
    };
    let mut spent = Spent::nothing(alloc);
    let Some(asking) = asking_at(script.commands(), place) else {
        return Ok(RequestAnswers {
            answers: Vec::new(alloc),
            orders: Vec::new(alloc),
            are_all: true,
        });
    };
    let rings = after_all(&setting, &mut spent, asking.front)?;
    let (answers, all) = answers_at(&setting, &mut spent, &rings.rings, &asking)?;
    Ok(RequestAnswers {
        answers,
        orders: spent.orders,
        are_all: both(rings.are_all, all),
    })
}
