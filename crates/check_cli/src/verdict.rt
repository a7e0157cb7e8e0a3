//! The printed verdicts.
ghost use Rattle.std.specs.Prelude.{◌≡◌};
ghost use Rattle.check_cli.specs.Status.{status};

use crate::judging::judged_after;
use crate::lists::push_order;
use check_explain::{Facts, Question, TextPlace, Words, push_why_broken};
use check_judge::{Break, Judgement};
use check_search::{Doubt, Limits};
use fx_arguments::fixcheck::Settings;
use fx_base::NoMemory;
use fx_order::Order;

/// Returns the exit status of a verdict: 0 for legal, 1 for not legal, 6 for undecided.
pub fn status_of(judgement: &Judgement) -> u8
    ensures { result ≡ status judgement.now }
{
    match judgement {
        Judgement::Legal(_) => 0,
        Judgement::NotLegal(_) => 1,
        Judgement::Undecided(..) => 6,
    }
}

// Appends the command at which a text breaks, and its line of the script.
fn push_command(
    report: &mut Words,
    question: &Question<'_>,
    broken: &Break,
    place: &TextPlace<'_>,
) {
    if broken.commands >= question.script.commands().len() {
        return report.say("not legal: the end of the script; ");
    }
    let command = broken.commands.saturating_add(1);
    report.count("not legal: command ", command as u64, "");
    report.count(", line ", question.line_at(place), " of the script; ");
}

// Appends the command at which a text breaks at a place, and the reason. `facts`: those of the
// submission there, if it is one.
fn push_break(
    report: &mut Words,
    question: &Question<'_>,
    broken: &Break,
    place: &TextPlace<'_>,
    facts: &Option<Facts<'_>>,
) -> Result<(), NoMemory> {
    push_command(report, question, broken, place);
    push_why_broken(report, question, broken, place, facts)
}

// Appends a break at a place, with the facts of the submission there. A function of its own, since
// the borrow checker requires the facts, the question and the break at lifetimes of one signature.
fn push_reason(
    report: &mut Words,
    question: &Question<'_>,
    broken: &Break,
    place: &TextPlace<'_>,
) -> Result<(), NoMemory> {
    let facts = question.facts_at(broken, place)?;
    push_break(report, question, broken, place, &facts)
}

// Appends the submission that wasn't decided, and the reason.
fn push_doubt(report: &mut Words, settings: &Settings<'_>, submission: u32, doubt: &Doubt) {
    report.count("submission ", u64::from(submission), "");
    match doubt {
        Doubt::TooManyStates => {
            report.count(" has more than ", u64::from(settings.states), " states\n");
        }
        Doubt::TooMuchMemory => {
            let memory = u64::from(settings.memory);
            report.count(" has more states than ", memory, " MiB hold\n");
        }
        Doubt::NotShown => report.say(" wasn't shown to have an order, or to have none\n"),
    }
}

/// Returns the lines of a verdict.
pub(crate) fn verdict_text(
    question: &Question<'_>,
    settings: &Settings<'_>,
    judgement: &Judgement,
) -> Result<Words, NoMemory> {
    let mut report = Words::new(question.alloc);
    match judgement {
        Judgement::Legal(orders) => {
            report.say("legal\n");
            for order in orders {
                push_order(&mut report, order.submission, &order.places);
            }
        }
        Judgement::NotLegal(broken) => {
            let place = question.place_of(broken, question.beginning());
            push_reason(&mut report, question, broken, &place)?;
        }
        Judgement::Undecided(submission, doubt) => {
            report.say("undecided: ");
            push_doubt(&mut report, settings, *submission, doubt);
        }
    }
    Ok(report)
}

// Appends a break at a place, and the verdict on the text after it unless that is a further break,
// which it returns. Nothing follows the end of the script.
fn push_next(
    report: &mut Words,
    question: &Question<'_>,
    settings: &Settings<'_>,
    limits: Limits,
    broken: &Break,
    place: &TextPlace<'_>,
) -> Result<Option<Break>, NoMemory> {
    let facts = question.facts_at(broken, place)?;
    push_break(report, question, broken, place, &facts)?;
    if broken.commands >= question.script.commands().len() {
        return Ok(None);
    }
    let command = broken.commands.saturating_add(1) as u64;
    match judged_after(question, limits, broken, place, &facts)? {
        Some(Judgement::NotLegal(next)) => return Ok(Some(next)),
        Some(Judgement::Undecided(submission, doubt)) => {
            report.count("undecided after command ", command, ": ");
            push_doubt(report, settings, submission, &doubt);
        }
        Some(Judgement::Legal(_)) => report.count("legal after command ", command, "\n"),
        None => {
            let after = ": the text shows no ring there\n";
            report.count("not judged after command ", command, after);
        }
    }
    Ok(None)
}

/// Returns the lines of all breaks of a text, each found from the ring that the text shows after
/// the one before it, and of the verdict on what follows the last one.
pub(crate) fn breaks_text(
    question: &Question<'_>,
    settings: &Settings<'_>,
    limits: Limits,
    first: &Break,
) -> Result<Words, NoMemory> {
    let mut report = Words::new(question.alloc);
    let mut place = question.place_of(first, question.beginning());
    let mut next = push_next(&mut report, question, settings, limits, first, &place)?;
    for _ in 0..question.script.commands().len() {
        let Some(broken) = next else {
            break;
        };
        place = question.place_of(&broken, place);
        next = push_next(&mut report, question, settings, limits, &broken, &place)?;
    }
    Ok(report)
}
