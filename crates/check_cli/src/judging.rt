//! A script and a text, judged: with progress on a terminal, and after a break from the ring that
//! the text shows there.
ghost use Rattle.std.specs.Prelude.{IfOk};
ghost use Rattle.check_judge.specs.Judged.{IsJudged};

use check_explain::{Facts, Lines, Question, TextPlace, Words, cut_word};
use check_judge::{Break, Fault, Judgement, judge, judge_from};
use check_lines::copy_of;
use check_search::{Doubt, Limits};
use fx_base::NoMemory;
use fx_order::RingSlots;
use fx_script::Script;
use std::io::IsTerminal;
use std::time::Instant;

/// The largest limit of the first search, in states. Each later search has `LARGER` times as many.
const FIRST_STATES: usize = 16_384;

const LARGER: usize = 4;

/// The number of bytes of a MiB.
pub(crate) const MIB: usize = 1_048_576;

/// The number of bytes that suffice for the one state of an empty submission.
const EMPTY_BYTES: usize = 1 << 20;

/// The largest number of searches before the last one.
const SEARCHES: usize = 32;

/// The number of seconds before anything is printed.
const QUIET_SECONDS: u64 = 2;

// Returns the limit of the first search, in states, from which `LARGER` times as many again and
// again become `most`: so the searches before the last one meet a third of its states.
fn first_states(most: usize) -> usize {
    let mut states = most;
    for _ in 0..SEARCHES {
        if states <= FIRST_STATES {
            break;
        }
        states = states.div_ceil(LARGER);
    }
    states
}

// Prints on a terminal that a search with few states did not decide a submission, and why.
fn tell_doubt(rt: &HostRuntime, submission: u32, doubt: &Doubt, few: Limits, most: usize) {
    let (states, memory) = (few.states, few.bytes / MIB);
    // A line that can't be printed is left out.
    let _ = match doubt {
        Doubt::TooManyStates => eprintln!(rt;
            "fixcheck: submission {submission} has more than {states} states; the limit is {most}"
        ),
        Doubt::TooMuchMemory => eprintln!(rt;
            "fixcheck: submission {submission} has more states than {memory} MiB hold"
        ),
        Doubt::NotShown => eprintln!(rt;
            "fixcheck: submission {submission} isn't decided by {states} states; the limit is {most}"
        ),
    };
}

/// Decides whether a script may print a text, as `check_judge::judge` does with the given limits.
/// If standard error is a terminal, it searches with few states first, and after two seconds prints
/// how many states were too few. Where the memory was too little, the next search is the last one:
/// more states would need more memory.
///
/// # Errors
/// `NoMemory` if an allocation fails.
pub fn judged(
    rt: &HostRuntime,
    script: &Script,
    text: &[u8],
    limits: Limits,
) -> Result<Judgement, NoMemory>
    ensures { IfOk result (IsJudged script.now text.now) }
{
    let alloc = rt.alloc();
    let (true, Ok(begin)) = (rt.stderr().is_terminal(), Instant::now(rt)) else {
        return judge(alloc, script, text, limits);
    };
    let mut states = first_states(limits.states);
    for _ in 0..SEARCHES {
        if states >= limits.states {
            break;
        }
        let few = Limits {
            states,
            bytes: limits.bytes,
        };
        let judgement = judge(alloc, script, text, few)?;
        let Judgement::Undecided(submission, doubt) = &judgement else {
            return Ok(judgement);
        };
        if let Ok(passed) = begin.elapsed(rt)
            && passed.as_secs() >= QUIET_SECONDS
        {
            tell_doubt(rt, *submission, doubt, few, limits.states);
        }
        if matches!(doubt, Doubt::TooMuchMemory) {
            break;
        }
        states = states.saturating_mul(LARGER);
    }
    judge(alloc, script, text, limits)
}

// Returns the ring after the expected lines of a call, and the number of commands after which the
// ring is so.
fn after_expected(
    question: &Question<'_>,
    broken: &Break,
    expected: &str,
) -> Result<Option<(RingSlots, usize)>, NoMemory> {
    // nothing prints an empty line, so this text breaks after the call's lines, and the break
    // has the ring
    let mut text = Words::new(question.alloc);
    text.say(expected);
    text.say("\n");
    // an empty submission after the call has one state, and prints nothing
    let limits = Limits {
        states: 1,
        bytes: EMPTY_BYTES,
    };
    let (alloc, commands) = (question.alloc, broken.commands);
    let text = text.text()?.as_bytes();
    let ring = copy_of(alloc, &broken.ring)?;
    match judge_from(alloc, question.script, commands, ring, text, limits)? {
        Some(Judgement::NotLegal(next)) if next.commands > 0 => {
            Ok(Some((next.ring, next.commands)))
        }
        _ => Ok(None),
    }
}

// Checks whether a line says that the call, or the submission, with this first line was refused.
fn is_refusal(line: &[u8], expected: &[u8]) -> bool {
    let (word, result) = cut_word(line);
    let refuses = result.starts_with(b"-") || result.starts_with(b"refused ");
    refuses && word == cut_word(expected).0
}

// Returns the ring after a call, or after a refused submission, whose first line is this one, and
// the number of commands after which the ring is so. It is the expected ring if the line is the
// expected one, and the ring before the call if the line says that it was refused.
fn after_line(
    question: &Question<'_>,
    broken: &Break,
    line: &[u8],
) -> Result<Option<(RingSlots, usize)>, NoMemory> {
    let is_refused = match &broken.fault {
        Fault::Text(expected) if Lines::new(expected.as_bytes()).first() == line => {
            return after_expected(question, broken, expected.as_str());
        }
        Fault::Text(expected) => is_refusal(line, expected.as_bytes()),
        Fault::Line(..) | Fault::Order(..) => is_refusal(line, b"submit"),
    };
    if !is_refused {
        return Ok(None);
    }
    Ok(Some((copy_of(question.alloc, &broken.ring)?, 1)))
}

// Returns the ring that a text shows after the command at which it breaks, the number of commands
// that were played by then, and the rest of the text, or `None` if it shows no ring. It is advice,
// and no contract speaks of it: `judge_from` checks that it is a ring.
//
// Of a submission, each request has its completion. A file that was at a slot, or that a completion
// installs there, is there unless it has a `closed` line, and no two files are at one slot. Of a
// call, or a refused submission, the first line is the expected one, or says that it was refused.
fn shown_after<'a>(
    question: &'a Question<'_>,
    broken: &Break,
    place: &TextPlace<'a>,
    facts: &Option<Facts<'a>>,
) -> Result<Option<(RingSlots, usize, &'a [u8])>, NoMemory> {
    if let Some(facts) = facts
        && let Some((slots, rest)) = facts.slots_after()?
    {
        let ring = RingSlots {
            slots,
            submissions: broken.ring.submissions.saturating_add(1),
            registrations: broken.ring.registrations,
        };
        return Ok(Some((ring, 1, rest)));
    }
    let mut lines = place.text;
    match after_line(question, broken, lines.take())? {
        Some((ring, commands)) => Ok(Some((ring, commands, lines.after_closes().rest))),
        None => Ok(None),
    }
}

/// Judges a text after a break, from the ring that the text shows there: the verdict is that of
/// `check_judge::judge_from` on that ring, and nothing is proved of whether a play leads to it. A
/// further break is counted from the beginning of the script and of the text. `place`: that of the
/// break. `facts`: those of the submission there. Returns `None` if the text shows no ring there.
///
/// # Errors
/// `NoMemory` if an allocation fails.
pub(crate) fn judged_after<'a>(
    question: &'a Question<'_>,
    limits: Limits,
    broken: &'a Break,
    place: &TextPlace<'a>,
    facts: &Option<Facts<'a>>,
) -> Result<Option<Judgement>, NoMemory> {
    let Some((ring, played, rest)) = shown_after(question, broken, place, facts)? else {
        return Ok(None);
    };
    let (alloc, script) = (question.alloc, question.script);
    let commands = broken.commands.saturating_add(played);
    let at = question.text.len().saturating_sub(rest.len());
    let mut judgement = judge_from(alloc, script, commands, ring, rest, limits)?;
    if let Some(Judgement::NotLegal(next)) = &mut judgement {
        next.commands = next.commands.saturating_add(commands);
        next.at = next.at.saturating_add(at);
    }
    Ok(judgement)
}
