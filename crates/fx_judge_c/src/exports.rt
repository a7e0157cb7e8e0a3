//! The functions that C calls. Each has the contract of the call of `fx_judge` that it makes, and
//! the major version in its name, since C passes structs.
ghost use Rattle.std.specs.Prelude.{false, true};
ghost use Rattle.fx_judge.specs.Arrays.{passed};
ghost use Rattle.fx_judge.specs.Logs.{IsLogVerdict};
ghost use Rattle.fx_judge.specs.Outcomes.{IsTextList};
ghost use Rattle.fx_judge.specs.Verdicts.{IsTextVerdict};

use fx_judge::{
    CallLog, YachtEvent, YachtFile, YachtJudgement, YachtRequest, YachtStep, YachtTexts,
    YachtVerdict, judge_log, judge_text, limits_of, list_texts, log_limits_of,
};
use std::alloc::Global;

/// Decides whether a script may print a text, by a search of at most `states` states and `memory`
/// MiB for each part of a submission that has slots of its own: `fx_judge::judge_text`.
#[unsafe(no_mangle)]
pub extern "C" fn yacht_judge_6(
    alloc: Global,
    script: &[u8],
    text: &[u8],
    states: u32,
    memory: u32,
    note: &mut [u8],
    verdict: &mut YachtVerdict,
) -> u32
    ensures { IsTextVerdict script.now text.now result verdict.new }
{
    let limits = limits_of(states, memory);
    judge_text(alloc, script, text, limits, note, verdict)
}

/// Lists the texts that a script may print, by searches of at most `states` states and `memory` MiB
/// in all: `fx_judge::list_texts`.
#[unsafe(no_mangle)]
pub extern "C" fn yacht_outcomes_6(
    alloc: Global,
    script: &[u8],
    states: u32,
    memory: u32,
    texts: &mut [u8],
    lengths: &mut [u64],
    found: &mut YachtTexts,
) -> u32
    ensures { IsTextList script.now result found.new texts.new lengths.new }
{
    let limits = limits_of(states, memory);
    list_texts(alloc, script, limits, texts, lengths, found)
}

/// Judges a log of calls in flight, by searches of at most `states` states and `memory` MiB, and of
/// at most `moves` moves together, and writes the first steps of the reason: `fx_judge::judge_log`.
#[unsafe(no_mangle)]
pub extern "C" fn yacht_judge_events_6(
    alloc: Global,
    files: &[YachtFile],
    slots: u32,
    requests: &[YachtRequest],
    entries: &[i32],
    bytes: &[u8],
    events: &[YachtEvent],
    states: u32,
    memory: u32,
    moves: u64,
    steps: &mut [YachtStep],
    judgement: &mut YachtJudgement,
) -> u32
    ensures { IsLogVerdict false
        (passed files.now slots requests.now entries.now bytes.now events.now) result
        judgement.new }
{
    let log = CallLog {
        files,
        slots,
        requests,
        entries,
        bytes,
        events,
    };
    let limits = log_limits_of(states, memory, moves);
    judge_log(alloc, &log, false, limits, steps, judgement)
}

/// Judges a log of calls in flight by whole updates, as `yacht_judge_events` does:
/// `fx_judge::judge_log`.
#[unsafe(no_mangle)]
pub extern "C" fn yacht_judge_whole_updates_6(
    alloc: Global,
    files: &[YachtFile],
    slots: u32,
    requests: &[YachtRequest],
    entries: &[i32],
    bytes: &[u8],
    events: &[YachtEvent],
    states: u32,
    memory: u32,
    moves: u64,
    steps: &mut [YachtStep],
    judgement: &mut YachtJudgement,
) -> u32
    ensures { IsLogVerdict true
        (passed files.now slots requests.now entries.now bytes.now events.now) result
        judgement.new }
{
    let log = CallLog {
        files,
        slots,
        requests,
        entries,
        bytes,
        events,
    };
    let limits = log_limits_of(states, memory, moves);
    judge_log(alloc, &log, true, limits, steps, judgement)
}
