//! The program `fixcheck`: prints whether the rules allow a text for a script.
#![tactic(auto)]

mod input;
mod judging;
mod lists;
mod verdict;

use check_explain::{History, Question, Words, asked_lines};
use check_judge::Judgement;
use check_lines::place_of;
use check_search::Limits;
use check_texts::{may, texts_of};
use fx_arguments::fixcheck::{Asked, Settings, settings_in};
use fx_arguments::words;
use fx_order::Order;
use fx_script::{PlayFault, Script};
use input::{ARGUMENTS, NoVerdict, note_script, read_script, read_text, script_of};
use judging::{MIB, judged};
use lists::{listing_of_answers, listing_of_texts, status_of_answers, status_of_texts};
use std::io::{self, Write};
use std::process::ExitCode;
use verdict::{breaks_text, status_of, verdict_text};

/// The number of bytes of a history that are kept before they are written.
const KEPT: usize = 65_536;

// Writes words to standard output.
fn write(rt: &HostRuntime, words: &Words) -> Result<(), NoVerdict> {
    match io::writer(rt).write_all(words.text()?.as_bytes()) {
        Ok(()) => Ok(()),
        Err(_) => Err(NoVerdict::Fault(PlayFault::Write)),
    }
}

// Prints a whole history of a legal text, part by part.
fn print_history<'a>(
    rt: &HostRuntime,
    question: &'a Question<'a>,
    orders: &'a [Order],
) -> Result<(), NoVerdict> {
    let mut history = History::new(question, orders);
    for command in question.script.commands() {
        history.push(command)?;
        if history.lines().len() >= KEPT {
            write(rt, history.lines())?;
            history.clear();
        }
    }
    history.push_end();
    write(rt, history.lines())
}

// Returns the limits of the search.
fn limits_of(settings: Settings<'_>) -> Limits {
    let (states, memory) = (settings.states as usize, settings.memory as usize);
    let bytes = memory.saturating_mul(MIB);
    Limits { states, bytes }
}

// Prints the answers of the request at the place that a word names. Returns the exit status.
fn list_answers(
    rt: &HostRuntime,
    settings: Settings<'_>,
    word: &str,
    script: &Script,
) -> Result<u8, NoVerdict> {
    let alloc = rt.alloc();
    let Some(place) = place_of(alloc, word.as_bytes())? else {
        let words = format!(in alloc; "{word} is not the place of a request, as 1.1.2")?;
        return Err(NoVerdict::Because(ARGUMENTS, words));
    };
    let answers = may(alloc, script, place, limits_of(settings))?;
    if answers.answers.is_empty() && answers.are_all {
        let words = format!(in alloc; "no accepted submission of the script has a request {word}")?;
        return Err(NoVerdict::Because(ARGUMENTS, words));
    }
    let list = listing_of_answers(alloc, script, settings, &answers)?;
    write(rt, &list)?;
    Ok(status_of_answers(&answers))
}

// Prints the first `most` texts of a script. Returns the exit status.
fn list_texts(
    rt: &HostRuntime,
    settings: Settings<'_>,
    most: u32,
    script: &Script,
) -> Result<u8, NoVerdict> {
    let alloc = rt.alloc();
    let all = texts_of(alloc, script, limits_of(settings), most as usize)?;
    let list = listing_of_texts(alloc, script, settings, &all)?;
    write(rt, &list)?;
    Ok(status_of_texts(&all))
}

// Prints a judgement: the verdict, or what the settings ask for.
fn print_judgement(
    rt: &HostRuntime,
    question: &Question<'_>,
    settings: Settings<'_>,
    judgement: &Judgement,
) -> Result<(), NoVerdict> {
    match judgement {
        Judgement::Legal(orders) if settings.history => print_history(rt, question, orders),
        Judgement::NotLegal(first) if settings.keep_going => {
            let report = breaks_text(question, &settings, limits_of(settings), first)?;
            write(rt, &report)
        }
        _ => write(rt, &verdict_text(question, &settings, judgement)?),
    }
}

// Judges the text at a path, and prints the verdict. Returns the exit status.
fn print_verdict(
    rt: &HostRuntime,
    settings: Settings<'_>,
    path: &str,
    script: &Script,
    source: &[u8],
) -> Result<u8, NoVerdict> {
    let text = read_text(rt, path, settings.memory)?;
    let asked = asked_lines(rt.alloc(), source)?;
    let question = Question {
        alloc: rt.alloc(),
        script,
        asked: &asked,
        text: &text,
    };
    let judgement = judged(rt, script, &text, limits_of(settings))?;
    if matches!(&judgement, Judgement::NotLegal(_)) {
        note_script(rt, path, &text)?;
    }
    print_judgement(rt, &question, settings, &judgement)?;
    Ok(status_of(&judgement))
}

// Does what the arguments ask for. Returns the exit status.
fn check(rt: &HostRuntime) -> Result<u8, NoVerdict> {
    let alloc = rt.alloc();
    let words = words(rt)?;
    let settings = settings_in(alloc, words.as_slice())?;
    let source = read_script(rt, settings.script)?;
    let script = script_of(rt, settings, &source)?;
    match settings.asked {
        Asked::Texts(most) => list_texts(rt, settings, most, &script),
        Asked::Answers(place) => list_answers(rt, settings, place, &script),
        Asked::Verdict(path) => print_verdict(rt, settings, path, &script, &source),
    }
}

fn main(rt: HostRuntime) -> ExitCode {
    match check(&rt) {
        Ok(status) => ExitCode::from(status),
        Err(ending) => ExitCode::from(ending.end(&rt)),
    }
}
