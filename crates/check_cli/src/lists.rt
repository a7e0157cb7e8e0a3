//! The printed lists: of the answers of a request, and of the texts of a script, each with the
//! orders that lead to it.
ghost use Rattle.std.specs.Prelude.{◌≡◌};
ghost use Rattle.check_cli.specs.Status.{all_status, may_status};

use check_explain::{Words, access_places};
use check_lines::accepted_in;
use check_texts::{AllTexts, Past, RequestAnswers, Said};
use fx_arguments::fixcheck::Settings;
use fx_base::NoMemory;
use fx_chain::{Place, Request};
use fx_order::AccessPlace;
use fx_script::Script;
use std::alloc::Global;

/// Returns the exit status of the program: 0 if all answers are listed, 6 if there may be more.
pub(crate) fn status_of_answers(may: &RequestAnswers) -> u8
    ensures { result ≡ may_status may.now }
{
    if may.are_all { 0 } else { 6 }
}

/// Returns the exit status of the program: 0 if all ways of the script were found, 6 if there may
/// be more.
pub(crate) fn status_of_texts(all: &AllTexts) -> u8
    ensures { result ≡ all_status all.now }
{
    if all.are_counted { 0 } else { 6 }
}

/// Appends the line of an order: its submission, and of each access the request, and the position
/// in the list of an update.
pub(crate) fn push_order(report: &mut Words, submission: u32, places: &[AccessPlace]) {
    report.count("order ", u64::from(submission), ":");
    for it in places {
        report.say(" ");
        report.place(Place {
            submission,
            chain: it.chain,
            member: it.member,
        });
        if let Some(entry) = it.entry {
            report.count(".", entry as u64, "");
        }
    }
    report.say("\n");
}

/// The orders of a list of answers or of texts.
#[derive(Drop)]
struct ListedOrders<'a> {
    alloc: Global,
    script: &'a Script,
    // The requests of each accepted submission.
    submissions: Vec<&'a [Request]>,
    orders: &'a [Past],
}

impl<'a> ListedOrders<'a> {
    // Returns the orders of submissions of a script.
    fn new(
        alloc: Global,
        script: &'a Script,
        orders: &'a [Past],
    ) -> Result<ListedOrders<'a>, NoMemory> {
        let (mut submissions, mut count) = (Vec::new(alloc), 0u32);
        for command in script.commands() {
            if let Some(requests) = accepted_in(command, count) {
                submissions.push(requests)?;
                count = count.saturating_add(1);
            }
        }
        Ok(ListedOrders {
            alloc,
            script,
            submissions,
            orders,
        })
    }

    // Returns the places of all accesses of the submission of an order, chain by chain.
    fn places_of(&self, past: &Past) -> Result<Vec<AccessPlace>, NoMemory> {
        let nth = (past.submission as usize).saturating_sub(1);
        let requests = self.submissions.get(nth).copied().unwrap_or(&[]);
        let size = u32::try_from(past.size).unwrap_or(0);
        access_places(self.alloc, self.script.catalogue(), size, requests)
    }

    // Appends the line of an order: each access of a chain is the chain's next one.
    fn push(&self, report: &mut Words, past: &Past) -> Result<(), NoMemory> {
        let all = self.places_of(past)?;
        let mut next = Vec::new(self.alloc);
        for i in 0..all.len() {
            for _ in next.len()..all[i].chain as usize {
                next.push(i)?;
            }
        }
        let mut places = Vec::new(self.alloc);
        for made in &past.order {
            if let Some(turn) = next.get_mut((made.chain as usize).saturating_sub(1))
                && let Some(place) = all.get(*turn)
            {
                places.push(*place)?;
                *turn = turn.saturating_add(1);
            }
        }
        push_order(report, past.submission, &places);
        Ok(())
    }

    // Appends the line of an order, by its number in the list, after those of the orders that lead
    // to it, each after two spaces.
    fn push_way(&self, report: &mut Words, last: usize) -> Result<(), NoMemory> {
        let (mut way, mut next) = (Vec::new(self.alloc), Some(last));
        for _ in 0..self.orders.len() {
            if let Some(i) = next
                && let Some(past) = self.orders.get(i)
            {
                way.push(past)?;
                next = past.before;
            }
        }
        for _ in 0..way.len() {
            if let Some(past) = way.pop() {
                report.say("  ");
                self.push(report, past)?;
            }
        }
        Ok(())
    }
}

// Appends that the list was not shown to be whole, with the limits.
fn push_limits(report: &mut Words, settings: Settings<'_>) {
    report.count(
        ": not shown to be all within ",
        u64::from(settings.states),
        " states",
    );
    report.count(" and ", u64::from(settings.memory), " MiB");
}

/// Returns the lines of the answers, each with the orders that lead to it, and a last line that
/// says whether these are all.
pub(crate) fn listing_of_answers(
    alloc: Global,
    script: &Script,
    settings: Settings<'_>,
    may: &RequestAnswers,
) -> Result<Words, NoMemory> {
    let orders = ListedOrders::new(alloc, script, &may.orders)?;
    let mut report = Words::new(alloc);
    for said in &may.answers {
        let it = &said.completion;
        report.place(it.place);
        report.say(" ");
        report.result(it.res);
        report.got(it.got.as_slice());
        report.say("\n");
        orders.push_way(&mut report, said.past)?;
    }
    if may.are_all {
        report.say("these are all, if no allocation fails");
    } else {
        report.say("at least these, if no allocation fails");
        push_limits(&mut report, settings);
    }
    report.say("\n");
    Ok(report)
}

// Appends the line of how many texts there are: what that rests on, and how many are listed, if not
// all are. The number is that of a list of all texts, or else that of the ways. Larger limits don't
// help where u64 doesn't hold the number.
fn push_count(report: &mut Words, settings: Settings<'_>, all: &AllTexts) {
    let listed = all.texts.len() as u64;
    let count = if all.are_all { listed } else { all.ways };
    if !all.are_counted {
        report.say("at least ");
    }
    let noun = if count == 1 { " text" } else { " texts" };
    report.count("", count, noun);
    report.say(", if no allocation fails");
    if !all.are_counted && all.ways < u64::MAX {
        push_limits(report, settings);
    }
    if count > listed {
        report.count("; the first ", listed, ":");
    }
    report.say("\n");
}

/// Returns the lines of the list: the number of texts, and of each text that was made the number,
/// the lines and the orders.
pub(crate) fn listing_of_texts(
    alloc: Global,
    script: &Script,
    settings: Settings<'_>,
    all: &AllTexts,
) -> Result<Words, NoMemory> {
    let orders = ListedOrders::new(alloc, script, &all.orders)?;
    let mut report = Words::new(alloc);
    push_count(&mut report, settings, all);
    for (i, text) in all.texts.iter().enumerate() {
        report.count("\ntext ", i.saturating_add(1) as u64, "\n");
        for line in text.as_str().lines() {
            report.say("    ");
            report.say(line);
            report.say("\n");
        }
        if let Some(by) = all.by.get(i) {
            for past in by.iter().filter_map(|number| all.orders.get(*number)) {
                orders.push(&mut report, past)?;
            }
        }
    }
    Ok(report)
}
