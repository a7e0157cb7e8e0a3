//! Makes calls whose allocations are refused from outside, and prints their results. After an
//! allocation failure a call is made again. tests/check-allocation-failures passes one call to the
//! program, and judges what it prints. Contracts say what a failed call leaves. Begin reading at
//! `rings.rt`. Other lines name work whose calls make no allocation (`work.rt`).
mod rings;
mod tables;

use crate::{Host, work};
use fx_base::CloseList;
use fx_baton::BatonTable;
use fx_counted::CountedTable;
use fx_ring::{Report, SubmitFault};
use fx_table::FileTable;
use std::fmt::Debug;

// The number of attempts of a call: a second one after an allocation failure.
const ATTEMPTS: u32 = 2;

// A call; the table, if it is a call on a shared table; and the number of workers, passes, slots,
// file numbers or catalogue entries, as the call needs.
type Asked<'a> = (&'a str, &'a str, u32);

// Returns the call that a line asks for, or `None`.
fn asked(line: &str) -> Option<Asked<'_>> {
    let mut words = line.split_whitespace();
    Some((words.next()?, words.next()?, words.next()?.parse().ok()?))
}

// Prints that the call succeeded.
fn print_done<R: Print>(rt: &R, call: &str) {
    let _ = println!(rt; "{call}: done");
}

// Prints that the call was refused, and why.
fn print_refused<R: Print, F: Debug + Drop>(rt: &R, call: &str, fault: F) {
    let _ = println!(rt; "{call}: {fault:?}");
}

// Prints the files that were closed.
fn print_closes<R: Print>(rt: &R, closes: &CloseList) {
    for closed in closes.files() {
        let _ = println!(rt; "{closed:?}");
    }
}

// Prints the report of a submission, or why it was refused. Returns whether it was accepted.
fn is_accepted<R: Print>(rt: &R, call: &str, answer: Result<Report, SubmitFault>) -> bool {
    match answer {
        Ok(report) => {
            print_done(rt, call);
            for completion in &report.completions {
                let _ = println!(rt; "{completion:?}");
            }
            print_closes(rt, &report.closes);
            true
        }
        Err(fault) => {
            print_refused(rt, call, fault);
            false
        }
    }
}

// Makes a call on a shared table, as `make` does.
fn make_on<T: FileTable, H: Host>(rt: &H, call: &str, count: u32) -> Option<()> {
    match call {
        "open" => tables::open::<T, H>(rt, rt.alloc(), count),
        "submit" => rings::submit::<T, H>(rt, rt.alloc(), count),
        "submit_open" => rings::submit_open::<T, H>(rt, rt.alloc()),
        _ => work::play::<T, H>(rt, rt.alloc(), call, count),
    }
}

// Makes the call. Returns `None` if an allocation before it fails, or if there is no such call.
fn make<H: Host>(rt: &H, asked: Asked<'_>) -> Option<()> {
    let (alloc, (call, table, count)) = (rt.alloc(), asked);
    match call {
        "add" => tables::add(rt, alloc, count),
        "prepare" => tables::prepare(rt, alloc, count),
        "tags" => rings::tags(rt, alloc),
        _ => match table {
            "words" => make_on::<CountedTable, H>(rt, call, count),
            "baton" => make_on::<BatonTable, H>(rt, call, count),
            _ => None,
        },
    }
}

/// Makes the call that each line asks for. Of the output, only the end allocates: a failure there
/// is printed.
pub(crate) fn play<H: Host>(rt: &H, text: &str) {
    for line in text.lines() {
        let made = match asked(line) {
            Some(asked) => make(rt, asked),
            None => None,
        };
        if made.is_none() {
            let _ = println!(rt; "no setting");
        }
    }
    let _ = match String::from_str(rt.alloc(), "end") {
        Ok(text) => println!(rt; "{text}"),
        Err(_refused) => println!(rt; "end: refused"),
    };
}
