//! The text of each command: the ring's answer to it.
ghost use Rattle.std.specs.Prelude.{◌≡◌, ◌≢◌, ◌<◌};
ghost use Rattle.fx_script.specs.Words.{All, Err, IfOk, OnOk, Some, None, length, string_bytes, negated, all_asked, ring_of, reported, Workers};
ghost use Rattle.fx_script.specs.Words.{MakesSparse, RegistersList, Unregisters, SetsRange, UpdatesRing, SubmitsAll, instruction_of, result_line};
ghost use Rattle.fx_script.specs.Play.{Prints, PrintsEnd};
ghost use Rattle.fx_script.specs.PlayedRing.{IsAnswerText};
ghost use Rattle.fx_script.specs.Text.{report_text};

use crate::player::Setting;
use fx_base::{Catalogue, Errno, NoMemory};
use fx_chain::{Gate, Request};
use fx_language::Command;
use fx_print::{
    refused_line, result_line, submission_text, teardown_text, too_many_line, with_closes,
};
use fx_ring::{Report, Ring, SubmitFault};
use fx_table::FileTable;
use std::alloc::Global;
use std::sync::Wait;
use std::thread::Threads;

/// Returns the text of a submission: a line for each completion, then one for each file that was
/// closed, then one for each of their tags. Requires that the entry of each closed file is below
/// [`Catalogue::len`], as with the catalogue of the ring that returned the report.
///
/// # Errors
/// `NoMemory` if an allocation for the text or the tags fails.
pub fn report_text(
    alloc: Global,
    report: &Report,
    catalogue: &Catalogue,
) -> Result<String, NoMemory>
    requires { All (λ file. file.entry < length catalogue.now) report.now.closes.files }
    ensures { IfOk result (λ text.
        string_bytes text ≡ report_text catalogue.now (reported report.now)) }
{
    submission_text(
        alloc,
        catalogue,
        report.completions.as_slice(),
        &report.closes,
    )
}

// Returns the text of a submission's answer: the text of its report, as [`report_text`] does, or
// the line of its refusal. Fails if an allocation of the submission or of the text fails.
pub fn answer_text(
    alloc: Global,
    catalogue: &Catalogue,
    answer: Result<Report, SubmitFault>,
) -> Result<String, NoMemory>
    requires entries { IfOk answer (λ report.
        All (λ file. file.entry < length catalogue.now) report.closes.files) }
    requires workers { answer ≢ Err Workers }
    ensures { IfOk result (λ text. IsAnswerText catalogue.now answer (string_bytes text)) }
{
    match answer {
        Ok(report) => report_text(alloc, &report, catalogue),
        Err(SubmitFault::Cut(fault)) => refused_line(alloc, fault),
        Err(SubmitFault::TooMany) => too_many_line(alloc),
        Err(SubmitFault::NoMemory) => Err(NoMemory),
        Err(SubmitFault::Workers) => unreachable!(),
    }
}

// Returns the line of a refused call: its word, and its error, negated.
fn refusal(alloc: Global, word: &str, errno: Errno) -> Result<String, NoMemory>
    ensures { IfOk result (λ text. string_bytes text ≡ result_line word.now (negated errno)) }
{
    result_line(alloc, word, -i64::from(errno.code()))
}

fn sparse(alloc: Global, ring: &mut Ring, n: u32) -> Result<String, NoMemory>
    ensures { IfOk result (λ text. Prints ring.old (MakesSparse n) ring.new (string_bytes text)) }
{
    match ring.register_sparse(alloc, n) {
        Ok(()) => result_line(alloc, "sparse", 0),
        Err(errno) => refusal(alloc, "sparse", errno),
    }
}

fn register(alloc: Global, ring: &mut Ring, list: &[i32]) -> Result<String, NoMemory>
    ensures { IfOk result (λ text.
        Prints ring.old (RegistersList list.now None) ring.new (string_bytes text)) }
{
    match ring.register(alloc, list) {
        Ok(()) => result_line(alloc, "register", 0),
        Err(errno) => refusal(alloc, "register", errno),
    }
}

fn register_tagged(
    alloc: Global,
    ring: &mut Ring,
    list: &[i32],
    tags: &[u64],
) -> Result<String, NoMemory>
    ensures { IfOk result (λ text.
        Prints ring.old (RegistersList list.now (Some tags.now)) ring.new (string_bytes text)) }
{
    match ring.register_tagged(alloc, list, tags) {
        Ok(()) => result_line(alloc, "register", 0),
        Err(errno) => refusal(alloc, "register", errno),
    }
}

fn unregister(alloc: Global, ring: &mut Ring) -> Result<String, NoMemory>
    ensures { IfOk result (λ text. Prints ring.old Unregisters ring.new (string_bytes text)) }
{
    match ring.unregister(alloc) {
        Ok(closes) => {
            let line = result_line(alloc, "unregister", 0)?;
            with_closes(alloc, line.as_str(), ring.catalogue(), &closes)
        }
        Err(errno) => refusal(alloc, "unregister", errno),
    }
}

fn range(alloc: Global, ring: &mut Ring, off: u32, len: u32) -> Result<String, NoMemory>
    ensures { IfOk result (λ text.
        Prints ring.old (SetsRange off len) ring.new (string_bytes text)) }
{
    match ring.alloc_range(off, len) {
        Ok(()) => result_line(alloc, "range", 0),
        Err(errno) => refusal(alloc, "range", errno),
    }
}

fn update(alloc: Global, ring: &mut Ring, off: u32, list: &[i32]) -> Result<String, NoMemory>
    ensures { IfOk result (λ text.
        Prints ring.old (UpdatesRing off list.now None) ring.new (string_bytes text)) }
{
    match ring.update(alloc, off, list) {
        Ok((count, closes)) => {
            let line = result_line(alloc, "regupdate", i64::from(count))?;
            with_closes(alloc, line.as_str(), ring.catalogue(), &closes)
        }
        Err(errno) => refusal(alloc, "regupdate", errno),
    }
}

fn update_tagged(
    alloc: Global,
    ring: &mut Ring,
    off: u32,
    list: &[i32],
    tags: &[u64],
) -> Result<String, NoMemory>
    ensures { IfOk result (λ text.
        Prints ring.old (UpdatesRing off list.now (Some tags.now)) ring.new (string_bytes text)) }
{
    match ring.update_tagged(alloc, off, list, tags) {
        Ok((count, closes)) => {
            let line = result_line(alloc, "regupdate", i64::from(count))?;
            with_closes(alloc, line.as_str(), ring.catalogue(), &closes)
        }
        Err(errno) => refusal(alloc, "regupdate", errno),
    }
}

fn submit<T: FileTable, R: Threads + Wait + Sync, G: Gate>(
    setting: &Setting<'_, R, G>,
    ring: &mut Ring,
    requests: &[Request],
) -> Result<String, NoMemory>
    ensures { IfOk result (λ text.
        Prints ring.old (SubmitsAll (all_asked requests.now)) ring.new (string_bytes text)) }
{
    let (rt, alloc, workers) = (setting.rt, setting.alloc, setting.workers);
    let answer = ring.submit::<T, G>(rt, alloc, requests, workers, setting.gate);
    answer_text(alloc, ring.catalogue(), answer)
}

// Executes a command on the ring, and returns its text. An allocation failure of a call between
// submissions is printed; here `NoMemory` means that one of a submission or of a text failed.
pub fn command_text<T: FileTable, R: Threads + Wait + Sync, G: Gate>(
    setting: &Setting<'_, R, G>,
    ring: &mut Ring,
    command: &Command,
) -> Result<String, NoMemory>
    ensures { IfOk result (λ text.
        Prints ring.old (instruction_of command.now) ring.new (string_bytes text)) }
{
    let alloc = setting.alloc;
    match command {
        Command::Sparse(n) => sparse(alloc, ring, *n),
        Command::Register(list, None) => register(alloc, ring, list.as_slice()),
        Command::Register(list, Some(tags)) => {
            register_tagged(alloc, ring, list.as_slice(), tags.as_slice())
        }
        Command::Unregister => unregister(alloc, ring),
        Command::Range(off, len) => range(alloc, ring, *off, *len),
        Command::Update(off, list, None) => update(alloc, ring, *off, list.as_slice()),
        Command::Update(off, list, Some(tags)) => {
            update_tagged(alloc, ring, *off, list.as_slice(), tags.as_slice())
        }
        Command::Submit(requests) => submit::<T, R, G>(setting, ring, requests.as_slice()),
    }
}

// Closes the files that are left at the end of a script, and returns the text of the end.
pub fn end_text(alloc: Global, ring: &mut Ring) -> Result<String, NoMemory>
    ensures end { IfOk result (λ text. PrintsEnd (ring_of ring.old) (string_bytes text)) }
    ensures closed { OnOk result ((ring_of ring.new).size ≡ 0) }
{
    if ring.size() == 0 {
        return Ok(String::new(alloc));
    }
    match ring.unregister(alloc) {
        Ok(closes) => teardown_text(alloc, ring.catalogue(), &closes),
        Err(_refused) => Err(NoMemory),
    }
}
