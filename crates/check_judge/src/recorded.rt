//! The report that lines describe, and the closed files that they name.
ghost use Rattle.std.specs.Prelude.{◌≡◌, ◌==◌};
ghost use Rattle.check_judge.specs.Words.{ℕ, All, IfNone, IfOk, IfSome, List, Some, filter, map, not, false, name_at, IsInOrderOfMark};
ghost use Rattle.check_judge.specs.Words.{Closed as File, named_close, named_closes, all_completed, completed_of, all_asked, asked_of};
ghost use Rattle.check_lines.specs.ClosedView.{named_close_of};
ghost use Rattle.check_judge.specs.Recorded.{AreApart, HasDistinctMarks, HasNone, IsFileAtSlot, MayBeClosed, Yields, AreFrom, Installed};
ghost use Rattle.check_judge.specs.Recorded.{OneInstalled};

use check_lines::ClosedLine;
use fx_base::{Catalogue, Closed, Mark, NoMemory};
use fx_chain::{Completion, Request};
use fx_order::Slots;
use std::alloc::Global;

/// A report of a submission that is to be judged, for instance a kernel's.
#[derive(Drop)]
pub struct Recorded {
    /// The completion of each request, in order of place.
    pub completions: Vec<Completion>,
    /// The closed files, in order of mark.
    pub closes: Vec<Closed>,
}

/// Returns the file with this mark at some slot, or `None` if no slot has one.
pub(crate) fn file_marked(slots: &Slots, mark: Mark) -> Option<Closed>
    ensures mark { IfSome result (λ file. file.mark ≡ mark) }
    ensures there { IfSome result (IsFileAtSlot slots.now) }
    ensures none { IfNone result (HasNone slots.now mark) }
{
    for file in &slots.at {
        if let Some(file) = file {
            if file.mark == mark {
                return Some(*file);
            }
        }
    }
    None
}

// Returns the catalogue entry with this name.
fn entry_named(catalogue: &Catalogue, name: &[u8]) -> Option<u8>
    ensures named { IfSome result (λ entry. name_at catalogue.now entry ≡ Some name.now) }
    ensures none { IfNone result ((entry : ℕ) → name_at catalogue.now entry ≡ Some name.now → ⊥) }
{
    for entry in 0..catalogue.len() {
        if catalogue.name_of(entry as u8).as_bytes() == name {
            return Some(entry as u8);
        }
    }
    None
}

// Returns the file that a line of a closed file names: one at a slot, or one that the submission
// installs, without a tag.
fn file_recorded(catalogue: &Catalogue, slots: &Slots, line: &ClosedLine) -> Option<Closed>
    ensures recorded { IfSome result (λ file. named_close catalogue.now file ≡ named_close_of line.now) }
    ensures only { AreApart catalogue.now slots.now → (file : File)
        → MayBeClosed catalogue.now slots.now file
        → named_close catalogue.now file ≡ named_close_of line.now → result ≡ Some file }
{
    let entry = entry_named(catalogue, &line.name)?;
    let Some(file) = file_marked(slots, line.mark) else {
        let mark = line.mark;
        return Some(Closed {
            mark,
            entry,
            tag: 0,
        });
    };
    if file.entry == entry {
        Some(file)
    } else {
        None
    }
}

/// Returns the files that lines of closed files name, in their order, or the number of the first
/// line, from 0, that names no file.
///
/// # Errors
/// `NoMemory` if an allocation fails.
pub(crate) fn files_recorded(
    alloc: Global,
    catalogue: &Catalogue,
    slots: &Slots,
    lines: &[ClosedLine],
) -> Result<Result<Vec<Closed>, usize>, NoMemory>
    ensures recorded { IfOk result (λ recorded. IfOk recorded (λ files.
        named_closes catalogue.now files.items ≡ map named_close_of lines.now)) }
    ensures only { IfOk result (λ recorded. AreApart catalogue.now slots.now → (files : List File)
        → All (MayBeClosed catalogue.now slots.now) files
        → named_closes catalogue.now files ≡ map named_close_of lines.now
        → Yields recorded (λ read. read.items) files) }
{
    let mut files = Vec::new(alloc);
    for (i, line) in lines.iter().enumerate() {
        let Some(file) = file_recorded(catalogue, slots, line) else {
            return Ok(Err(i));
        };
        files.push(file)?;
    }
    Ok(Ok(files))
}

/// Returns the number, from 0, of the first file whose mark doesn't follow that of the file before
/// it, or `None` if the files are in order of mark and no two have one mark.
pub(crate) fn wrong_order(files: &[Closed]) -> Option<usize>
    ensures { IfSome result (λ i. IsInOrderOfMark files.now → HasDistinctMarks files.now → ⊥) }
{
    for i in 1..files.len() {
        if !files[i - 1].mark.cmp(&files[i].mark).is_lt() {
            return Some(i);
        }
    }
    None
}

/// Returns the tags of files, in their order, without those that are 0.
///
/// # Errors
/// `NoMemory` if an allocation fails.
pub(crate) fn tags_recorded(alloc: Global, files: &[Closed]) -> Result<Vec<u64>, NoMemory>
    ensures { IfOk result (λ tags. tags.items
        ≡ map (λ file. file.tag) (filter (λ file. not (file.tag == 0)) files.now)) }
{
    let tagged = files.iter().filter(|file| file.tag != 0);
    Ok(tagged.map(|file| file.tag).collect(alloc)?)
}

/// Returns the number, from 0, of the first tag that differs from the expected one, or `None` if
/// the lists are equal.
pub(crate) fn wrong_tag(expected: &[u64], tags: &[u64]) -> Option<usize>
    ensures same { IfNone result (expected.now ≡ tags.now) }
    ensures apart { IfSome result (λ i. expected.now ≡ tags.now → ⊥) }
{
    for i in 0..expected.len() {
        if i >= tags.len() || tags[i] != expected[i] {
            return Some(i);
        }
    }
    if expected.len() < tags.len() {
        return Some(expected.len());
    }
    None
}

// Checks whether a request with this completion installed a file with this mark.
fn has_installed(request: &Request, completion: &Completion, mark: Mark) -> bool
    ensures { result ≡ false → Installed (asked_of request.now) (completed_of completion.now) mark → ⊥ }
{
    let Mark::Submitted { entry, .. } = mark else {
        return false;
    };
    if completion.place.mark(entry) != mark || completion.res < 0 {
        return false;
    }
    request.installs_at(entry)
}

// Returns the position, from `from` on, of the first completion whose place isn't before the
// mark's. The completions are in order of place.
fn completion_of(completions: &[Completion], from: usize, mark: Mark) -> usize {
    for i in from..completions.len() {
        if completions[i].place.mark(u32::MAX) >= mark {
            return i;
        }
    }
    completions.len()
}

// Checks whether one of the requests, with these completions, installed a file with this mark.
fn is_installed(requests: &[Request], completions: &[Completion], mark: Mark) -> bool
    ensures { result ≡ false → OneInstalled (all_asked requests.now)
        (all_completed completions.now) mark → ⊥ }
{
    for i in 0..requests.len() {
        if i < completions.len() && has_installed(&requests[i], &completions[i], mark) {
            return true;
        }
    }
    false
}

/// Returns the number, from 0, of a closed file that was at no slot before and that no request of
/// the submission installed, or `None` if there is no such file. The files are in order of mark.
pub(crate) fn unknown_file(
    slots: &Slots,
    requests: &[Request],
    completions: &[Completion],
    closes: &[Closed],
) -> Option<usize>
    ensures { IfSome result (λ i. AreFrom slots.now (all_asked requests.now)
        (all_completed completions.now) closes.now → ⊥) }
{
    let mut at = 0usize;
    for i in 0..closes.len() {
        let mark = closes[i].mark;
        at = completion_of(completions, at, mark);
        let installed = at < completions.len()
            && at < requests.len()
            && has_installed(&requests[at], &completions[at], mark);
        if installed || file_marked(slots, mark).is_some() {
            continue;
        }
        // Only the request at the mark's place was checked. The file is unknown if no request
        // installed it.
        if !is_installed(requests, completions, mark) {
            return Some(i);
        }
    }
    None
}
