//! The printed lines, each appended to a text whose room was reserved before.
ghost use Rattle.std.specs.Prelude.{◌≡◌, ◌<◌, ◌++◌, IfOk, OnOk, All, codes, length, string_bytes};
ghost use Rattle.std.specs.Fmt.{signed_decimal};
ghost use Rattle.fx_chain.specs.Completed.{completed_of, all_completed};
ghost use Rattle.fx_base.specs.Tags.{tags_of};
ghost use Rattle.fx_print.specs.Text.{result_line, got_text, kind_name, mark_text, place_text, refused_line, too_many_line, completion_line};
ghost use Rattle.fx_print.specs.Text.{completion_lines, closed_line, closed_lines, closes_text, submission_text, tag_line, tag_lines, teardown_text};

use crate::digits::{push_hex, push_number, push_signed};
use fx_base::{Catalogue, CloseList, Closed, Mark, NoMemory, TagCompletion};
use fx_chain::{Completion, CutFault, CutKind, Place};
use std::alloc::{AllocError, Global};

/// The greatest number of bytes of a completion's line besides the bytes of a read: four numbers of
/// at most eleven bytes.
const COMPLETION_ROOM: usize = 50;

/// The greatest number of bytes of a closed file's line: four numbers and a name.
const CLOSED_ROOM: usize = 90;

/// The greatest number of bytes of a tag's line: a number of at most twenty digits.
const TAG_ROOM: usize = 25;

/// Returns the line of a command: its word and its result, which is 0 or more, or a negated error.
///
/// # Errors
/// `NoMemory` if an allocation for the text fails.
pub fn result_line(alloc: Global, word: &str, res: i64) -> Result<String, NoMemory>
    ensures { IfOk result (λ text. string_bytes text ≡ result_line word.now res) }
{
    Ok(format!(in alloc; "{word} {res}\n")?)
}

// Appends a space and the bytes of a read, if there are any.
fn push_got(text: &mut String, got: &[u8]) -> Result<(), AllocError>
    ensures { OnOk result (string_bytes text.new ≡ string_bytes text.old ++ got_text got.now) }
{
    if got.is_empty() {
        return Ok(());
    }
    text.push(' ')?;
    push_hex(text, got)
}

/// Appends a place: its submission, chain and member.
///
/// # Errors
/// `AllocError` if an allocation for the text fails.
pub fn push_place(text: &mut String, place: Place) -> Result<(), AllocError>
    ensures { OnOk result (string_bytes text.new ≡ string_bytes text.old ++ place_text place) }
{
    push_number(text, u64::from(place.submission))?;
    text.push('.')?;
    push_number(text, u64::from(place.chain))?;
    text.push('.')?;
    push_number(text, u64::from(place.member))
}

// Appends a result, and the bytes of a read.
fn push_result(text: &mut String, res: i32, got: &[u8]) -> Result<(), AllocError>
    ensures { OnOk result (string_bytes text.new
        ≡ string_bytes text.old ++ (codes " " ++ (signed_decimal res ++ got_text got.now))) }
{
    text.push(' ')?;
    push_signed(text, i64::from(res))?;
    push_got(text, got)
}

/// Appends the line of a completion: its place, its result, and the bytes of a read.
///
/// # Errors
/// `AllocError` if an allocation for the text fails.
pub fn push_completion(text: &mut String, completion: &Completion) -> Result<(), AllocError>
    ensures { OnOk result (string_bytes text.new
        ≡ string_bytes text.old ++ completion_line (completed_of completion.now)) }
{
    push_place(text, completion.place)?;
    push_result(text, completion.res, completion.got.as_slice())?;
    text.push('\n')
}

// Appends a line for each completion, in their order.
fn push_completions(text: &mut String, completions: &[Completion]) -> Result<(), AllocError>
    ensures { OnOk result (string_bytes text.new
        ≡ string_bytes text.old ++ completion_lines (all_completed completions.now)) }
{
    for completion in completions {
        push_completion(text, completion)?;
    }
    Ok(())
}

/// Appends a mark: `rK.I` or `S.C.M.E`.
///
/// # Errors
/// `AllocError` if an allocation for the text fails.
pub fn push_mark(text: &mut String, mark: Mark) -> Result<(), AllocError>
    ensures { OnOk result (string_bytes text.new ≡ string_bytes text.old ++ mark_text mark) }
{
    match mark {
        Mark::Registered { k, i } => {
            text.push('r')?;
            push_number(text, u64::from(k))?;
            text.push('.')?;
            push_number(text, u64::from(i))
        }
        Mark::Submitted {
            submission,
            chain,
            member,
            entry,
        } => {
            let place = Place {
                submission,
                chain,
                member,
            };
            push_place(text, place)?;
            text.push('.')?;
            push_number(text, u64::from(entry))
        }
    }
}

// Appends the line of a closed file: its mark and its name.
fn push_closed_line(text: &mut String, mark: Mark, name: &str) -> Result<(), AllocError>
    ensures { OnOk result
        (string_bytes text.new ≡ string_bytes text.old ++ closed_line mark name.now) }
{
    text.push_str("closed ")?;
    push_mark(text, mark)?;
    text.push(' ')?;
    text.push_str(name)?;
    text.push('\n')
}

// Appends a line for each closed file, in their order. Each entry is in the catalogue.
fn push_closed_lines(
    text: &mut String,
    catalogue: &Catalogue,
    files: &[Closed],
) -> Result<(), AllocError>
    requires { All (λ file. file.entry < length catalogue.now) files.now }
    ensures { OnOk result (string_bytes text.new
        ≡ string_bytes text.old ++ closed_lines catalogue.now files.now) }
{
    for file in files {
        let name = catalogue.name_of(file.entry);
        push_closed_line(text, file.mark, name)?;
    }
    Ok(())
}

// Appends the line of a tag.
fn push_tag(text: &mut String, completion: &TagCompletion) -> Result<(), AllocError>
    ensures { OnOk result
        (string_bytes text.new ≡ string_bytes text.old ++ tag_line completion.now) }
{
    text.push_str("tag ")?;
    push_number(text, completion.user_data)?;
    text.push('\n')
}

// Appends a line for each completion of a tag, in their order.
fn push_tags(text: &mut String, completions: &[TagCompletion]) -> Result<(), AllocError>
    ensures { OnOk result
        (string_bytes text.new ≡ string_bytes text.old ++ tag_lines completions.now) }
{
    for completion in completions {
        push_tag(text, completion)?;
    }
    Ok(())
}

// Appends the lines of closed files, and then those of their tags. Each entry is in the catalogue.
fn push_closes(
    text: &mut String,
    catalogue: &Catalogue,
    files: &[Closed],
    tags: &[TagCompletion],
) -> Result<(), AllocError>
    requires entries { All (λ file. file.entry < length catalogue.now) files.now }
    requires tags { tags.now ≡ tags_of files.now }
    ensures { OnOk result (string_bytes text.new
        ≡ string_bytes text.old ++ closes_text catalogue.now files.now) }
{
    push_closed_lines(text, catalogue, files)?;
    push_tags(text, tags)
}

// Returns the name of a fault of a submission.
fn kind_name(kind: CutKind) -> &'static str
    ensures { result.now ≡ kind_name kind }
{
    match kind {
        CutKind::BadFlags => "bad-flags",
        CutKind::LongRead => "long-read",
        CutKind::LongUpdate => "long-update",
        CutKind::ChainTooLong => "chain-too-long",
        CutKind::TooManyFiles => "too-many-files",
        CutKind::TooManyChains => "too-many-chains",
    }
}

/// Returns the line of a refused submission: the name of the fault, and the number of its request,
/// from 1.
///
/// # Errors
/// `NoMemory` if an allocation for the text fails.
pub fn refused_line(alloc: Global, fault: CutFault) -> Result<String, NoMemory>
    ensures { IfOk result (λ text. string_bytes text ≡ refused_line fault) }
{
    let name = kind_name(fault.kind);
    let at = fault.at;
    Ok(format!(in alloc; "submit refused {name} {at}\n")?)
}

/// Returns the line of a submission after the last one that a ring accepts.
///
/// # Errors
/// `NoMemory` if an allocation for the text fails.
pub fn too_many_line(alloc: Global) -> Result<String, NoMemory>
    ensures { IfOk result (λ text. string_bytes text ≡ too_many_line) }
{
    let line = "submit refused too-many-submissions\n";
    Ok(String::from_str(alloc, line)?)
}

// Returns the room for a line for each completion.
fn room_of(completions: &[Completion]) -> usize {
    let mut room = 0usize;
    for completion in completions {
        room = room.saturating_add(
            completion
                .got
                .len()
                .saturating_mul(2)
                .saturating_add(COMPLETION_ROOM),
        );
    }
    room
}

// Returns the room for a line for each closed file and for each tag.
fn room_of_closes(files: &[Closed], tags: &[TagCompletion]) -> usize {
    let lines = files.len().saturating_mul(CLOSED_ROOM);
    lines.saturating_add(tags.len().saturating_mul(TAG_ROOM))
}

/// Returns the text of a submission: a line for each completion, then one for each file that was
/// closed, then one for each of their tags. Requires that the entry of each closed file is below
/// [`Catalogue::len`].
///
/// # Errors
/// `NoMemory` if an allocation for the text or the tags fails.
pub fn submission_text(
    alloc: Global,
    catalogue: &Catalogue,
    completions: &[Completion],
    closes: &CloseList,
) -> Result<String, NoMemory>
    requires { All (λ file. file.entry < length catalogue.now) closes.now.files }
    ensures { IfOk result (λ text. string_bytes text
        ≡ submission_text catalogue.now (all_completed completions.now) closes.now.files) }
{
    let files = closes.files();
    let tags = closes.tags(alloc)?;
    let room = room_of_closes(files, tags.as_slice()).saturating_add(room_of(completions));
    let mut text = String::with_capacity(alloc, room)?;
    push_completions(&mut text, completions)?;
    push_closes(&mut text, catalogue, files, tags.as_slice())?;
    Ok(text)
}

/// Returns a first line, and the lines of closed files and of their tags. Requires that the entry
/// of each closed file is below [`Catalogue::len`].
///
/// # Errors
/// `NoMemory` if an allocation for the text or the tags fails.
pub fn with_closes(
    alloc: Global,
    first: &str,
    catalogue: &Catalogue,
    closes: &CloseList,
) -> Result<String, NoMemory>
    requires { All (λ file. file.entry < length catalogue.now) closes.now.files }
    ensures { IfOk result (λ text.
        string_bytes text ≡ first.now ++ closes_text catalogue.now closes.now.files) }
{
    let files = closes.files();
    let tags = closes.tags(alloc)?;
    let room = room_of_closes(files, tags.as_slice()).saturating_add(first.len());
    let mut text = String::with_capacity(alloc, room)?;
    text.push_str(first)?;
    push_closes(&mut text, catalogue, files, tags.as_slice())?;
    Ok(text)
}

/// Returns the lines at the end of a script: `teardown` and the lines of the files that were left
/// in the table, or no line if none was left. Requires that the entry of each closed file is below
/// [`Catalogue::len`].
///
/// # Errors
/// `NoMemory` if an allocation for the text or the tags fails.
pub fn teardown_text(
    alloc: Global,
    catalogue: &Catalogue,
    closes: &CloseList,
) -> Result<String, NoMemory>
    requires { All (λ file. file.entry < length catalogue.now) closes.now.files }
    ensures { IfOk result (λ text.
        string_bytes text ≡ teardown_text catalogue.now closes.now.files) }
{
    if closes.files().is_empty() {
        return Ok(String::new(alloc));
    }
    with_closes(alloc, "teardown\n", catalogue, closes)
}
