//! Parses the printed lines of a submission's report: words and numbers, lines, and all lines of a
//! report. What a text reads as is printed again and compared, so that of a text that isn't printed
//! so any value may be parsed.
ghost use Rattle.std.specs.Prelude.{◌≡◌, ◌++◌, ◌≤◌, ◌<◌, ◌^◌, ℕ, ℤ, List, decimal, IfOk, IfNone, IfSome, codes, map, drop, get_or, false, option_map};
ghost use Rattle.check_lines.specs.Words.{encode_lower, IsBytes, Mark as FileMark, Completed, all_completed, completed_of, Place as RequestPlace};
ghost use Rattle.check_lines.specs.Words.{completion_line, mark_text, place_text};
ghost use Rattle.check_lines.specs.Front.{AreAll, AreFirst, HasLength, IsCut};
ghost use Rattle.check_lines.specs.Reads.{ReadsPrinted};
ghost use Rattle.std.specs.Fmt.{signed_decimal};
ghost use Rattle.check_lines.specs.Lines.{IsResultInRange, IsCompletionInRange, IsPlaceInRange, IsCloseInRange, IsMarkInRange, line_of_tag};
ghost use Rattle.check_lines.specs.Lines.{named_line, ReadsReport};
ghost use Rattle.fx_language.specs.Words.{is_digit};
ghost use Rattle.check_lines.specs.ClosedView.{named_close_of};
ghost use Rattle.check_lines.specs.LinesView.{front_of};

use fx_base::{Mark, NoMemory};
use fx_chain::{Completion, Place};
use fx_language::{LARGEST_TAG, number_up_to};
use fx_print::{push_completion, push_mark, push_number, push_place};
use hex::FromHexError;
use std::alloc::Global;

// Cuts a text before the first byte `at`, or at its end.
fn cut(text: &[u8], at: u8) -> (&[u8], &[u8])
    ensures { IsCut at text.now result.0.now result.1.now }
{
    for (i, b) in text.iter().enumerate() {
        if *b == at {
            return (&text[..i], &text[i..]);
        }
    }
    (text, b"")
}

// Returns a text without its first byte.
fn behind_first(text: &[u8]) -> &[u8]
    ensures { result.now ≡ drop 1 text.now }
{
    match text {
        [_, rest @ ..] => rest,
        [] => text,
    }
}

// Returns the rest of a text after an expected beginning, or `None` if the text doesn't begin with
// it.
fn rest_after<'a>(text: &'a [u8], expected: &[u8]) -> Option<&'a [u8]>
    ensures none { IfNone result ((rest : List ℕ) → text.now ≡ expected.now ++ rest → ⊥) }
    ensures rest { IfSome result (λ rest. text.now ≡ expected.now ++ rest.now) }
{
    text.strip_prefix(expected)
}

/// The largest number of 32 bits.
const LARGEST_NUMBER: u64 = 4_294_967_295;

/// The largest result.
const LARGEST_RESULT: u64 = 2_147_483_647;

/// The absolute value of the smallest result.
const FARTHEST_BELOW_ZERO: u64 = 2_147_483_648;

// Parses a word as a number, at most `largest`.
fn number(word: &[u8], largest: u64) -> u64
    ensures most { result ≤ largest }
    ensures parsed { (n : ℕ) → n ≤ largest → word.now ≡ decimal n → n ≡ result }
{
    number_up_to(largest, word).unwrap_or(0)
}

// Parses the text before the first byte `at` as a number, and returns the rest after that byte.
fn number_before(text: &[u8], at: u8) -> (u32, &[u8])
    requires { is_digit at ≡ false }
    ensures { (n : ℕ) (rest : List ℕ) → n < 2 ^ 32 → get_or rest 0 at ≡ at
        → text.now ≡ decimal n ++ rest → (n ≡ result.0) × (drop 1 rest ≡ result.1.now) }
{
    let (digits, rest) = cut(text, at);
    (number(digits, LARGEST_NUMBER) as u32, behind_first(rest))
}

// Parses a word as a result.
fn res_of(word: &[u8]) -> i32
    ensures fits { IsResultInRange result }
    ensures parsed { (res : ℤ) → IsResultInRange res → word.now ≡ signed_decimal res → res ≡ result }
{
    if let Some(digits) = rest_after(word, b"-") {
        return -(number(digits, FARTHEST_BELOW_ZERO) as i64) as i32;
    }
    number(word, LARGEST_RESULT) as i32
}

// Parses the text before the first byte `at` after two full stops as a place, and returns the rest
// after that byte.
fn place_before(text: &[u8], at: u8) -> (Place, &[u8])
    requires { is_digit at ≡ false }
    ensures fits { IsPlaceInRange result.0 }
    ensures parsed { (place : RequestPlace) (rest : List ℕ) → IsPlaceInRange place
        → get_or rest 0 at ≡ at → text.now ≡ place_text place ++ rest
        → (place ≡ result.0) × (drop 1 rest ≡ result.1.now) }
{
    let (submission, rest) = number_before(text, b'.');
    let (chain, rest) = number_before(rest, b'.');
    let (member, rest) = number_before(rest, at);
    let place = Place {
        submission,
        chain,
        member,
    };
    (place, rest)
}

/// Parses a word as a place, as a text has it: a submission, a chain and a member, such as `1.1.2`.
/// Returns `None` for any other word.
///
/// # Errors
/// `NoMemory` if an allocation fails.
pub fn place_of(alloc: Global, word: &[u8]) -> Result<Option<Place>, NoMemory>
    ensures { IfOk result (λ place. ReadsPrinted place_text IsPlaceInRange word.now place) }
{
    let (place, _) = place_before(word, b' ');
    let mut text = String::new(alloc);
    push_place(&mut text, place)?;
    if text.as_bytes() == word {
        Ok(Some(place))
    } else {
        Ok(None)
    }
}

// Parses a word as bytes in lower case hexadecimal.
fn bytes_of(alloc: Global, word: &[u8]) -> Result<Vec<u8>, NoMemory>
    ensures fits { IfOk result (λ got. IsBytes got.items) }
    ensures parsed { IfOk result (λ got. (bytes : List ℕ) → IsBytes bytes
        → word.now ≡ encode_lower bytes → bytes ≡ got.items) }
{
    match hex::decode(alloc, word) {
        Ok(bytes) => Ok(bytes),
        Err(FromHexError::OutOfMemory) => Err(NoMemory),
        Err(_) => Ok(Vec::new(alloc)),
    }
}

// Parses the line that a text begins with as a completion.
fn completion_of(alloc: Global, text: &[u8]) -> Result<Completion, NoMemory>
    ensures fits { IfOk result (λ completion. IsCompletionInRange (completed_of completion)) }
    ensures parsed { IfOk result (λ completion. (c : Completed) (rest : List ℕ)
        → IsCompletionInRange c → text.now ≡ completion_line c ++ rest → c ≡ completed_of completion) }
{
    let (place, rest) = place_before(text, b' ');
    let (answer, _) = cut(rest, b'\n');
    let (word, hex) = cut(answer, b' ');
    let got = bytes_of(alloc, behind_first(hex))?;
    let res = res_of(word);
    Ok(Completion { place, res, got })
}

// Returns the completions of the first lines of a text, at most `count`, and the rest of the text.
fn read_completions(
    alloc: Global,
    text: &[u8],
    count: usize,
) -> Result<(Vec<Completion>, &[u8]), NoMemory>
    ensures { IfOk result (λ found. AreFirst completion_line IsCompletionInRange (HasLength count)
        text.now (all_completed found.0.items) found.1.now) }
{
    let mut completions = Vec::new(alloc);
    let mut rest = text;
    let mut line = String::new(alloc);
    for _ in 0..count {
        let completion = completion_of(alloc, rest)?;
        line.clear();
        push_completion(&mut line, &completion)?;
        let Some(others) = rest_after(rest, line.as_bytes()) else {
            return Ok((completions, rest));
        };
        completions.push(completion)?;
        rest = others;
    }
    Ok((completions, rest))
}

/// A line of a closed file, read.
#[derive(Debug, Drop)]
pub struct ClosedLine {
    /// The installation of the file.
    pub mark: Mark,
    /// The name of the file's catalogue entry, as it is printed.
    pub name: Vec<u8>,
}

// Parses the text before the first space as a mark: `rK.I`, or `S.C.M.E`.
fn mark_of(text: &[u8]) -> Mark
    ensures fits { IsMarkInRange result }
    ensures parsed { (mark : FileMark) (rest : List ℕ) → IsMarkInRange mark
        → get_or rest 0 32 ≡ 32 → text.now ≡ mark_text mark ++ rest → mark ≡ result }
{
    if let Some(rest) = rest_after(text, b"r") {
        let (k, rest) = number_before(rest, b'.');
        let (i, _) = number_before(rest, b' ');
        return Mark::Registered { k, i };
    }
    let (place, rest) = place_before(text, b'.');
    let (entry, _) = number_before(rest, b' ');
    Mark::Submitted {
        submission: place.submission,
        chain: place.chain,
        member: place.member,
        entry,
    }
}

// Returns the closed files of the first lines of a text, and the rest of the text.
fn read_closed(alloc: Global, text: &[u8]) -> Result<(Vec<ClosedLine>, &[u8]), NoMemory>
    ensures { IfOk result (λ found. AreFirst named_line IsCloseInRange (AreAll (codes "closed "))
        text.now (map named_close_of found.0.items) found.1.now) }
{
    let mut closed = Vec::new(alloc);
    let mut rest = text;
    let mut head = String::new(alloc);
    while let Some(tail) = rest_after(rest, b"closed ") {
        let mark = mark_of(tail);
        head.clear();
        push_mark(&mut head, mark)?;
        head.push(' ')?;
        let Some(tail) = rest_after(tail, head.as_bytes()) else {
            return Ok((closed, rest));
        };
        let (name, end) = cut(tail, b'\n');
        let Some(others) = rest_after(end, b"\n") else {
            return Ok((closed, rest));
        };
        let name = name.to_vec(alloc)?;
        closed.push(ClosedLine { mark, name })?;
        rest = others;
    }
    Ok((closed, rest))
}

// Returns the tags of the first lines of a text, and the rest of the text.
fn read_tags(alloc: Global, text: &[u8]) -> Result<(Vec<u64>, &[u8]), NoMemory>
    ensures { IfOk result (λ found. AreFirst line_of_tag (λ tag. tag < 2 ^ 64) (AreAll (codes "tag "))
        text.now found.0.items found.1.now) }
{
    let mut tags = Vec::new(alloc);
    let mut rest = text;
    let mut line = String::new(alloc);
    while let Some(tail) = rest_after(rest, b"tag ") {
        let (word, _) = cut(tail, b'\n');
        let tag = number(word, LARGEST_TAG);
        line.clear();
        push_number(&mut line, tag)?;
        line.push('\n')?;
        let Some(others) = rest_after(tail, line.as_bytes()) else {
            return Ok((tags, rest));
        };
        tags.push(tag)?;
        rest = others;
    }
    Ok((tags, rest))
}

/// The lines of a submission's report, read.
#[derive(Debug, Drop)]
pub struct ReportLines {
    /// The completions, in the order of the text.
    pub completions: Vec<Completion>,
    /// The closed files, in the order of the text.
    pub closed: Vec<ClosedLine>,
    /// The tags, in the order of the text.
    pub tags: Vec<u64>,
}

/// Reads the report that a text begins with, and returns it with the rest of the text: `count`
/// lines of completions, then all lines of closed files that follow, then all lines of tags. No
/// other report with numbers in the ranges of their types, and with names without a line end, is
/// printed so. Returns `None` if the text doesn't begin with such lines, or if a line of a closed
/// file follows those of the tags. The order of lines, repeated lines and the meaning of numbers
/// aren't checked.
///
/// # Errors
/// `NoMemory` if an allocation fails.
pub fn read_report(
    alloc: Global,
    text: &[u8],
    count: usize,
) -> Result<Option<(ReportLines, &[u8])>, NoMemory>
    ensures { IfOk result (λ found. ReadsReport count text.now (option_map front_of found)) }
{
    let (completions, rest) = read_completions(alloc, text, count)?;
    let (closed, rest) = read_closed(alloc, rest)?;
    let (tags, rest) = read_tags(alloc, rest)?;
    if completions.len() != count || rest.starts_with(b"closed ") || rest.starts_with(b"tag ") {
        return Ok(None);
    }
    let lines = ReportLines {
        completions,
        closed,
        tags,
    };
    Ok(Some((lines, rest)))
}
