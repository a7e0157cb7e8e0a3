//! The texts that a script can print, each of which is one of its texts.
ghost use Rattle.std.specs.Prelude.{◌≡◌, ◌-◌, ◌^◌, ◌<◌, ◌≤◌};
ghost use Rattle.check_texts.specs.Words.{All, Contains, IfOk, IfSome, IsTrue, List, Some, length, map, slice_get, string_bytes, string_eq, ℕ};
ghost use Rattle.check_texts.specs.Words.{concat, FileEntry, Instruction, new_ring};
ghost use Rattle.indexmap.specs.IndexSet.{IsUnique};
ghost use Rattle.check_texts.specs.Layers.{AreAllCounted, AreRests, rests_in, ways_at};
ghost use Rattle.check_texts.specs.Texts.{EachFoundTextIsAText, IsTextFound};
ghost use Rattle.check_texts.specs.Ways.{AreWays, CountsUpTo, HasWays};

use crate::layers::layers_of;
use crate::next::both;
use crate::rests::{KeptExit, KeptWays, rest_at, rests_of};
use crate::rings::start_ring;
use crate::walk::{Past, Spent, WalkSetting};
use check_search::Limits;
use fx_base::NoMemory;
use fx_language::Script;
use indexmap::IndexSet;
use std::alloc::Global;

/// The texts that a script can print, and orders that lead to them.
#[derive(Drop)]
pub struct AllTexts {
    /// The texts that were made, each once.
    pub texts: IndexSet<String>,
    /// For each text, the indices of the orders of its accepted submissions, the first submission's
    /// first.
    pub by: Vec<Vec<usize>>,
    /// The orders of the submissions.
    pub orders: Vec<Past>,
    /// True if these were shown to be all texts.
    pub are_all: bool,
    /// The number of ways by which plays of the script print, or of those that were found.
    pub ways: u64,
    /// True if `ways` was shown to be the number of all ways.
    pub are_counted: bool,
}

// Returns what is kept of the first ring of a script, if that is the ring without a table.
fn first_rest(alloc: Global, rests: &[Vec<KeptWays>]) -> Option<&KeptWays>
    ensures { IfSome result (λ rest. (catalogue : List FileEntry) (commands : List Instruction)
        → AreRests catalogue commands (rests_in rests.now)
        → AreWays (new_ring catalogue) commands rest.now.are_all (ways_at (rests_in rests.now) 0)
        × CountsUpTo rest.now.ways (length (ways_at (rests_in rests.now) 0))) }
{
    rest_at(rests.first()?, 0, &start_ring(alloc))
}

// Returns the exit of a ring by its number before a command, with which its way of a number begins.
// The search for the exit is only a hint.
fn exit_at(rests: &[KeptWays], number: usize, way: u64) -> Option<&KeptExit>
    ensures before { IfSome result (λ exit. exit.now.before ≤ way) }
    ensures few { IfSome result (λ _. way < 2 ^ 64 - 1) }
    ensures there { IfSome result (λ exit. (rest : KeptWays) × (place : ℕ)
        × (slice_get rests.now number ≡ Some rest)
        × (slice_get rest.exits.items place ≡ Some exit.now)) }
{
    let rest = rests.get(number)?;
    let next = rest.exits.partition_point(|exit| exit.before <= way);
    let place = next.checked_sub(1)?;
    let exit = rest.exits.get(place)?;
    // the largest number stands for all larger ones
    if exit.before > way || way == u64::MAX {
        return None;
    }
    Some(exit)
}

// Returns the text of the way of a number, and the orders on it.
fn text_at(
    alloc: Global,
    rests: &[Vec<KeptWays>],
    way: u64,
) -> Result<Option<(String, Vec<usize>)>, NoMemory>
    requires { AreAllCounted (rests_in rests.now) }
    ensures { IfOk result (λ found. IfSome found (λ made. (lines : List (List ℕ))
        × (slice_get (ways_at (rests_in rests.now) 0) way ≡ Some lines)
        × (string_bytes made.0 ≡ concat lines))) }
{
    let mut text = String::new(alloc);
    let mut orders = Vec::new(alloc);
    let mut number = 0usize;
    let mut left = way;
    for own in rests {
        let Some(exit) = exit_at(own, number, left) else {
            return Ok(None);
        };
        text.push_str(exit.line.as_str())?;
        if let Some(past) = exit.past {
            orders.push(past)?;
        }
        number = exit.number;
        left -= exit.before;
    }
    if left > 0 {
        return Ok(None);
    }
    Ok(Some((text, orders)))
}

// Returns the texts of the first ways, each once, the orders of each, and whether these are the
// texts of `ways` ways.
fn each_text(
    setting: &WalkSetting<'_>,
    spent: &mut Spent,
    rests: &[Vec<KeptWays>],
    ways: u64,
) -> Result<(IndexSet<String>, Vec<Vec<usize>>, bool), NoMemory>
    requires { AreAllCounted (rests_in rests.now) }
    ensures each { IfOk result (λ all. (text : List ℕ)
        → Contains (map string_bytes all.0.keys) text
        → Contains (map concat (ways_at (rests_in rests.now) 0)) text) }
    ensures all { IfOk result (λ all. IsTrue all.2
        → ways ≡ length (ways_at (rests_in rests.now) 0) → (text : List ℕ)
        → Contains (map concat (ways_at (rests_in rests.now) 0)) text
        → Contains (map string_bytes all.0.keys) text) }
{
    let mut texts = IndexSet::new(setting.alloc);
    let mut by = Vec::new(setting.alloc);
    for way in 0..ways {
        if way >= setting.most as u64 || !spent.has_place(setting.limits) {
            return Ok((texts, by, false));
        }
        let Some((text, orders)) = text_at(setting.alloc, rests, way)? else {
            return Ok((texts, by, false));
        };
        spent.count_text(text.len(), &orders);
        if texts.insert(text)? {
            by.push(orders)?;
        }
    }
    Ok((texts, by, true))
}

/// Returns the first texts that the plays of a script print in which no allocation fails, at most
/// `most`, each once, and the number of ways by which they go. `are_all` is false if there are more
/// texts, or if `limits` were reached. `are_counted` is false if the ways weren't all found within
/// `limits`, or are more than 2^64 - 2. `limits` apply to the whole script: to all states that the
/// searches meet, and to all bytes that are kept. The orders are those by which the texts were
/// found, and no contract says anything of them.
///
/// # Errors
/// `NoMemory` if an allocation fails.
pub fn texts_of(
    alloc: Global,
    script: &Script,
    limits: Limits,
    most: usize,
) -> Result<AllTexts, NoMemory>
    ensures each { IfOk result (λ all.
        All (λ text. IsTextFound script.now (string_bytes text)) all.texts.keys) }
    ensures once { IfOk result (λ all. IsUnique string_eq all.texts) }
    ensures all { IfOk result (λ all. IsTrue all.are_all → (text : List ℕ)
        → IsTextFound script.now text → Contains (map string_bytes all.texts.keys) text) }
    ensures ways { IfOk result (λ all. HasWays script.now all.are_counted all.ways) }
{
    let setting = WalkSetting {
        alloc,
        catalogue: script.catalogue(),
        limits,
        keeps: true,
        most,
    };
    let mut spent = Spent::nothing(alloc);
    let layers = layers_of(&setting, &mut spent, script.commands())?;
    let rests = rests_of(&setting, layers)?;
    let Some(rest) = first_rest(alloc, &rests) else {
        return Ok(AllTexts {
            texts: IndexSet::new(alloc),
            by: Vec::new(alloc),
            orders: spent.orders,
            are_all: false,
            ways: 0,
            are_counted: false,
        });
    };
    spent.keep_command();
    let (texts, by, is_whole) = each_text(&setting, &mut spent, &rests, rest.ways)?;
    // the largest number stands for all larger ones
    let are_counted = both(rest.are_all, rest.ways < u64::MAX);
    Ok(AllTexts {
        texts,
        by,
        orders: spent.orders,
        are_all: both(are_counted, is_whole),
        ways: rest.ways,
        are_counted,
    })
}

/// States that a text of a play in which no allocation fails is a text of the script.
#[tactic(auto, using(crate::proofs::Plays::found_text))]
pub fn each_found_text_is_a_text()
    ensures { EachFoundTextIsAText }
{}
