//! The ways of rings to the end of a script, and their number.
ghost use Rattle.std.specs.Prelude.{◌≡◌, ◌++◌, ◌∷◌, [], All, IfOk, IfSome, IsTrue, List, OnOk, Some, map, slice_get, string_bytes, true};
ghost use Rattle.check_texts.specs.Words.{FileEntry, Instruction, ring_with_slots};
ghost use Rattle.check_texts.specs.Rings.{MayLeadTo, Stage, stage_of, stages_of};
ghost use Rattle.check_texts.specs.Layers.{AreExits, AreRests, AreWaysBy, AreWaysOf, IsLayer, IsRest, bare, commands_in, rests_in, ways_at};
ghost use Rattle.check_texts.specs.Ways.{AreBare, IsBare};

use crate::layers::{Exits, Layers};
use crate::next::{are_same, both};
use crate::walk::{Reached, WalkSetting};
use check_lines::{close_in_order, copy_of, files_at};
use fx_base::NoMemory;
use fx_order::RingSlots;
use fx_script::teardown_text;
use indexmap::IndexSet;

/// An exit of a ring, with the ways that begin with it, or the end of the script.
#[derive(Drop)]
pub(crate) struct KeptExit {
    /// The text that is printed there.
    pub(crate) line: String,
    /// The index of the order of its submission, if it is an accepted one.
    pub(crate) past: Option<usize>,
    /// The number of the ring's ways before these; the largest number stands for all larger ones.
    pub(crate) before: u64,
    /// The number of the exit's ring among those before the next command.
    pub(crate) number: usize,
}

/// The ways from a ring to the end of the script.
#[derive(Drop)]
pub(crate) struct KeptWays {
    pub(crate) ring: RingSlots,
    /// The number of ways that were found; the largest number stands for all larger ones.
    pub(crate) ways: u64,
    /// True if these are all ways.
    pub(crate) are_all: bool,
    /// The exits with which they begin.
    pub(crate) exits: Vec<KeptExit>,
}

/// Returns what is kept of the ways of a ring, by its number among others, if it is that ring.
pub(crate) fn rest_at<'a>(
    rests: &'a [KeptWays],
    number: usize,
    ring: &RingSlots,
) -> Option<&'a KeptWays>
    ensures there { IfSome result (λ rest. slice_get rests.now number ≡ Some rest.now) }
    ensures same { IfSome result (λ rest. (catalogue : List FileEntry)
        → ring_with_slots catalogue rest.now.ring ≡ ring_with_slots catalogue ring.now) }
{
    let rest = rests.get(number)?;
    if are_same(&rest.ring, ring) {
        return Some(rest);
    }
    None
}

// Returns what is kept of a ring at the end of the script.
fn rest_at_end(setting: &WalkSetting<'_>, last: &Reached) -> Result<KeptWays, NoMemory>
    requires bare { IsBare (stage_of setting.now.catalogue.now last.now) }
    ensures { IfOk result (IsRest setting.now.catalogue.now [] []) }
{
    let alloc = setting.alloc;
    let files = files_at(alloc, &last.ring.slots)?;
    let closes = close_in_order(alloc, setting.catalogue, &files)?;
    let line = teardown_text(alloc, setting.catalogue, &closes)?;
    let ring = copy_of(alloc, &last.ring)?;
    let mut exits = Vec::new(alloc);
    exits.push(KeptExit {
        line,
        past: None,
        before: 0,
        number: 0,
    })?;
    Ok(KeptWays {
        ring,
        ways: 1,
        are_all: true,
        exits,
    })
}

// Returns what is kept of rings at the end of the script.
fn rests_at_end(setting: &WalkSetting<'_>, rings: &[Reached]) -> Result<Vec<KeptWays>, NoMemory>
    requires rings { AreBare (stages_of setting.now.catalogue.now rings.now) }
    ensures { IfOk result (λ rests. All (IsRest setting.now.catalogue.now [] []) rests.items) }
{
    let mut rests = Vec::new(setting.alloc);
    for last in rings {
        rests.push(rest_at_end(setting, last)?)?;
    }
    Ok(rests)
}

// Adds the ways that begin with an exit, if what is kept of the exit's ring is known, and no exit
// before it printed the same.
fn push_exit(
    setting: &WalkSetting<'_>,
    lines: &mut IndexSet<String>,
    rest: &mut KeptWays,
    exit: &Reached,
    number: usize,
    later: Option<&KeptWays>,
) -> Result<(), NoMemory>
    ensures ring { OnOk result (rest.new.ring ≡ rest.old.ring) }
    ensures all { OnOk result (IsTrue rest.new.are_all → IsTrue rest.old.are_all) }
    ensures ways { OnOk result ((command : Instruction) (commands : List Instruction)
        (before : List Stage) (behind : List (List KeptWays))
        → MayLeadTo true (bare setting.now.catalogue.now rest.old.ring) command
        (stage_of setting.now.catalogue.now exit.now)
        → IfSome later.entry (λ later. AreWaysOf setting.now.catalogue.now commands exit.now.ring
        (ways_at behind number) later.now)
        → AreWaysBy setting.now.catalogue.now command commands behind before
        (map string_bytes lines.old.keys) rest.old
        → AreWaysBy setting.now.catalogue.now command commands behind
        (before ++ stage_of setting.now.catalogue.now exit.now ∷ [])
        (map string_bytes lines.new.keys) rest.new) }
{
    let line = String::from_str(setting.alloc, exit.printed.as_str())?;
    let is_new = lines.insert(line)?;
    match later {
        Some(later) if is_new => {
            rest.exits.push(KeptExit {
                line: String::from_str(setting.alloc, exit.printed.as_str())?,
                past: exit.past,
                before: rest.ways,
                number,
            })?;
            rest.ways = rest.ways.saturating_add(later.ways);
            rest.are_all = both(rest.are_all, later.are_all);
            Ok(())
        }
        _ => {
            rest.are_all = false;
            Ok(())
        }
    }
}

// Returns what is kept of a ring before a command.
fn rest_before(
    setting: &WalkSetting<'_>,
    exits: &Exits,
    later: &[KeptWays],
) -> Result<KeptWays, NoMemory>
    ensures { IfOk result (λ rest. (command : Instruction) (commands : List Instruction)
        (behind : List (List KeptWays)) → AreExits setting.now.catalogue.now command exits.now
        → All (IsRest setting.now.catalogue.now commands behind) later.now
        → IsRest setting.now.catalogue.now (command ∷ commands) (later.now ∷ behind) rest) }
{
    let alloc = setting.alloc;
    let mut lines = IndexSet::new(alloc);
    let mut rest = KeptWays {
        ring: copy_of(alloc, &exits.ring)?,
        ways: 0,
        are_all: exits.are_all,
        exits: Vec::new(alloc),
    };
    let to = exits.to.as_slice();
    for (i, exit) in to.iter().enumerate() {
        // a number that no ring has: what is kept of the exit's ring counts as unknown
        let number = exits.numbers.get(i).copied().unwrap_or(later.len());
        let behind = rest_at(later, number, &exit.ring);
        push_exit(setting, &mut lines, &mut rest, exit, number, behind)?;
    }
    Ok(rest)
}

// Returns what is kept of rings before a command.
fn rests_before(
    setting: &WalkSetting<'_>,
    exits: &[Exits],
    later: &[KeptWays],
) -> Result<Vec<KeptWays>, NoMemory>
    ensures { IfOk result (λ rests. (command : Instruction) (commands : List Instruction)
        (behind : List (List KeptWays))
        → All (AreExits setting.now.catalogue.now command) exits.now
        → All (IsRest setting.now.catalogue.now commands behind) later.now
        → All (IsRest setting.now.catalogue.now (command ∷ commands) (later.now ∷ behind))
        rests.items) }
{
    let mut rests = Vec::new(setting.alloc);
    for own in exits {
        rests.push(rest_before(setting, own, later)?)?;
    }
    Ok(rests)
}

/// Returns what is kept of the rings before each command, and before the end.
///
/// # Errors
/// `NoMemory` if an allocation fails.
pub(crate) fn rests_of(
    setting: &WalkSetting<'_>,
    all: Layers<'_>,
) -> Result<Vec<Vec<KeptWays>>, NoMemory>
    requires layers { All (IsLayer setting.now.catalogue.now) all.layers.items }
    requires last { AreBare (stages_of setting.now.catalogue.now all.last.items) }
    ensures { IfOk result (λ rests. AreRests setting.now.catalogue.now
        (commands_in all.entry.layers.items) (rests_in rests.items)) }
{
    let Layers { mut layers, last } = all;
    let mut rests = Vec::new(setting.alloc);
    let mut later = rests_at_end(setting, &last)?;
    while let Some(layer) = layers.pop() {
        let own = rests_before(setting, &layer.exits, &later)?;
        rests.push(later)?;
        later = own;
    }
    rests.push(later)?;
    rests.reverse();
    Ok(rests)
}
