//! The rings before each command of a script, each once, and the exits of each: what the command
//! prints, and the ring after it.
ghost use Rattle.std.specs.Prelude.{◌≡◌};
ghost use Rattle.check_texts.specs.Words.{All, IfOk, List, OnOk, true, FileEntry, instruction_of, instructions_of};
ghost use Rattle.check_texts.specs.Rings.{AreRings, stages_of};
ghost use Rattle.check_texts.specs.Layers.{AreExits, IsLayer, commands_in};
ghost use Rattle.check_texts.specs.Ways.{AreBare};

use crate::next::push_next;
use crate::rings::start;
use crate::walk::{Reached, Spent, WalkSetting};
use check_lines::copy_of;
use check_outcomes::push_file;
use fx_base::NoMemory;
use fx_language::Command;
use fx_order::RingSlots;
use indexmap::IndexSet;
use std::alloc::Global;

/// The exits of a ring by a command.
#[derive(Drop)]
pub(crate) struct Exits {
    pub(crate) ring: RingSlots,
    /// The rings after the command, each with what the command printed.
    pub(crate) to: Vec<Reached>,
    /// The number of each of them among the rings before the next command.
    pub(crate) numbers: Vec<usize>,
    /// True if these are all exits.
    pub(crate) are_all: bool,
}

/// The exits of the rings before a command.
#[derive(Drop)]
pub(crate) struct Layer<'a> {
    pub(crate) command: &'a Command,
    pub(crate) exits: Vec<Exits>,
}

/// The exits before each command of a script, and the rings before its end.
#[derive(Drop)]
pub(crate) struct Layers<'a> {
    pub(crate) layers: Vec<Layer<'a>>,
    pub(crate) last: Vec<Reached>,
}

// Rings, each once, without what was printed before.
#[derive(Drop)]
struct Bare {
    rings: Vec<Reached>,
    // Their numbers, for looking them up.
    keys: IndexSet<Vec<u32>>,
}

// Returns the numbers of a ring, for looking it up. Nothing is proved of them: each ring that is
// found is compared.
fn key_of(alloc: Global, ring: &RingSlots) -> Result<Vec<u32>, NoMemory> {
    let mut key = Vec::new(alloc);
    let (first, len) = ring.slots.range;
    for number in [ring.submissions, ring.registrations, first, len] {
        key.push(number)?;
    }
    for file in &ring.slots.at {
        push_file(&mut key, file)?;
    }
    Ok(key)
}

// Puts the rings of exits among others, unless they are there. Returns their numbers. Nothing is
// proved of these.
fn numbers_of(alloc: Global, bare: &mut Bare, exits: &[Reached]) -> Result<Vec<usize>, NoMemory>
    ensures { OnOk result ((catalogue : List FileEntry)
        → AreRings (stages_of catalogue exits.now)
        → AreBare (stages_of catalogue bare.old.rings.items)
        → AreBare (stages_of catalogue bare.new.rings.items)) }
{
    let mut numbers = Vec::new(alloc);
    for exit in exits {
        let key = key_of(alloc, &exit.ring)?;
        let (number, is_new) = bare.keys.insert_full(key)?;
        numbers.push(number)?;
        if !is_new {
            continue;
        }
        let ring = copy_of(alloc, &exit.ring)?;
        bare.rings.push(Reached {
            ring,
            printed: String::new(alloc),
            past: None,
        })?;
    }
    Ok(numbers)
}

// Returns the exits of rings by a command. Their rings are put into a list.
fn exits_of(
    setting: &WalkSetting<'_>,
    spent: &mut Spent,
    bare: &mut Bare,
    rings: &[Reached],
    command: &Command,
) -> Result<Vec<Exits>, NoMemory>
    requires told { setting.now.keeps ≡ true }
    requires rings { AreBare (stages_of setting.now.catalogue.now rings.now) }
    requires next { AreBare (stages_of setting.now.catalogue.now bare.old.rings.items) }
    ensures exits { IfOk result (λ exits. All
        (AreExits setting.now.catalogue.now (instruction_of command.now)) exits.items) }
    ensures next { OnOk result
        (AreBare (stages_of setting.now.catalogue.now bare.new.rings.items)) }
{
    let alloc = setting.alloc;
    let mut all = Vec::new(alloc);
    for from in rings {
        let mut to = Vec::new(alloc);
        let are_all = push_next(setting, spent, &mut to, from, command)?;
        let numbers = numbers_of(alloc, bare, &to)?;
        all.push(Exits {
            ring: copy_of(alloc, &from.ring)?,
            to,
            numbers,
            are_all,
        })?;
    }
    Ok(all)
}

/// Returns the exits before each command, and the rings before the end, beginning at a ring without
/// a table.
///
/// # Errors
/// `NoMemory` if an allocation fails.
pub(crate) fn layers_of<'a>(
    setting: &WalkSetting<'_>,
    spent: &mut Spent,
    commands: &'a [Command],
) -> Result<Layers<'a>, NoMemory>
    requires told { setting.now.keeps ≡ true }
    ensures layers { IfOk result (λ all.
        All (IsLayer setting.now.catalogue.now) all.layers.items) }
    ensures commands { IfOk result (λ all.
        commands_in all.layers.items ≡ instructions_of commands.now) }
    ensures last { IfOk result (λ all.
        AreBare (stages_of setting.now.catalogue.now all.last.items)) }
{
    let alloc = setting.alloc;
    let mut layers = Vec::new(alloc);
    let mut rings = start(alloc)?;
    for command in commands {
        spent.keep_command();
        let mut bare = Bare {
            rings: Vec::new(alloc),
            keys: IndexSet::new(alloc),
        };
        let exits = exits_of(setting, spent, &mut bare, &rings, command)?;
        rings = bare.rings;
        layers.push(Layer { command, exits })?;
    }
    Ok(Layers {
        layers,
        last: rings,
    })
}
