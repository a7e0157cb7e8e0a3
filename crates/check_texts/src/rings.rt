//! The rings that commands may lead to, one after another.
ghost use Rattle.std.specs.Prelude.{◌≡◌, ◌∷◌, [], IfOk, IsTrue, Contains, List, length};
ghost use Rattle.check_texts.specs.Words.{FileEntry, instruction_of, instructions_of, ring_with_slots, new_ring};
ghost use Rattle.check_texts.specs.Rings.{AreStagesFrom, AreRings, HasEachFrom, HasEachLast, MayLeadAllTo, Stage, stages_of};

use crate::next::{both, push_next};
use crate::walk::{Reached, Spent, WalkSetting};
use fx_base::NoMemory;
use fx_language::Command;
use fx_order::{RingSlots, Slots};
use std::alloc::Global;

/// Rings that commands may lead to.
#[derive(Drop)]
pub(crate) struct Rings {
    pub(crate) rings: Vec<Reached>,
    /// True if these are all of them.
    pub(crate) are_all: bool,
}

/// Returns a ring without a table, with nothing counted.
pub(crate) fn start_ring(alloc: Global) -> RingSlots
    ensures ring { (catalogue : List FileEntry)
        → ring_with_slots catalogue result ≡ new_ring catalogue }
    ensures empty { length result.slots.at.items ≡ 0 }
{
    RingSlots {
        slots: Slots {
            range: (0, 0),
            at: Vec::new(alloc),
        },
        submissions: 0,
        registrations: 0,
    }
}

/// Returns a list of that ring alone.
///
/// # Errors
/// `NoMemory` if an allocation fails.
pub(crate) fn start(alloc: Global) -> Result<Vec<Reached>, NoMemory>
    ensures { IfOk result (λ rings. (catalogue : List FileEntry)
        → stages_of catalogue rings.items
        ≡ record { ring = new_ring catalogue; printed = [] } ∷ []) }
{
    let mut rings = Vec::new(alloc);
    rings.push(Reached {
        ring: start_ring(alloc),
        printed: String::new(alloc),
        past: None,
    })?;
    Ok(rings)
}

/// Returns the rings that a command may lead to from some.
///
/// # Errors
/// `NoMemory` if an allocation fails.
pub(crate) fn after(
    setting: &WalkSetting<'_>,
    spent: &mut Spent,
    rings: &[Reached],
    command: &Command,
) -> Result<Rings, NoMemory>
    requires { AreRings (stages_of setting.now.catalogue.now rings.now) }
    ensures each { IfOk result (λ next. AreStagesFrom setting.now.keeps
        (stages_of setting.now.catalogue.now rings.now) (instruction_of command.now)
        (stages_of setting.now.catalogue.now next.rings.items)) }
    ensures all { IfOk result (λ next. IsTrue next.are_all → HasEachFrom setting.now.keeps
        (stages_of setting.now.catalogue.now rings.now) (instruction_of command.now)
        (stages_of setting.now.catalogue.now next.rings.items)) }
{
    let mut next = Vec::new(setting.alloc);
    let mut are_all = true;
    spent.begin_command();
    for reached in rings {
        let all = push_next(setting, spent, &mut next, reached, command)?;
        are_all = both(are_all, all);
    }
    Ok(Rings {
        rings: next,
        are_all,
    })
}

/// Returns the rings that commands may lead to, one after another, from a ring without a table.
///
/// # Errors
/// `NoMemory` if an allocation fails.
pub(crate) fn after_all(
    setting: &WalkSetting<'_>,
    spent: &mut Spent,
    commands: &[Command],
) -> Result<Rings, NoMemory>
    ensures each { IfOk result (λ last. (s : Stage)
        → Contains (stages_of setting.now.catalogue.now last.rings.items) s
        → MayLeadAllTo setting.now.keeps (new_ring setting.now.catalogue.now)
        (instructions_of commands.now) s) }
    ensures rings { IfOk result (λ last.
        AreRings (stages_of setting.now.catalogue.now last.rings.items)) }
    ensures all { IfOk result (λ last. IsTrue last.are_all → HasEachLast setting.now.keeps
        (new_ring setting.now.catalogue.now) (instructions_of commands.now)
        (stages_of setting.now.catalogue.now last.rings.items)) }
{
    let mut rings = start(setting.alloc)?;
    let mut are_all = true;
    for command in commands {
        let next = after(setting, spent, &rings, command)?;
        rings = next.rings;
        are_all = both(are_all, next.are_all);
    }
    Ok(Rings { rings, are_all })
}
