//! The accesses that a request may make next, if no allocation fails.
ghost use Rattle.std.specs.Prelude.{◌≡◌, ◌<◌, ◌^◌, ◌∷◌};
ghost use Rattle.check_outcomes.specs.Words.{[], IfOk, length, IsCatalogue, operation_of, table_of_slots};
ghost use Rattle.fx_chain.specs.declared.intent.Intent.TheVariants.{Allocate};
ghost use Rattle.check_outcomes.specs.Choices.{HasEach, HasEachOf};

use fx_base::{Catalogue, Closed, NoMemory};
use fx_chain::{Intent, Place, Request, intent_of};
use fx_order::{Access, Slots};
use std::alloc::Global;

// Returns what is at a slot.
fn found_at(slots: &Slots, slot: u32) -> Option<Closed>
    ensures { result ≡ (table_of_slots slots.now).at slot }
{
    slots.at.get(slot as usize).copied().unwrap_or(None)
}

// Returns a single choice.
fn one(alloc: Global, access: Access) -> Result<Vec<Access>, NoMemory>
    ensures { IfOk result (λ choices. choices.items ≡ access ∷ []) }
{
    let mut choices = Vec::new(alloc);
    choices.push(access)?;
    Ok(choices)
}

// Returns the accesses by which a file may be installed at any empty slot.
fn allocations(alloc: Global, slots: &Slots, file: Closed) -> Result<Vec<Access>, NoMemory>
    requires { length slots.now.at.items < 2 ^ 32 }
    ensures { IfOk result (λ choices.
        HasEachOf (table_of_slots slots.now) (Allocate file) choices.items) }
{
    let mut choices = one(alloc, Access::FindsFull)?;
    for slot in 0..slots.at.len() as u32 {
        choices.push(Access::Allocates(slot, file))?;
    }
    Ok(choices)
}

// Returns the accesses that may be what a request intends: each one that the table permits, and
// perhaps others.
fn accesses_of(alloc: Global, slots: &Slots, intent: Intent) -> Result<Vec<Access>, NoMemory>
    requires { length slots.now.at.items < 2 ^ 32 }
    ensures { IfOk result (λ choices. HasEachOf (table_of_slots slots.now) intent choices.items) }
{
    match intent {
        Intent::Look(slot) => one(alloc, Access::Looks(slot, found_at(slots, slot))),
        Intent::Put(slot, file) => one(alloc, Access::Puts(slot, file, found_at(slots, slot))),
        Intent::Clear(slot) => one(alloc, Access::Clears(slot, found_at(slots, slot))),
        Intent::Take(slot) => one(alloc, Access::Takes(slot, found_at(slots, slot))),
        Intent::Allocate(file) => allocations(alloc, slots, file),
    }
}

/// Returns the accesses that a request may make next, after `made` of its accesses: each one that
/// the table permits, and perhaps others.
///
/// # Errors
/// `NoMemory` if an allocation fails.
pub fn next_accesses(
    alloc: Global,
    catalogue: &Catalogue,
    slots: &Slots,
    place: Place,
    request: &Request,
    made: usize,
) -> Result<Vec<Access>, NoMemory>
    requires catalogue { IsCatalogue catalogue.now }
    requires slots { length slots.now.at.items < 2 ^ 32 }
    ensures { IfOk result (λ choices. HasEach catalogue.now (table_of_slots slots.now) place
        (operation_of request.now.op) made choices.items) }
{
    match intent_of(catalogue, slots.at.len() as u32, place, request, made) {
        Some(intent) => accesses_of(alloc, slots, intent),
        None => Ok(Vec::new(alloc)),
    }
}
