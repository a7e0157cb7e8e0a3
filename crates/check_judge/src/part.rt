//! Judges the closes and claims of a table, slot by slot and by slots that chains have in common.
ghost use Rattle.std.specs.Prelude.{◌<◌};
ghost use Rattle.check_judge.specs.Words.{IfOk, length, table_of_slots};
ghost use Rattle.check_judge.specs.Played.{AreCellsOf, IsCell, IsTableVerdict};

use crate::answered::TableRecorded;
use crate::judgement::Reason;
use crate::refuted::{has_unknown, judge_counts};
use crate::strands::{accesses_along, is_range_empty, strands_of, with_full};
use check_search::{
    Cell, Doubt, FEW_STATES, Found, Limits, Steps, Web, components, explore, resident_for,
    shows_no_end,
};
use fx_base::NoMemory;
use fx_order::ChainAccess;
use std::alloc::Global;

/// The result of a search.
#[derive(Drop)]
pub enum PartVerdict {
    /// An order, which is still to be made.
    Order(Vec<ChainAccess>),
    /// There is no order.
    Refuted(Reason),
    /// Neither was shown within the limits.
    Unsettled(Doubt),
}

/// Returns a slot as it is before the submission.
pub(crate) fn cell_of(table: &TableRecorded<'_>, slot: usize) -> Cell
    requires { slot < length table.now.slots.now.at.items }
    ensures { IsCell (table_of_slots table.now.slots.now) table.now.closes.now result }
{
    let (first, len) = table.slots.range;
    let inside = first as usize <= slot && slot < first as usize + len as usize;
    Cell {
        slot: slot as u32,
        in_range: inside,
        file: table.slots.at[slot].map(|file| resident_for(table.closes, file)),
    }
}

// Judges the claims of these slots: searches for an order of the accesses there.
fn judge_part(
    alloc: Global,
    table: &TableRecorded<'_>,
    cells: &[Cell],
    limits: Limits,
    reason: Reason,
) -> Result<PartVerdict, NoMemory>
    requires { AreCellsOf table.now cells.now }
    ensures { IfOk result (IsTableVerdict table.now) }
{
    let strands = strands_of(alloc, cells, table.chains)?;
    let steps = Steps::new(alloc, &strands, cells)?;
    let (rows, found) = explore(alloc, &steps, limits)?;
    let web = Web { steps, rows };
    match found {
        Found::Order(order) => {
            let accesses = accesses_along(alloc, &strands, cells, &order)?;
            Ok(PartVerdict::Order(accesses))
        }
        Found::NoEnd => {
            if !shows_no_end(alloc, &strands, cells, &web)? {
                return Ok(PartVerdict::Unsettled(Doubt::NotShown));
            }
            Ok(PartVerdict::Refuted(reason))
        }
        Found::Stopped(doubt) => Ok(PartVerdict::Unsettled(doubt)),
    }
}

// Looks for the first of some slots whose own claims have no order.
fn judge_slots(
    alloc: Global,
    table: &TableRecorded<'_>,
    slots: &[usize],
    limits: Limits,
) -> Result<PartVerdict, NoMemory>
    ensures { IfOk result (IsTableVerdict table.now) }
{
    for slot in slots {
        let cells = cells_of(alloc, table, &[*slot])?;
        let outcome = judge_part(alloc, table, &cells, limits, reason_of(&[*slot]))?;
        if let PartVerdict::Refuted(reason) = outcome {
            return Ok(PartVerdict::Refuted(reason));
        }
    }
    Ok(PartVerdict::Unsettled(Doubt::NotShown))
}

/// Returns the slots of a part as they are before the submission.
pub(crate) fn cells_of(
    alloc: Global,
    table: &TableRecorded<'_>,
    slots: &[usize],
) -> Result<Vec<Cell>, NoMemory>
    ensures { IfOk result (λ cells. AreCellsOf table.now cells.items) }
{
    let mut cells = Vec::new(alloc);
    for slot in slots {
        if *slot < table.slots.at.len() {
            cells.push(cell_of(table, *slot))?;
        }
    }
    Ok(cells)
}

// Returns the reason for a part that has no order: its slot if it has one slot, otherwise its
// chains.
fn reason_of(slots: &[usize]) -> Reason {
    match slots {
        [slot] => Reason::Slot(u32::try_from(*slot).unwrap_or(u32::MAX)),
        _ => Reason::Chains,
    }
}

// Judges a table by its parts: slots of different parts have no chain in common.
fn judge_components(
    alloc: Global,
    table: &TableRecorded<'_>,
    parts: &[Vec<usize>],
    limits: Limits,
) -> Result<PartVerdict, NoMemory>
    ensures { IfOk result (IsTableVerdict table.now) }
{
    let mut order = Vec::new(alloc);
    let mut doubt: Option<Doubt> = None;
    for i in 0..parts.len() {
        let cells = cells_of(alloc, table, &parts[i])?;
        match judge_part(alloc, table, &cells, limits, reason_of(&parts[i]))? {
            PartVerdict::Order(mut own) => order.append(&mut own)?,
            PartVerdict::Refuted(reason) => return Ok(PartVerdict::Refuted(reason)),
            PartVerdict::Unsettled(other) => doubt = Some(other),
        }
    }
    if let Some(doubt) = doubt {
        return Ok(PartVerdict::Unsettled(doubt));
    }
    if is_range_empty(table.slots) {
        order = with_full(alloc, table.chains, &order)?;
    }
    Ok(PartVerdict::Order(order))
}

// Returns the limits of a first search, before slots are judged by themselves.
fn first_limits(table: &TableRecorded<'_>, limits: Limits) -> Limits {
    let sizes = table.chains.iter().map(|claims| claims.len());
    let states = sizes.fold(FEW_STATES, |sum, size| sum.saturating_add(size));
    Limits {
        states: states.min(limits.states),
        ..limits
    }
}

// Judges a table by searches: of the parts through few states, then of the slots by themselves, and
// then of the parts.
fn judge_searched(
    alloc: Global,
    table: &TableRecorded<'_>,
    limits: Limits,
) -> Result<PartVerdict, NoMemory>
    ensures { IfOk result (IsTableVerdict table.now) }
{
    let parts = components(alloc, table.slots.at.len(), table.slots.range, table.chains)?;
    let first = judge_components(alloc, table, &parts, first_limits(table, limits))?;
    if let PartVerdict::Order(order) = first {
        return Ok(PartVerdict::Order(order));
    }
    for part in &parts {
        // the slot of a part of one slot is judged with the part
        if part.len() > 1
            && let PartVerdict::Refuted(reason) = judge_slots(alloc, table, part, limits)?
        {
            return Ok(PartVerdict::Refuted(reason));
        }
    }
    match first {
        PartVerdict::Refuted(reason) => Ok(PartVerdict::Refuted(reason)),
        _ => judge_components(alloc, table, &parts, limits),
    }
}

/// Judges whether the closes and claims of a table are those of an order.
pub(crate) fn judge_table(
    alloc: Global,
    table: &TableRecorded<'_>,
    limits: Limits,
) -> Result<PartVerdict, NoMemory>
    ensures { IfOk result (IsTableVerdict table.now) }
{
    if has_unknown(table) {
        return Ok(PartVerdict::Refuted(Reason::Closes));
    }
    match judge_counts(alloc, table)? {
        PartVerdict::Refuted(reason) => Ok(PartVerdict::Refuted(reason)),
        _ => judge_searched(alloc, table, limits),
    }
}
