//! Refutes a table's claims without a search: a closed file was never in the table, the counts of a
//! slot's files differ, or a request waits for a file that is never installed.
ghost use Rattle.std.specs.Prelude.{◌↔◌, Any, Contains, IfOk, IsTrue};
ghost use Rattle.check_judge.specs.Played.{Brings, IsBrought, IsKnown, AreCellsOf, IsOrderless, IsTableVerdict};
ghost use Rattle.check_search.specs.Machine.{HasNoEnd};
ghost use Rattle.check_search.specs.Starts.{starting};

use crate::answered::TableRecorded;
use crate::judgement::Reason;
use crate::part::{PartVerdict, cell_of, cells_of};
use crate::strands::strands_of;
use check_search::{Cell, Claim, Doubt, Leaves, Steps, Strand, is_dead_by, is_uneven, start_of};
use fx_base::{Closed, Mark, NoMemory};
use std::alloc::Global;

// Checks whether a claim leaves this file at its slot.
fn is_bringing(claim: &Claim, file: Closed) -> bool
    ensures { IsTrue result ↔ Brings claim.now file }
{
    match claim {
        Claim::At(_, _, leaves) => match leaves {
            Leaves::File(resident) => resident.file == file,
            Leaves::Same => false,
            Leaves::Empty => false,
        },
        Claim::Full => false,
    }
}

// Checks whether one of these claims leaves this file at its slot.
fn has_bringing(claims: &[Claim], file: Closed) -> bool
    ensures { IsTrue result ↔ Any (λ claim. Brings claim file) claims.now }
{
    claims.iter().any(|claim| is_bringing(claim, file))
}

// Checks whether a claim of one of the chains leaves this file at its slot.
fn is_brought(chains: &[Vec<Claim>], file: Closed) -> bool
    ensures { IsTrue result ↔ IsBrought chains.now file }
{
    for i in 0..chains.len() {
        if has_bringing(&chains[i], file) {
            return true;
        }
    }
    false
}

// Checks whether this file was at a slot, or a claim of one of the chains leaves it there.
fn is_known(table: &TableRecorded<'_>, file: Closed) -> bool
    ensures { IsTrue result
        ↔ IsKnown table.now.slots.now.at.items table.now.chains.now file }
{
    table.slots.at.contains(&Some(file)) || is_brought(table.chains, file)
}

// Checks whether the chain that the file's mark names leaves it at a slot. Only that chain installs
// a file of this submission, so it is searched first.
fn is_own(table: &TableRecorded<'_>, file: Closed) -> bool {
    let Mark::Submitted { chain, .. } = file.mark else {
        return false;
    };
    let own = table.chains.get((chain as usize).saturating_sub(1));
    matches!(own, Some(claims) if has_bringing(claims, file))
}

// Checks whether this file was never in the table. If so, no order closes it.
fn is_unknown(table: &TableRecorded<'_>, file: Closed) -> bool
    ensures { IsTrue result → Contains table.now.closes.now file → IsOrderless table.now }
{
    if is_own(table, file) {
        return false;
    }
    !is_known(table, file)
}

/// Checks whether a closed file was never in the table.
pub(crate) fn has_unknown(table: &TableRecorded<'_>) -> bool
    ensures { IsTrue result → IsOrderless table.now }
{
    for file in table.closes {
        if is_unknown(table, *file) {
            return true;
        }
    }
    false
}

// Checks whether the counts of a slot show that no order of the claims leads to an end.
fn sees_no_end(
    alloc: Global,
    strands: &[Strand],
    cells: &[Cell],
    slot: u32,
) -> Result<bool, NoMemory>
    ensures { IfOk result (λ yes. IsTrue yes
        → HasNoEnd strands.now (starting strands.now cells.now)) }
{
    let start = start_of(alloc, strands, cells)?;
    if is_uneven(strands, &start, slot) {
        return Ok(true);
    }
    let steps = Steps::new(alloc, strands, cells)?;
    let waits = steps.hopeless(&steps.start(alloc)?, 0);
    Ok(is_dead_by(strands, &start, waits))
}

// Checks whether the counts of a slot show that the table has no order.
fn is_refuted_by(
    alloc: Global,
    table: &TableRecorded<'_>,
    cells: &[Cell],
    slot: u32,
) -> Result<bool, NoMemory>
    requires { AreCellsOf table.now cells.now }
    ensures { IfOk result (λ yes. IsTrue yes → IsOrderless table.now) }
{
    let strands = strands_of(alloc, cells, table.chains)?;
    sees_no_end(alloc, &strands, cells, slot)
}

// Returns the slots whose counts of claims differ. No contract says anything of them.
fn suspects(alloc: Global, table: &TableRecorded<'_>) -> Result<Vec<usize>, NoMemory> {
    let slots: Vec<usize> = (0..table.slots.at.len()).collect(alloc)?;
    let cells = cells_of(alloc, table, &slots)?;
    let strands = strands_of(alloc, &cells, table.chains)?;
    let steps = Steps::new(alloc, &strands, &cells)?;
    let (tallies, start) = (steps.tallies(alloc)?, steps.start(alloc)?);
    let mut dead = Vec::new(alloc);
    for slot in 0..tallies.len() {
        if tallies[slot].is_dead(steps.file(&start, slot)) {
            dead.push(slot)?;
        }
    }
    Ok(dead)
}

/// Looks for the first slot whose counts show, without a search, that the table has no order.
pub(crate) fn judge_counts(
    alloc: Global,
    table: &TableRecorded<'_>,
) -> Result<PartVerdict, NoMemory>
    ensures { IfOk result (IsTableVerdict table.now) }
{
    let slots = suspects(alloc, table)?;
    for slot in &slots {
        if *slot >= table.slots.at.len() {
            continue;
        }
        let cells = [cell_of(table, *slot)];
        if is_refuted_by(alloc, table, &cells, *slot as u32)? {
            return Ok(PartVerdict::Refuted(Reason::Slot(*slot as u32)));
        }
    }
    Ok(PartVerdict::Unsettled(Doubt::NotShown))
}
