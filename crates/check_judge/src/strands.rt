//! The claims of chains at some slots alone, and the accesses that an order of them makes.
ghost use Rattle.std.specs.Prelude.{◌≡◌, ◌<◌, ◌+◌, ◌^◌, ◌==◌, ◌++◌};
ghost use Rattle.check_judge.specs.Words.{IfOk, OnOk, List, length, filter, list_any, Closed as FileAt, ChainAccess as OneAccess, keeps};
ghost use Rattle.check_judge.specs.Claims.{AreClaims};
ghost use Rattle.check_judge.specs.Played.{AreStrands, strand_for};

use check_search::{Cell, Claim, Condition, Leaves, Strand, apply, cell_at, claim_of, has_slot};
use fx_base::NoMemory;
use fx_order::{Access, ChainAccess, Slots};
use std::alloc::Global;

// Checks whether one of these slots is of the allocation range.
fn has_range(cells: &[Cell]) -> bool
    ensures { result ≡ list_any (λ cell. cell.in_range) cells.now }
{
    cells.iter().any(|cell| cell.in_range)
}

// Checks whether a claim is of one of these slots, or of the allocation range if one of them is of
// it.
fn keeps(cells: &[Cell], claim: &Claim) -> bool
    ensures { result ≡ keeps cells.now claim.now }
{
    match claim {
        Claim::At(slot, _, _) => has_slot(cells, *slot),
        Claim::Full => has_range(cells),
    }
}

// Returns the claims of these slots.
fn kept(alloc: Global, cells: &[Cell], claims: &[Claim]) -> Result<Vec<Claim>, NoMemory>
    ensures { IfOk result (λ own. own.items ≡ filter (keeps cells.now) claims.now) }
{
    let own = claims.iter().filter(|claim| keeps(cells, claim));
    Ok(own.copied().collect(alloc)?)
}

// Appends the claims of a chain, if it has some.
fn push_strand(strands: &mut Vec<Strand>, chain: u32, claims: Vec<Claim>) -> Result<(), NoMemory>
    ensures { OnOk result (strands.new.items ≡ strands.old.items ++ strand_for chain claims) }
{
    if claims.is_empty() {
        return Ok(());
    }
    strands.push(Strand { chain, claims })?;
    Ok(())
}

/// Returns the chains that have claims of these slots, with these claims.
pub(crate) fn strands_of(
    alloc: Global,
    cells: &[Cell],
    chains: &[Vec<Claim>],
) -> Result<Vec<Strand>, NoMemory>
    requires { length chains.now + 1 < 2 ^ 32 }
    ensures { IfOk result (λ strands. (closes : List FileAt) (order : List OneAccess)
        → AreClaims closes chains.now order
        → AreStrands closes cells.now (length chains.now) order strands.items) }
{
    let mut strands = Vec::new(alloc);
    for i in 0..chains.len() {
        let own = kept(alloc, cells, &chains[i])?;
        push_strand(&mut strands, i as u32 + 1, own)?;
    }
    Ok(strands)
}

// Returns the access that a claim describes at these slots.
fn access_of(cells: &[Cell], claim: &Claim) -> Access {
    let Claim::At(slot, condition, leaves) = claim else {
        return Access::FindsFull;
    };
    let found = cell_at(cells, *slot).map(|resident| resident.file);
    match (condition, leaves) {
        (Condition::NothingToTake, _) => Access::Takes(*slot, None),
        (_, Leaves::Same) => Access::Looks(*slot, found),
        (Condition::Something, Leaves::Empty) => Access::Takes(*slot, found),
        (_, Leaves::Empty) => Access::Clears(*slot, found),
        (Condition::Nothing, Leaves::File(resident)) => Access::Allocates(*slot, resident.file),
        (_, Leaves::File(resident)) => Access::Puts(*slot, resident.file, found),
    }
}

/// Returns the accesses of an order of claims. No contract says anything of them; they are checked
/// like any other order.
pub(crate) fn accesses_along(
    alloc: Global,
    strands: &[Strand],
    cells: &[Cell],
    order: &[usize],
) -> Result<Vec<ChainAccess>, NoMemory> {
    let mut cells = Vec::from_slice(alloc, cells)?;
    let mut places = vec![in alloc; 0usize; strands.len()]?;
    let mut accesses = Vec::new(alloc);
    for at in order {
        let (Some(claim), Some(strand)) = (claim_of(strands, &places, *at), strands.get(*at)) else {
            break;
        };
        accesses.push(ChainAccess {
            chain: strand.chain,
            access: access_of(&cells, claim),
        })?;
        apply(&mut cells, claim);
        if *at < places.len() {
            places[*at] = places[*at].saturating_add(1);
        }
    }
    Ok(accesses)
}

/// Checks whether a table has no slot of its allocation range. If so, an open at any slot always
/// finds the range full, and no part of the table has a slot of it.
pub(crate) fn is_range_empty(slots: &Slots) -> bool {
    slots.range.1 == 0 || slots.range.0 as usize >= slots.at.len()
}

// Appends the accesses of a chain, from a position on, that find the range full. Returns the
// position of the first other claim.
fn push_full(
    whole: &mut Vec<ChainAccess>,
    chain: u32,
    claims: &[Claim],
    first: usize,
) -> Result<usize, NoMemory> {
    for i in first..claims.len() {
        if !matches!(claims[i], Claim::Full) {
            return Ok(i);
        }
        whole.push(ChainAccess {
            chain,
            access: Access::FindsFull,
        })?;
    }
    Ok(claims.len())
}

/// Returns an order with the accesses that find the range full, each at its place among those of
/// its chain.
pub(crate) fn with_full(
    alloc: Global,
    chains: &[Vec<Claim>],
    order: &[ChainAccess],
) -> Result<Vec<ChainAccess>, NoMemory>
    requires { length chains.now + 1 < 2 ^ 32 }
{
    let mut whole = Vec::new(alloc);
    let mut places = vec![in alloc; 0usize; chains.len()]?;
    for x in order {
        let chain = (x.chain as usize).saturating_sub(1);
        if chain < chains.len() && chain < places.len() {
            let place = push_full(&mut whole, x.chain, &chains[chain], places[chain])?;
            places[chain] = place.saturating_add(1);
        }
        whole.push(*x)?;
    }
    for chain in 0..chains.len() {
        if chain < places.len() {
            push_full(&mut whole, chain as u32 + 1, &chains[chain], places[chain])?;
        }
    }
    Ok(whole)
}
