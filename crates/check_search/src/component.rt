//! The partition of the slots into parts that no chain joins. Nothing is proved of it: a part is
//! judged by itself, whatever its slots.

use crate::claim::Claim;
use fx_base::NoMemory;
use std::alloc::Global;

// Joins the parts of two slots.
fn join(labels: &mut [usize], one: usize, other: usize) {
    let (Some(from), Some(to)) = (labels.get(one).copied(), labels.get(other).copied()) else {
        return;
    };
    for label in labels {
        if *label == from {
            *label = to;
        }
    }
}

// Joins the slots of a chain.
fn join_chain(labels: &mut [usize], range: (u32, u32), claims: &[Claim]) {
    let mut last: Option<usize> = None;
    for claim in claims {
        let (first, count) = match claim {
            Claim::At(slot, _, _) => (*slot as usize, 1),
            Claim::Full => (range.0 as usize, range.1 as usize),
        };
        for slot in first..(first + count).min(labels.len()) {
            if let Some(other) = last {
                join(labels, slot, other);
            }
            last = Some(slot);
        }
    }
}

/// Returns the slots in parts, so that no chain has claims in two parts.
///
/// # Errors
/// `NoMemory` if an allocation fails.
pub fn components(
    alloc: Global,
    size: usize,
    range: (u32, u32),
    chains: &[Vec<Claim>],
) -> Result<Vec<Vec<usize>>, NoMemory> {
    let mut labels: Vec<usize> = (0..size).collect(alloc)?;
    for claims in chains {
        join_chain(&mut labels, range, claims);
    }
    let mut parts = Vec::new(alloc);
    for label in 0..size {
        let slots = labels.iter().enumerate().filter(|(_, own)| **own == label);
        let part: Vec<usize> = slots.map(|(slot, _)| slot).collect(alloc)?;
        if !part.is_empty() {
            parts.push(part)?;
        }
    }
    Ok(parts)
}
