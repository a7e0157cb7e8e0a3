//! The holds of a table's files by number. As in the list of nodes, numbers that no look-up has
//! reached aren't written; their holds are 0.
ghost use Rattle.std.specs.Prelude.{◌≡◌, ◌+◌, ◌-◌, ◌<◌, ◌^◌, ◌≤◌, ℕ, [], length};
ghost use Rattle.std.specs.Prelude.{replicate, slice_index, slice_set, vec_len, vec_capacity, IfOk};
ghost use Rattle.std.specs.Prelude.{IfSome, IfNone};
ghost use Rattle.fx_plain.specs.Reserved.{with_rest};

use fx_base::NoMemory;
use std::alloc::Global;
use std::marker::Model;

// The holds of all numbers below `len`. Those after the written ones are 0.
#[derive(Drop)]
pub(crate) struct HoldList {
    written: Vec<u32>,
    len: u32,
}

impl Model for HoldList {
    ghost use Rattle.std.specs.Prelude.{List, ℕ, ◌≤◌, vec_len, vec_capacity};
    ghost use Rattle.fx_plain.specs.Reserved.{with_rest};

    ghost Value = { List ℕ };

    ghost view = { λ holds. with_rest 0 holds.len holds.written.items };

    ghost invariant = { λ holds.
        (vec_len holds.written ≤ holds.len) × (holds.len ≤ vec_capacity holds.written) };
}

impl HoldList {
    pub(crate) fn none(alloc: Global) -> HoldList
        ensures { result ≡ [] }
    {
        HoldList {
            written: Vec::new(alloc),
            len: 0,
        }
    }

    // Creates `len` zeros.
    pub(crate) fn zeros(alloc: Global, len: u32) -> Result<HoldList, NoMemory>
        ensures { IfOk result (λ holds. holds ≡ replicate len 0) }
    {
        let written = Vec::with_capacity(alloc, len as usize)?;
        Ok(HoldList { written, len })
    }

    // Creates `len` zeros, or returns `None` if this list has at least `len` numbers and can be
    // reused.
    pub(crate) fn zeros_beyond(&self, alloc: Global, len: u32) -> Result<Option<HoldList>, NoMemory>
        ensures new { IfOk result (λ new. IfSome new (λ holds. holds ≡ replicate len 0)) }
        ensures here { IfOk result (λ new. IfNone new (len ≤ length self.now)) }
    {
        if len <= self.len {
            return Ok(None);
        }
        Ok(Some(HoldList::zeros(alloc, len)?))
    }

    // Makes the list `len` zeros: the new ones, or else the first of those in this list.
    pub(crate) fn start_again(&mut self, new: Option<HoldList>, len: u32)
        requires new { IfSome new (λ holds. holds ≡ replicate len 0) }
        requires here { IfNone new (len ≤ length self.old) }
        requires zeros { (number : ℕ) → slice_index self.old number ≡ 0 }
        ensures { self.new ≡ replicate len 0 }
    {
        if let Some(holds) = new {
            *self = holds;
            return;
        }
        if self.written.len() > len as usize {
            self.written.clear();
        }
        self.len = len;
    }

    // Returns the number of holds of a file.
    pub(crate) fn of(&self, number: u32) -> u32
        ensures { result ≡ slice_index self.now number }
    {
        self.written.get(number as usize).copied().unwrap_or(0)
    }

    // Adds a hold of a number.
    pub(crate) fn add_hold(&mut self, number: u32)
        requires inside { number < length self.old }
        requires fits { slice_index self.old number + 1 < 2 ^ 32 }
        ensures { self.new ≡ slice_set self.old number (slice_index self.old number + 1) }
    {
        write_up_to(&mut self.written, number);
        self.written[number as usize] += 1;
    }

    // Ends a hold of a number, and returns the number of holds that remain.
    pub(crate) fn end_hold(&mut self, number: u32) -> u32
        requires { 0 < slice_index self.old number }
        ensures after { self.new ≡ slice_set self.old number (slice_index self.old number - 1) }
        ensures left { result + 1 ≡ slice_index self.old number }
    {
        self.written[number as usize] -= 1;
        self.written[number as usize]
    }
}

// Appends zeros up to this number, unless they are written already.
#[tactic(auto, using(crate::proofs::Emptying::with_rest_push))]
fn write_up_to(holds: &mut Vec<u32>, number: u32)
    requires { number < vec_capacity holds.old }
    ensures inside { number < vec_len holds.new }
    ensures few { (len : ℕ) → number < len → vec_len holds.old ≤ len → vec_len holds.new ≤ len }
    ensures same { (len : ℕ) → number < len
        → with_rest 0 len holds.new.items ≡ with_rest 0 len holds.old.items }
    ensures capacity { vec_capacity holds.new ≡ vec_capacity holds.old }
{
    for _ in holds.len()..number as usize + 1 {
        holds.push_reserved(0);
    }
}
