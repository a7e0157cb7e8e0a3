//! The table guarded by one word: taking it, and putting it back.
ghost use Rattle.std.specs.Prelude.{◌≡◌, ◌≤◌, ◌∷◌};
ghost use Rattle.fx_baton.specs.Words.{[], MOST_SLOTS, MAX_CHAINS, MAX_PASSES, size_of, range_of, Log};
ghost use Rattle.fx_baton.specs.Rule.{Takes, opening_of, view_after};
ghost use Rattle.fx_baton.specs.Turns.{table_of_seats, use_of};
ghost use Rattle.fx_baton.specs.Passes.{view_of, pass_after, IsPassOf, HasTable, HasPlayed, HasCalled, HasGivenBack};

use crate::kinds::{Give, Grab, OneHistory, Turn};
use crate::pass::BatonPass;
use crate::view::{Call, Start, View};
use atomic_table::{Seat, Table};
use fx_plain::PlainTable;
use std::alloc::Global;
use std::marker::Brand;
use std::sync::Wait;
use std::thread;

/// A file table that threads share, guarded by one word: a pass that exchanges the word has the
/// whole table of one thread, in place, and puts the word back after its call. A pass that waits
/// for the table yields its thread. Pass p of n draws the chains p, p + n, p + 2n and so on, and
/// the takes of a removed file are 0. It must be consumed: the compiler rejects a program that
/// drops one.
pub struct BatonTable {
    pub(crate) table: Table<PlainTable, View, Start, OneHistory, Global>,
    pub(crate) chains: u32,
    pub(crate) passes: u32,
    pub(crate) size: u32,
    pub(crate) range_start: u32,
    pub(crate) range_len: u32,
    pub ghost counts: { (table.shared.table_id.words ≡ 1) × (table.shared.table_id.slots ≡ 1) },
    pub ghost key: { (chains ≡ table.shared.key.chains) × (passes ≡ table.shared.key.passes) },
    pub ghost same_size: { size ≡ size_of (opening_of table.shared.key) },
    pub ghost same_range: { (range_start, range_len) ≡ range_of (opening_of table.shared.key) },
    pub ghost few_slots: { size ≤ MOST_SLOTS },
    pub ghost bounds: { (chains ≤ MAX_CHAINS) × (1 ≤ passes) × (passes ≤ MAX_PASSES) },
}

impl BatonTable {
    // Takes the table as soon as no other pass has it.
    fn grab<R: Wait>(&self, rt: &R, seat: &mut Seat<PlainTable, View>)
        requires fits { seat.old.table_id ≡ self.now.table.shared.table_id }
        requires free { (seat.old.me.1 ≡ []) × (seat.old.me.0.loan ≡ None) }
        requires one { (x : Log) × (seat.old.me.0.logs ≡ x ∷ []) }
        ensures same { (seat.new.table_id ≡ seat.old.table_id) × (seat.new.id ≡ seat.old.id) }
        ensures taken { (x : Log) → seat.old.me.0.logs ≡ x ∷ [] → Takes seat.old.me x seat.new.me }
    {
        for _ in rt.forever() {
            if self.table.shared.compare_exchange::<Grab>(seat, 0, 1, 0) == 1 {
                return;
            }
            thread::yield_now();
        }
        unreachable!()
    }

    // Takes the table for a pass.
    pub(crate) fn borrow<R: Wait>(&self, rt: &R, pass: &mut BatonPass)
        requires { IsPassOf self.now.table.shared.table_id self.now.table.shared.key pass.old }
        ensures { let t = self.now.table.shared in
            let c = table_of_seats pass.new.seat.me.1 in
            HasTable t.table_id t.key (view_of pass.old) c c pass.new }
    {
        self.grab(rt, &mut pass.seat)
    }

    // Puts the table back, with the pass's events appended to the history.
    fn give<U: Turn>(&self, pass: &mut BatonPass, call: Call, idle: bool)
        requires turn { let t = self.now.table.shared in
            HasPlayed t.table_id t.key U.events U.doing pass.old }
        requires numbers { (use_of call).numbers ≤ pass.old.numbers_left }
        requires looks { (use_of call).looks ≤ pass.old.looks_left }
        ensures table { pass.new.seat.table_id ≡ pass.old.seat.table_id }
        ensures me { pass.new.seat.me ≡ (view_after pass.old.seat.me.0 U.events U.doing, []) }
        ensures pass { pass.new ≡ pass_after pass.old call idle pass.new.seat }
    {
        self.table.shared.store::<Give<U>>(&mut pass.seat, 0, 1);
        let (numbers, looks) = used(call);
        pass.numbers_left -= numbers;
        pass.looks_left -= looks;
        pass.idle = idle;
    }

    // Puts the table back after a call of the pass.
    pub(crate) fn give_back(&self, pass: &mut BatonPass, call: Call, idle: bool)
        requires { let t = self.now.table.shared in
            HasCalled t.table_id t.key call idle pass.old }
        ensures { let t = self.now.table.shared in
            HasGivenBack t.table_id t.key call pass.old pass.new }
    {
        self.give::<Brand>(pass, call, idle)
    }
}

// Returns the numbers and look-ups that a call uses.
fn used(call: Call) -> (u32, u32)
    ensures { result ≡ ((use_of call).numbers, (use_of call).looks) }
{
    match call {
        Call::Look(_) => (0, 1),
        Call::Put(_, _, _) | Call::Allocate(_, _, _) => (1, 0),
        Call::Release | Call::Full | Call::Clear(_) | Call::Take(_) | Call::Retire => (0, 0),
    }
}
