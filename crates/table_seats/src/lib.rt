//! The seats of a shared table: what the rules of all such tables say of them.
//!
//! A seat's view is what its thread knows of the table. Together the seats have each pass once, and
//! one legal history has all that the passes have seen and made (`specs/Together.antt`). A table
//! shows its views to these definitions as a `Seats` (`specs/Seats.antt`). The lemmas in `proofs/`
//! are proved once for all tables: a seat makes a step, seats are split, joined and shown, a pass
//! learns, and all passes are in one seat again. The kinds of step that do so are in `kinds.rt`.
//! Begin reading at `specs/Seats.antt`.
#![tactic(auto)]

ghost use Rattle.std.specs.Prelude.{◌≡◌, ◌≢◌, ◌<◌, ℕ, slice_set, None, Some};
ghost use Rattle.fx_base.specs.Identity.{Identity};
ghost use Rattle.std.specs.Mem.Slots.{slots_items, slots_len, IsFull};
ghost use mathlib.Core.Option.{some};
ghost use lib.ListN.{get_elem?};

mod kinds;

use atomic_table::Closed;
use fx_base::OpenFile;
pub use kinds::{Deal, Gather, Learn, SeatView, Show};
use std::alloc::Global;

/// Takes the content of a place out of a table that was closed, and leaves the place empty.
pub fn take_home(closed: &mut Closed<Option<OpenFile>, Global>, place: usize) -> Option<OpenFile>
    requires inside { place < slots_len closed.old.slots }
    requires full { IsFull closed.old.slots }
    ensures value { get_elem? (slots_items closed.old.slots) place ≡ some result }
    ensures items { slots_items closed.new.slots
        ≡ slice_set (slots_items closed.old.slots) place None }
    ensures count { slots_len closed.new.slots ≡ slots_len closed.old.slots }
    ensures full { IsFull closed.new.slots }
    ensures words { closed.new.words ≡ closed.old.words }
{
    let content = closed.take(place);
    closed.slots.put(place, None);
    content
}

/// Frees a table that was closed, all of whose places are empty.
pub fn free_empty(mut closed: Closed<Option<OpenFile>, Global>)
    requires full { IsFull closed.slots }
    requires empty { (place : ℕ) (file : Identity)
        → get_elem? (slots_items closed.slots) place ≢ some (Some file) }
{
    for place in 0..closed.slot_count() {
        let home = closed.take(place);
        let None = home else { unreachable!() };
    }
    closed.free();
}
