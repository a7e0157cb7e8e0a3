//! The kinds of step that move passes between seats, and that show what a pass has seen, for every
//! shared table.
ghost use Rattle.table_seats.specs.Seats.{Seats, without_first, first_alone, joined, spent};
ghost use Rattle.table_seats.specs.Seats.{shown_view};

use atomic_table::{Join, Split};
use fx_seen::Learning;

/// The view of a table's seat, for contracts alone.
pub trait SeatView {
    /// The events of one pass.
    type Log;

    /// The start of a table.
    type Start;

    // The parts that the views of all shared tables have.
    ghost seats: { Seats Self Self.Log Self.Start };

    // The change of a view when its pass learns what another view shows.
    ghost learns: { Self → Self → Self → Type 0 };
}

/// The split of a seat: its first pass gets a seat of its own.
pub struct Deal;

impl<V: SeatView> Split<V> for Deal {
    ghost left = { without_first V.seats };

    ghost right = { first_alone V.seats };
}

/// The join of two seats: one takes in the passes of the other.
pub struct Gather;

impl<V: SeatView> Join<V> for Gather {
    ghost both = { joined V.seats };

    ghost spent = { spent V.seats };
}

/// Show: a seat shows all that its pass has seen.
pub struct Show;

impl<V: SeatView> Split<V> for Show {
    ghost left = { λ v. v };

    ghost right = { shown_view V.seats };
}

/// Learn: a pass has seen all that was shown, and all that it had seen before.
pub struct Learn;

impl<V: SeatView> Learning<V> for Learn {
    ghost then = { V.learns };
}
