//! The rule of the table guarded by one word, and its kinds of step.
use crate::view::{Log, Start, View};
use atomic_table::{Play, TableRule};
use fx_plain::PlainTable;
use std::marker::{Brand, PhantomData};
use table_seats::SeatView;

/// The rule of the shared table: the table and all passes agree with one legal history. The word is
/// 1 while the table is at home, and 0 while one pass has it.
pub struct OneHistory;

impl TableRule<PlainTable, View, Start> for OneHistory {
    ghost use Rattle.fx_baton.specs.Words.{first_view};
    ghost use Rattle.fx_baton.specs.Rule.{IsKept, seats};

    ghost holds = { IsKept };

    ghost first = { first_view seats };
}

/// The attempt to take the table: it succeeds if the table is at home.
pub struct Grab;

impl Play<PlainTable, View> for Grab {
    ghost use Rattle.fx_baton.specs.Rule.{Grabs};

    ghost then = { Grabs };
}

/// The events of a pass while it had the table, for contracts alone.
pub trait Turn {
    ghost use Rattle.fx_baton.specs.Words.{List, Event, Task};

    // The events, the newest first.
    ghost events: { List Event };

    // The activity of the pass afterwards.
    ghost doing: { Task };
}

impl Turn for Brand {
    ghost use Rattle.fx_baton.specs.Words.{[], Idle};

    ghost events = { [] };

    ghost doing = { Idle };
}

/// The return of the table: it goes home, and the pass's events are appended to the history.
pub struct Give<U> {
    turn: PhantomData<U>,
}

impl<U: Turn> Play<PlainTable, View> for Give<U> {
    ghost use Rattle.fx_baton.specs.Rule.{PutsBack};

    ghost then = { PutsBack U.events U.doing };
}

/// A step that changes nothing. It yields that the rule holds in some state with this seat in it.
pub struct Observe;

impl Play<PlainTable, View> for Observe {
    ghost use Rattle.table_seats.specs.Settling.{Observes};
    ghost use Rattle.fx_baton.specs.Rule.{IsKept};

    ghost then = { Observes IsKept (λ v. v.start) };
}

impl SeatView for View {
    ghost use Rattle.fx_baton.specs.Rule.{seats as views};
    ghost use Rattle.fx_baton.specs.Showing.{HasLearned};

    type Log = Log;

    type Start = Start;

    ghost seats = { views };

    ghost learns = { HasLearned };
}
