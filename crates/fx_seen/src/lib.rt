//! Knowledge of a shared `atomic_table` that threads pass on to each other, without any cost at run
//! time.
//!
//! A seat's view is what its thread knows, such as the history so far. [`show`] makes a [`Seen`]: a
//! view that was shown once and stays in the table for ever, so that the table's rule always holds
//! of it. A `Seen` has no bytes, can be copied ([`Seen::again`]) and may go to another thread by
//! any means that moves a value. [`learn`] shows one to another seat: that seat gets a view that
//! the rule allows in a table with the shown view. All three calls have an empty body: they are
//! steps of the proof alone.
//!
//! The calls of `atomic_table` can't carry this knowledge: each view belongs to one seat, and
//! changes only at a step of that seat. So this is the only crate whose functions are proved by
//! walks of their own. Begin reading at `specs/Kept.antt`.
#![tactic(auto)]

ghost use Rattle.core.specs.Prelude.{◌≡◌, ℕ};
ghost use denote.Sharing.{said};
ghost use Rattle.atomic_table.specs.Table.{Splits};
ghost use Rattle.atomic_table.specs.Seated.{TableId, table_id_coded};
ghost use Rattle.fx_seen.specs.Kept.{seen_owns, MayLearn};

use atomic_table::{Seat, Shared, Split, TableRule};
use std::marker::{Model, PhantomData};

/// A view that a seat has shown. It has no bytes, and may be dropped.
pub struct Seen<V> {
    marker: PhantomData<V>,
    pub ghost table_id: { TableId } by { table_id_coded },
    pub ghost id: { ℕ },
    pub ghost view: { V },
}

impl<V> Model for Seen<V> {
    ghost also_owns = { λ s. seen_owns V.row.coded.code s.table_id s.id s.view };

    ghost also_shares = { λ s _ κ. said (seen_owns V.row.coded.code s.table_id s.id s.view) κ };
}

/// The change of a view when its seat learns: a relation of the seat's view before, the shown view,
/// and the seat's view after.
pub trait Learning<V> {
    ghost then: { V → V → V → Type 0 };
}

impl<V> Seen<V> {
    /// Returns a copy.
    pub fn again(&self) -> Seen<V>
        ensures { result ≡ self.now }
    {
        Seen {
            marker: PhantomData,
        }
    }
}

/// Cuts the seat's view in two, as `M` says, and shows the second part. The seat keeps the first.
pub fn show<S, V, K, P: TableRule<S, V, K>, M: Split<V>>(
    table: &Shared<S, V, K, P>,
    seat: &mut Seat<S, V>,
) -> Seen<V>
    requires table { seat.old.table_id ≡ table.now.table_id }
    requires may { Splits (P.holds table.now.key) seat.old.id seat.old.me.0
        (M.left seat.old.me.0) (M.right seat.old.me.0) }
    ensures table { seat.new.table_id ≡ seat.old.table_id }
    ensures id { seat.new.id ≡ seat.old.id }
    ensures me { seat.new.me ≡ (M.left seat.old.me.0, seat.old.me.1) }
    ensures here { result.table_id ≡ seat.old.table_id }
    ensures seen { result.view ≡ M.right seat.old.me.0 }
{
    Seen {
        marker: PhantomData,
    }
}

/// Replaces the seat's view by one that `M` relates to its old view and to the view that was shown.
pub fn learn<S, V, K, P: TableRule<S, V, K>, M: Learning<V>>(
    table: &Shared<S, V, K, P>,
    seat: &mut Seat<S, V>,
    seen: &Seen<V>,
)
    requires table { seat.old.table_id ≡ table.now.table_id }
    requires here { seen.now.table_id ≡ table.now.table_id }
    requires may { MayLearn (P.holds table.now.key) seat.old.id seat.old.me.0 seen.now.view
        (M.then seat.old.me.0 seen.now.view) }
    ensures table { seat.new.table_id ≡ seat.old.table_id }
    ensures id { seat.new.id ≡ seat.old.id }
    ensures slots { seat.new.me.1 ≡ seat.old.me.1 }
    ensures learned { M.then seat.old.me.0 seen.now.view seat.new.me.0 }
{}

impl<V> Drop for Seen<V> {
    fn drop(self) {
        let Self { marker: _ } = self;
    }
}

unsafe impl<V> Send for Seen<V> {}

unsafe impl<V> Sync for Seen<V> {}
