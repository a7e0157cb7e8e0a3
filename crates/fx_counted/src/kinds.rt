//! The rule of the lock-free table, and its fourteen kinds of step.
ghost use Rattle.fx_counted.specs.Words.{first_view, Same, Outside};
ghost use Rattle.fx_counted.specs.Agrees.{Agrees};
ghost use Rattle.table_seats.specs.Settling.{Observes};
ghost use Rattle.fx_counted.specs.Cuts.{seats as views};
ghost use Rattle.fx_counted.specs.Effects.{Births, Looks, Installs, Retires, Releases, Rests, SaysFull, Exchanges, DrawsChain, GoesOn};
ghost use Rattle.fx_counted.specs.Showing.{HasLearned};

use crate::view::{Log, Start, View};
use atomic_table::{Play, TableRule};
use fx_base::OpenFile;
use table_seats::SeatView;

/// The rule of the shared table: words, places and passes agree with the state that one legal
/// history leads to.
pub struct OneHistory;

impl TableRule<Option<OpenFile>, View, Start> for OneHistory {
    ghost holds = { Agrees };

    ghost first = { first_view views };
}

/// The birth of a file's number: the pass takes the place of its next number, whose word then says
/// that there was no release.
pub struct Birth;

impl Play<Option<OpenFile>, View> for Birth {
    ghost then = { Births };
}

/// The look-up: one more take in the slot's word, and one more hold of its file.
pub struct Look;

impl Play<Option<OpenFile>, View> for Look {
    ghost then = { Looks };
}

/// The installation: the file that the pass places goes to a slot and replaces the one there.
pub struct Install;

impl Play<Option<OpenFile>, View> for Install {
    ghost then = { Installs };
}

/// The retirement: the takes of a removed file turn its node word into the number of holds. If
/// there are none, the pass gets the file.
pub struct Retire;

impl Play<Option<OpenFile>, View> for Retire {
    ghost then = { Retires };
}

/// The release: one hold less in the node word. If none is left of a retired file, the pass gets
/// the file.
pub struct Release;

impl Play<Option<OpenFile>, View> for Release {
    ghost then = { Releases };
}

/// The return of a number's place, without a file.
pub struct Rest;

impl Play<Option<OpenFile>, View> for Rest {
    ghost then = { Rests };
}

/// The end of a change that installed nothing: the pass reads whether all slots of the range are
/// full.
pub struct Answer;

impl Play<Option<OpenFile>, View> for Answer {
    ghost then = { SaysFull };
}

/// The exchange: the file that the pass places goes to a slot if that is still empty.
pub struct Exchange;

impl Play<Option<OpenFile>, View> for Exchange {
    ghost then = { Exchanges };
}

/// The draw: the pass gets the next chain, if there is one.
pub struct Draw;

impl Play<Option<OpenFile>, View> for Draw {
    ghost then = { DrawsChain };
}

/// The swap that empties a slot for an update.
pub struct Clear;

impl Play<Option<OpenFile>, View> for Clear {
    ghost use Rattle.fx_counted.specs.Words.{Clear};
    ghost use Rattle.fx_counted.specs.Effects.{Removes};

    ghost then = { Removes Clear };
}

/// The swap that empties a slot for a close.
pub struct Take;

impl Play<Option<OpenFile>, View> for Take {
    ghost use Rattle.fx_counted.specs.Words.{Take};
    ghost use Rattle.fx_counted.specs.Effects.{Removes};

    ghost then = { Removes Take };
}

/// The beginning of a change of a slot in the range.
pub struct Begin;

impl Play<Option<OpenFile>, View> for Begin {
    ghost then = { GoesOn Same };
}

/// The end of a change: the pass reports the difference in the number of full slots.
pub struct End;

impl Play<Option<OpenFile>, View> for End {
    ghost then = { GoesOn Outside };
}

/// The load of a slot's word by a pass in a change.
pub struct Load;

impl Play<Option<OpenFile>, View> for Load {
    ghost then = { GoesOn Same };
}

/// A step that changes nothing. It yields that the rule holds in some state with this seat in it.
pub struct Observe;

impl Play<Option<OpenFile>, View> for Observe {
    ghost then = { Observes Agrees (λ v. v.start) };
}

impl SeatView for View {
    type Log = Log;

    type Start = Start;

    ghost seats = { views };

    ghost learns = { HasLearned };
}
