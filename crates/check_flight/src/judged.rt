//! The log that is judged, and the chains that it calls.
ghost use Rattle.check_flight.specs.Words.{All, length, IsCatalogue, IsWithinLimits, asked_of};
ghost use Rattle.std.specs.Prelude.{◌<◌, ◌≤◌, ◌^◌};
ghost use Rattle.fx_chain.specs.declared.fault.TheConstants.{MOST_MEMBERS};

use crate::limits::MovesLeft;
use crate::positions::LogPositions;
use fx_chain::Request;
use fx_flight::LogEvent;
use fx_order::OrderSetting;

/// A log that is judged.
#[derive(Drop)]
pub(crate) struct JudgedLog<'a> {
    /// The catalogue, and the number of slots of the table.
    pub(crate) setting: OrderSetting<'a>,
    /// The events.
    pub(crate) events: &'a [LogEvent],
    /// Set if each update must be one step.
    pub(crate) whole: bool,
    /// The positions of answers, closes and holds among the events. Each is a hint.
    pub(crate) positions: &'a LogPositions,
    /// The moves that searches of it may still make.
    pub(crate) moves: &'a MovesLeft,
    pub ghost catalogued: { IsCatalogue setting.catalogue.now },
    pub ghost few_slots: { setting.size < 2 ^ 31 },
}

/// A chain that was called, or a look, which has no request.
#[derive(Clone, Copy)]
pub(crate) struct ChainCall<'a> {
    /// Its requests.
    pub(crate) requests: &'a [Request],
    pub ghost limits: { All (λ r. IsWithinLimits (asked_of r)) requests.now },
    pub ghost few: { length requests.now ≤ MOST_MEMBERS },
}
