//! The refutation of a beginning of a log: all states that flights reach, event by event, until
//! none is left.
ghost use Rattle.check_flight.specs.Words.{IfOk, IfSome, length, take, Slots};
ghost use Rattle.std.specs.Prelude.{◌≡◌, ◌≤◌};
ghost use Rattle.check_flight.specs.Judged.{catalogue_in, log_in, HaveNoFlight, IsReachedFrom, IsTableOf};

use crate::judged::JudgedLog;
use crate::reached::ReachedStates;
use fx_base::NoMemory;
use fx_order::OrderSetting;

/// Returns the first `count` events of a log.
pub(crate) fn beginning_of<'a>(log: &JudgedLog<'a>, count: usize) -> JudgedLog<'a>
    requires { count ≤ length log.now.events.now }
    ensures events { log_in result ≡ take count (log_in log.now) }
    ensures catalogue { catalogue_in result ≡ catalogue_in log.now }
    ensures size { result.setting.size ≡ log.now.setting.size }
    ensures whole { result.whole ≡ log.now.whole }
{
    JudgedLog {
        setting: OrderSetting {
            alloc: log.setting.alloc,
            catalogue: log.setting.catalogue,
            size: log.setting.size,
        },
        events: &log.events[..count],
        whole: log.whole,
        positions: log.positions,
        moves: log.moves,
    }
}

/// Attempts to refute the first `count` events of a log, from states that their flights reach, with
/// at most `most` states at each event. Returns the number of events before the first one after
/// which no state is left, which is a hint, or `None` if they aren't refuted.
pub(crate) fn refute<'a>(
    log: &JudgedLog<'a>,
    from: ReachedStates<'a>,
    count: usize,
    most: usize,
) -> Result<Option<usize>, NoMemory>
    requires { count ≤ length log.now.events.now }
    ensures { IfOk result (λ at. IfSome at (λ _. (slots : Slots) → IsTableOf log.now slots
        → IsReachedFrom log.now slots (take count (log_in log.now)) from.entry
        → HaveNoFlight log.now slots count)) }
{
    let beginning = beginning_of(log, count);
    let Some(end) = from.go_on(&beginning, most)? else {
        return Ok(None);
    };
    if end.front.states.is_empty() {
        Ok(Some(end.last))
    } else {
        Ok(None)
    }
}
