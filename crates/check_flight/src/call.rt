//! The chains that a log calls.
ghost use Rattle.check_flight.specs.Words.{All, IfOk, IfSome, IsTrue, length, IsWithinLimits, all_asked, asked_of, first_of_call, happening_of};
ghost use Rattle.check_flight.specs.Words.{run_at};
ghost use Rattle.std.specs.Prelude.{◌≡◌, ◌+◌, ◌<◌, ◌≤◌, ◌^◌};
ghost use Rattle.check_flight.specs.Judged.{IsFrontOf, runs_of_calls};
ghost use Rattle.check_flight.specs.States.{runs_with};

use crate::judged::ChainCall;
use fx_base::NoMemory;
use fx_chain::{MOST_MEMBERS, Place, Request, check};
use fx_flight::LogEvent;

impl<'a> ChainCall<'a> {
    /// Returns a call of these requests, unless one of them has a fault.
    pub(crate) fn of(requests: &'a [Request]) -> Option<ChainCall<'a>>
        ensures { IfSome result (λ call. call.requests.now ≡ requests.now) }
    {
        if requests.len() > MOST_MEMBERS as usize {
            return None;
        }
        match check(requests) {
            Ok(_) => Some(ChainCall { requests }),
            Err(_) => None,
        }
    }
}

/// Adds the call of an event to those before it. Returns whether its requests have no fault. A look
/// is a call without requests.
pub(crate) fn push_call<'a>(
    calls: &mut Vec<ChainCall<'a>>,
    event: &'a LogEvent,
) -> Result<bool, NoMemory>
    ensures runs { IfOk result (λ yes. IsTrue yes → runs_of_calls calls.new.items
        ≡ runs_with (runs_of_calls calls.old.items) (happening_of event.now)) }
    ensures front { IfOk result (λ yes. IsTrue yes → IsFrontOf calls.old.items calls.new.items) }
{
    let requests = match event {
        LogEvent::Call { id: _, chain } => chain.as_slice(),
        LogEvent::Look { id: _, slot: _ } => &[],
        _ => return Ok(true),
    };
    let Some(call) = ChainCall::of(requests) else {
        return Ok(false);
    };
    calls.push(call)?;
    Ok(true)
}

/// Returns the requests of a call, by its number from 0.
pub(crate) fn members_at<'a>(calls: &[ChainCall<'a>], i: usize) -> &'a [Request]
    requires { i < length calls.now }
    ensures run { all_asked result.now ≡ run_at (runs_of_calls calls.now) (i + 1) }
    ensures limits { All (λ r. IsWithinLimits (asked_of r)) result.now }
    ensures few { length result.now ≤ MOST_MEMBERS }
{
    calls[i].requests
}

/// Returns the place of the first member of a call, by its number from 0.
pub(crate) fn first_place(i: usize) -> Place
    requires { i + 1 < 2 ^ 32 }
    ensures { result ≡ first_of_call (i + 1) }
{
    Place {
        submission: i as u32 + 1,
        chain: 1,
        member: 1,
    }
}
