//! The numbers of the machine's answers.
ghost use Rattle.std.specs.Prelude.{◌≡◌};
ghost use Rattle.fx_direct_c.specs.Answers.{close_code, close_slot, code_of_refusal, code_of_adopt, code_of_reserve, member_numbered, name_numbered};
ghost use Rattle.fx_direct_c.specs.Answers.{phase_code};

use crate::codes::{
    BAD_ARGUMENT, CHAINED, CLOSE, CLOSE_OF_CHAIN, CLOSING, DONE, ENDING, FULL, IS_CHAINED,
    IS_CLOSING, IS_ENDING, IS_LIVE, IS_OPENING, LIVE, NOT_FREE, OPEN_OF_CHAIN, OPENING,
    REQUEST_OF_CHAIN, STALE, STOPPED, TOO_MANY_REQUESTS, TOO_MANY_USERS,
};
use fx_direct::{AdoptRefusal, LifeRefusal, Member, Phase, PhaseName, ReserveRefusal};

// Returns the number of a refusal.
#[inline(always)]
pub(crate) fn of_refusal(why: LifeRefusal) -> i32
    ensures { result ≡ code_of_refusal why }
{
    match why {
        LifeRefusal::Stale | LifeRefusal::Is(Phase::Free) => STALE,
        LifeRefusal::Is(Phase::Opening) => IS_OPENING,
        LifeRefusal::Is(Phase::Live(_, _)) => IS_LIVE,
        LifeRefusal::Is(Phase::Ending(_, _)) => IS_ENDING,
        LifeRefusal::Is(Phase::Closing) => IS_CLOSING,
        LifeRefusal::Is(Phase::Chained(_)) => IS_CHAINED,
        LifeRefusal::TooManyRequests => TOO_MANY_REQUESTS,
        LifeRefusal::TooManyUsers => TOO_MANY_USERS,
    }
}

// Returns the number of the reason why a file isn't adopted.
pub(crate) fn of_adopt(why: AdoptRefusal) -> i32
    ensures { result ≡ code_of_adopt why }
{
    match why {
        AdoptRefusal::OutOfRange => BAD_ARGUMENT,
        AdoptRefusal::NotFree => NOT_FREE,
        AdoptRefusal::NoMoreLives => FULL,
    }
}

// Returns the number of the reason why no life begins.
#[inline(always)]
pub(crate) fn of_reserve(why: ReserveRefusal) -> i32
    ensures { result ≡ code_of_reserve why }
{
    match why {
        ReserveRefusal::Full => FULL,
        ReserveRefusal::Stopped => STOPPED,
    }
}

// Returns the number of the answer of a call that may ask for a close, and writes its slot.
#[inline(always)]
pub(crate) fn of_close(answer: Result<Option<u32>, LifeRefusal>, slot: &mut u32) -> i32
    ensures code { result ≡ close_code answer }
    ensures slot { slot.new ≡ close_slot answer slot.old }
{
    match answer {
        Ok(None) => DONE,
        Ok(Some(it)) => {
            *slot = it;
            CLOSE
        }
        Err(why) => of_refusal(why),
    }
}

// Returns the number of a phase.
pub(crate) fn of_phase(phase: Phase) -> i32
    ensures { result ≡ phase_code phase }
{
    match phase {
        Phase::Free => STALE,
        Phase::Opening => OPENING,
        Phase::Live(_, _) => LIVE,
        Phase::Ending(_, _) => ENDING,
        Phase::Closing => CLOSING,
        Phase::Chained(_) => CHAINED,
    }
}

// Returns the name of the phase that has this number.
pub(crate) fn name_of(number: i32) -> Option<PhaseName>
    ensures { result ≡ name_numbered number }
{
    match number {
        OPENING => Some(PhaseName::Opening),
        LIVE => Some(PhaseName::Live),
        ENDING => Some(PhaseName::Ending),
        CLOSING => Some(PhaseName::Closing),
        CHAINED => Some(PhaseName::Chained),
        _ => None,
    }
}

// Returns the member of a chain that has this number.
#[inline(always)]
pub(crate) fn member_of(number: u32) -> Option<Member>
    ensures { result ≡ member_numbered number }
{
    match number {
        OPEN_OF_CHAIN => Some(Member::Open),
        REQUEST_OF_CHAIN => Some(Member::Request),
        CLOSE_OF_CHAIN => Some(Member::Close),
        _ => None,
    }
}
