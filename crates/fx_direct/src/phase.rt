//! The phases of a slot's life.
ghost use Rattle.std.specs.Prelude.{◌≡◌, ◌≤◌, ◌+◌, ◌^◌, ◌&&◌};
ghost use Rattle.fx_direct.specs.Living.{phase_name};
ghost use Rattle.fx_direct.specs.Phases.{calls_in, is_adoptable, is_live, lives_in, requests_in, users_in};
ghost use Rattle.fx_direct.specs.Transitions.{unless_live};

use crate::chain::LifeChain;
use std::fmt;

/// The phase of a slot. The counts are those of the requests in flight, and of the other users.
#[derive(Clone, Copy, Debug, PartialEq, Eq)]
pub enum Phase {
    /// The kernel's slot is empty, and no call is in flight for it.
    Free,
    /// An open at the slot is in flight.
    Opening,
    /// The slot has its file.
    Live(u32, u32),
    /// The slot has its file, which gets no new requests and users.
    Ending(u32, u32),
    /// A close of the slot is in flight.
    Closing,
    /// A chain that opens the slot's file is in flight.
    Chained(LifeChain),
}

/// The name of a phase of a life.
#[derive(Clone, Copy, Debug, PartialEq, Eq)]
pub enum PhaseName {
    /// The name of `Phase::Opening`.
    Opening,
    /// The name of `Phase::Live`.
    Live,
    /// The name of `Phase::Ending`.
    Ending,
    /// The name of `Phase::Closing`.
    Closing,
    /// The name of `Phase::Chained`.
    Chained,
}

impl Phase {
    // Returns the number of calls in flight at a slot in this phase.
    #[inline(always)]
    pub(crate) fn calls(self) -> u64
        ensures calls { result ≡ calls_in self }
        ensures few { result ≤ 2 ^ 32 + 1 }
    {
        match self {
            Phase::Free => 0,
            Phase::Opening | Phase::Closing => 1,
            Phase::Live(requests, _) | Phase::Ending(requests, _) => u64::from(requests),
            Phase::Chained(chain) => chain.calls(),
        }
    }

    /// Returns the number of requests in flight.
    #[inline(always)]
    pub fn requests(self) -> u32
        ensures { result ≡ requests_in self }
    {
        match self {
            Phase::Live(requests, _) | Phase::Ending(requests, _) => requests,
            Phase::Chained(chain) => chain.requests,
            _ => 0,
        }
    }

    /// Returns the number of users that are not requests.
    #[inline(always)]
    pub fn users(self) -> u32
        ensures { result ≡ users_in self }
    {
        match self {
            Phase::Live(_, users) | Phase::Ending(_, users) => users,
            _ => 0,
        }
    }

    /// Returns the name of the phase of a life, or `None` of `Free`.
    #[inline(always)]
    pub fn name(self) -> Option<PhaseName>
        ensures { result ≡ phase_name self }
    {
        match self {
            Phase::Free => None,
            Phase::Opening => Some(PhaseName::Opening),
            Phase::Live(_, _) => Some(PhaseName::Live),
            Phase::Ending(_, _) => Some(PhaseName::Ending),
            Phase::Closing => Some(PhaseName::Closing),
            Phase::Chained(_) => Some(PhaseName::Chained),
        }
    }

    // Returns the phase that is written in place of this one, in which a life begins: after a stop
    // it is ended at once.
    #[inline(always)]
    pub(crate) fn unless_stopped(self, stopped: bool) -> Phase
        ensures { result ≡ unless_live (is_live self && stopped) self }
    {
        match self {
            Phase::Live(requests, users) if stopped => Phase::Ending(requests, users),
            phase => phase,
        }
    }

    // Checks whether the kernel may have put a file at a slot in this phase.
    #[inline(always)]
    pub(crate) fn may_be_adopted(self) -> bool
        ensures { result ≡ is_adoptable self }
    {
        matches!(self, Phase::Free | Phase::Closing)
    }

    // Returns 1 if a life is under way in this phase, or 0.
    #[inline(always)]
    pub(crate) fn lives(self) -> u32
        ensures { result ≡ lives_in self }
    {
        match self {
            Phase::Free => 0,
            _ => 1,
        }
    }
}

impl fmt::Display for Phase {
    fn fmt<W: fmt::Write>(&self, f: &mut fmt::Formatter<W>) -> fmt::Result {
        f.write_str(match self {
            Phase::Free => "free",
            Phase::Opening => "opening",
            Phase::Live(_, _) => "live",
            Phase::Ending(_, _) => "ending",
            Phase::Closing => "closing",
            Phase::Chained(_) => "chained",
        })
    }
}

/// A slot: the number of its last life, from 1, or 0 before its first one, and its phase.
#[derive(Clone, Copy, Debug, PartialEq, Eq)]
pub struct Slot {
    /// The number of the slot's last life.
    pub number: u64,
    /// The phase of that life.
    pub phase: Phase,
}
