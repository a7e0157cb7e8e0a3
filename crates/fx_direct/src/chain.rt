//! Chains: an open, requests and perhaps a close that are submitted together by links.
//!
//! Their completions come in any order, and each of them comes once. Until the last one the slot
//! is taken: a hard link's close runs although the open failed.
ghost use Rattle.std.specs.Prelude.{◌≡◌, ◌≢◌, ◌≤◌, ◌+◌, ◌^◌};
ghost use Rattle.fx_direct.specs.Words.{Decides, MatchOption, true, false, LifeKey};
ghost use Rattle.fx_direct.specs.Phases.{Chained, calls_of_chain, chain_of, phase_of_chain};
ghost use Rattle.fx_direct.specs.Transitions.{FitsPhase, IsUsual, KeepsChain, completion, phase_after, when_closed, when_left, when_opened};
ghost use Rattle.fx_direct.specs.declared.chain.Member.TheVariants.{Close};

use crate::phase::Phase;

/// A member of a chain.
#[derive(Clone, Copy, Debug, PartialEq, Eq)]
pub enum Member {
    /// The open.
    Open,
    /// A request on the file.
    Request,
    /// The close.
    Close,
}

/// The completion of a chain's open.
#[derive(Clone, Copy, Debug, PartialEq, Eq)]
pub enum ChainOpen {
    /// It wasn't reported yet.
    Unseen,
    /// The open installed its file.
    Installed,
    /// The open failed.
    Failed,
}

/// The end of a chain: its close, if it has one, or that of its life.
#[derive(Clone, Copy, Debug, PartialEq, Eq)]
pub enum ChainEnd {
    /// The chain has no close, and its life goes on after it.
    Later,
    /// The chain has no close, and its life was ended.
    Due,
    /// The completion of the chain's close wasn't reported yet.
    Awaited,
    /// The chain's close took the file.
    Took,
    /// The chain's close left the file at the slot.
    Left,
}

/// A chain in flight.
#[derive(Clone, Copy, Debug, PartialEq, Eq)]
pub struct LifeChain {
    /// The number of requests whose completions weren't reported.
    pub requests: u32,
    /// The completion of the chain's open.
    pub opened: ChainOpen,
    /// The end of the chain.
    pub end: ChainEnd,
}

impl LifeChain {
    // Creates a chain of which no completion was reported.
    #[inline(always)]
    pub(crate) fn of(requests: u32, closes: bool) -> LifeChain
        ensures { result ≡ chain_of requests closes }
    {
        LifeChain {
            requests,
            opened: ChainOpen::Unseen,
            end: if closes {
                ChainEnd::Awaited
            } else {
                ChainEnd::Later
            },
        }
    }

    // Returns the number of calls of the chain in flight.
    #[inline(always)]
    pub(crate) fn calls(self) -> u64
        ensures calls { result ≡ calls_of_chain self }
        ensures few { result ≤ 2 ^ 32 + 1 }
    {
        let requests = u64::from(self.requests);
        match (self.opened, self.end) {
            (ChainOpen::Unseen, ChainEnd::Awaited) => requests + 2,
            (ChainOpen::Unseen, _) | (_, ChainEnd::Awaited) => requests + 1,
            _ => requests,
        }
    }

    // Returns the phase of a slot with this chain. A chain whose completions were all reported is
    // over, and one without a close is a life like others once its open installed a file.
    #[inline(always)]
    pub(crate) fn phase(self) -> Phase
        ensures { result ≡ phase_of_chain self }
    {
        match (self.opened, self.end) {
            (ChainOpen::Unseen, _) | (_, ChainEnd::Awaited) => Phase::Chained(self),
            (ChainOpen::Installed, ChainEnd::Later) => Phase::Live(self.requests, 0),
            (ChainOpen::Installed, ChainEnd::Due) => Phase::Ending(self.requests, 0),
            _ if self.requests > 0 => Phase::Chained(self),
            (ChainOpen::Installed, ChainEnd::Left) => Phase::Ending(0, 0),
            _ => Phase::Free,
        }
    }

    // Returns the phase after the completion of a member, or `None` if the member has no completion
    // to come, or if the completion contradicts an earlier one: a close takes no file of an open
    // that failed.
    #[inline(always)]
    pub(crate) fn after(self, member: Member, succeeded: bool) -> Option<Phase>
        ensures { (key : LifeKey) → MatchOption result
            (FitsPhase (completion key member succeeded) (Chained self) → ⊥)
            (λ phase. FitsPhase (completion key member succeeded) (Chained self)
            × (phase ≡ phase_after (completion key member succeeded) (Chained self))) }
    {
        match (member, succeeded, self.opened, self.end) {
            (Member::Open, false, ChainOpen::Unseen, ChainEnd::Took) => None,
            (Member::Open, _, ChainOpen::Unseen, _) => Some(self.after_open(succeeded)),
            (Member::Request, _, _, _) if self.requests > 0 => {
                let next = LifeChain {
                    requests: self.requests - 1,
                    ..self
                };
                Some(next.phase())
            }
            (Member::Close, true, ChainOpen::Failed, ChainEnd::Awaited) => None,
            (Member::Close, _, _, ChainEnd::Awaited) => Some(self.after_close(succeeded)),
            _ => None,
        }
    }

    // Takes the success of the open or of a request, if the chain's close is to come. The chain
    // goes on then.
    #[inline(always)]
    pub(crate) fn advance(&mut self, member: Member) -> bool
        ensures went { result ≡ true → (key : LifeKey) → KeepsChain key member self.old self.new }
        ensures stayed { result ≡ false → self.new ≡ self.old }
        ensures usual { member ≢ Close → Decides result (IsUsual member (Chained self.old)) }
    {
        if self.end != ChainEnd::Awaited {
            return false;
        }
        match member {
            Member::Open if self.opened == ChainOpen::Unseen => {
                self.opened = ChainOpen::Installed;
                true
            }
            Member::Request if self.requests > 0 => {
                self.requests -= 1;
                true
            }
            _ => false,
        }
    }

    // Returns the phase after the open, by whether it installed a file.
    #[inline(always)]
    fn after_open(self, installed: bool) -> Phase
        ensures { result ≡ when_opened installed (Chained self) }
    {
        let opened = if installed {
            ChainOpen::Installed
        } else {
            ChainOpen::Failed
        };
        LifeChain { opened, ..self }.phase()
    }

    // Returns the phase after the close, by whether it took the file.
    #[inline(always)]
    fn after_close(self, took: bool) -> Phase
        ensures took { took ≡ true → result ≡ when_closed (Chained self) }
        ensures left { took ≡ false → result ≡ when_left (Chained self) }
    {
        let end = if took { ChainEnd::Took } else { ChainEnd::Left };
        LifeChain { end, ..self }.phase()
    }
}
