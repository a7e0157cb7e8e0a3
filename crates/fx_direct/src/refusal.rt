//! The reasons why a call is refused. A call that is refused changes nothing.
use crate::phase::Phase;
use std::error::Error;
use std::fmt;

/// The reason why a call under a key is refused.
#[derive(Clone, Copy, Debug, PartialEq, Eq)]
pub enum LifeRefusal {
    /// No life is under way under the key: its life is over, or no life had it.
    Stale,
    /// The key's life is in this phase, which doesn't allow the call.
    Is(Phase),
    /// 2^32 - 1 requests are in flight under the key.
    TooManyRequests,
    /// The key's file has 2^32 - 1 users that are not requests.
    TooManyUsers,
}

impl fmt::Display for LifeRefusal {
    fn fmt<W: fmt::Write>(&self, f: &mut fmt::Formatter<W>) -> fmt::Result {
        match self {
            LifeRefusal::Stale => f.write_str("no life is under way under the key"),
            LifeRefusal::Is(phase) => write!(f, "the life of the key is {phase}"),
            LifeRefusal::TooManyRequests => f.write_str("too many requests are in flight"),
            LifeRefusal::TooManyUsers => f.write_str("the file has too many users"),
        }
    }
}

impl Error for LifeRefusal {}

/// The reason why a file isn't adopted.
#[derive(Clone, Copy, Debug, PartialEq, Eq)]
pub enum AdoptRefusal {
    /// The slot isn't one of the machine's in the ring's allocation range.
    OutOfRange,
    /// A life at the slot has a file there.
    NotFree,
    /// The slot has had its last life.
    NoMoreLives,
}

impl fmt::Display for AdoptRefusal {
    fn fmt<W: fmt::Write>(&self, f: &mut fmt::Formatter<W>) -> fmt::Result {
        f.write_str(match self {
            AdoptRefusal::OutOfRange => "the slot is not in the allocation range",
            AdoptRefusal::NotFree => "the slot has a life with a file",
            AdoptRefusal::NoMoreLives => "the slot has had its last life",
        })
    }
}

impl Error for AdoptRefusal {}

/// The reason why no slot begins a life.
#[derive(Clone, Copy, Debug, PartialEq, Eq)]
pub enum ReserveRefusal {
    /// Each slot has a life under way, or has had its last one.
    Full,
    /// The machine was stopped.
    Stopped,
}

impl fmt::Display for ReserveRefusal {
    fn fmt<W: fmt::Write>(&self, f: &mut fmt::Formatter<W>) -> fmt::Result {
        f.write_str(match self {
            ReserveRefusal::Full => "no slot is free",
            ReserveRefusal::Stopped => "the machine was stopped",
        })
    }
}

impl Error for ReserveRefusal {}
