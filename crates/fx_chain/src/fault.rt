//! The limits of a submission, and the first request that exceeds one.
ghost use Rattle.std.specs.Prelude.{◌≡◌, ◌+◌, ◌*◌, ◌<◌, ◌≤◌, length, IfSome, IfNone, IfOk};
ghost use Rattle.std.specs.Prelude.{IfErr, Ok, Err, if◌then◌else◌, ◌==◌};
ghost use Rattle.fx_chain.specs.Accepted.{IsAccepted};
ghost use Rattle.fx_chain.specs.Faults.{fault_after, fault_of};
ghost use Rattle.fx_chain.specs.Intents.{installs_of};
ghost use Rattle.fx_chain.specs.Operation.{all_asked, asked_of, is_link};
ghost use Rattle.fx_chain.specs.Runs.{runs_of};

use crate::request::Request;
use fx_table::{CHAIN_NUMBERS, MAX_CHAINS};

/// The greatest number of members of a chain. A chain may install as many files as it has numbers,
/// [`fx_table::CHAIN_NUMBERS`].
pub const MOST_MEMBERS: u32 = 16;

/// The reason why a submission is refused. The faults of one request are checked in the order of
/// the variants (this project's own).
#[derive(Clone, Copy, Debug, PartialEq, Eq)]
pub enum CutKind {
    /// A read has no FIXED_FILE, or another kind of request has it.
    BadFlags,
    /// A read asks for more than 4,096 bytes.
    LongRead,
    /// An update has more than 16 entries.
    LongUpdate,
    /// The request is the 17th member of its chain.
    ChainTooLong,
    /// With this request, its chain installs more than 64 files.
    TooManyFiles,
    /// The request is the first member of the 1,024th chain.
    TooManyChains,
}

/// The first request of a submission that has a fault.
#[derive(Clone, Copy, Debug, PartialEq, Eq)]
pub struct CutFault {
    /// The request's number in the submission, from 1.
    pub at: u32,
    /// Its first fault.
    pub kind: CutKind,
}

// The number of chains that have begun, and the members and installations of the chain that the
// next request continues.
#[derive(Clone, Copy, Debug)]
struct Count {
    chains: u32,
    members: u32,
    installs: u32,
}

/// Checks a submission against the limits, and returns the number of its chains, from 0 to 1,023. A
/// request with IO_LINK or IO_HARDLINK is in one chain with the next request (io_uring_enter(2),
/// "IOSQE_IO_LINK", "IOSQE_IO_HARDLINK").
///
/// # Errors
/// Returns the first request with a fault, and its first fault in the order of [`CutKind`]. The
/// number of that request is at most 16,369, however long the submission is.
pub fn check(requests: &[Request]) -> Result<u32, CutFault>
    ensures fault { IfSome (fault_of (all_asked requests.now)) (λ fault. result ≡ Err fault) }
    ensures chains { IfNone (fault_of (all_asked requests.now))
        (result ≡ Ok (length (runs_of (all_asked requests.now)))) }
    ensures accepted { IfOk result (λ chains. IsAccepted (all_asked requests.now)) }
    ensures few { IfOk result (λ chains. chains ≤ MAX_CHAINS) }
    ensures place { IfErr result (λ fault. (0 < fault.at) × (fault.at ≤ length requests.now)) }
    ensures early { IfErr result (λ fault. fault.at ≤ MAX_CHAINS * MOST_MEMBERS + 1) }
{
    let mut count = Count {
        chains: 0,
        members: 0,
        installs: 0,
    };
    for (i, request) in requests.iter().enumerate() {
        if let Some(kind) = count.fault(request) {
            return Err(CutFault {
                at: i as u32 + 1,
                kind,
            });
        }
        count.add(request);
    }
    Ok(count.chains)
}

impl Count {
    // Returns the first fault of the next request.
    fn fault(&self, request: &Request) -> Option<CutKind>
        requires { self.now.installs ≤ CHAIN_NUMBERS }
        ensures { result ≡ fault_after self.now.chains self.now.members self.now.installs
            (asked_of request.now) }
    {
        if request.has_bad_flags() {
            return Some(CutKind::BadFlags);
        }
        if request.is_long_read() {
            return Some(CutKind::LongRead);
        }
        if request.is_long_update() {
            return Some(CutKind::LongUpdate);
        }
        if self.members == MOST_MEMBERS {
            return Some(CutKind::ChainTooLong);
        }
        if request.installs() > (CHAIN_NUMBERS - self.installs) as usize {
            return Some(CutKind::TooManyFiles);
        }
        if self.members == 0 && self.chains == MAX_CHAINS {
            return Some(CutKind::TooManyChains);
        }
        None
    }

    // Counts the next request.
    fn add(&mut self, request: &Request)
        requires chains { self.old.chains ≤ MAX_CHAINS }
        requires members { self.old.members ≤ MOST_MEMBERS }
        requires installs { self.old.installs + installs_of (asked_of request.now).operation
            ≤ CHAIN_NUMBERS }
        ensures chains { self.new.chains ≡ if self.old.members == 0
            then self.old.chains + 1 else self.old.chains }
        ensures members { self.new.members ≡ if is_link request.now.flags
            then self.old.members + 1 else 0 }
        ensures installs { self.new.installs ≡ if is_link request.now.flags
            then self.old.installs + installs_of (asked_of request.now).operation else 0 }
    {
        if self.members == 0 {
            self.chains += 1;
        }
        if request.links() {
            self.members += 1;
            self.installs += request.installs() as u32;
        } else {
            self.members = 0;
            self.installs = 0;
        }
    }
}
