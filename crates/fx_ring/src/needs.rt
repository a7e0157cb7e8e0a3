//! The needs of a submission's chains: a file number for each file that they install.
ghost use Rattle.std.specs.Prelude.{◌≡◌, ◌≤◌, ℕ};
ghost use Rattle.fx_table.specs.declared.limits.TheConstants.{CHAIN_NUMBERS};
ghost use Rattle.fx_chain.specs.Operation.{all_asked};
ghost use Rattle.fx_chain.specs.Weights.{all_installs};
ghost use Rattle.fx_ring.specs.Work.{InstallAtMost};

use crate::play::Submission;
use fx_chain::Request;

// Returns the number of files that the members of a chain install.
fn installs_of_chain(members: &[Request]) -> u32
    requires { all_installs (all_asked members.now) ≤ CHAIN_NUMBERS }
    ensures { result ≡ all_installs (all_asked members.now) }
{
    let mut installs = 0;
    for member in members {
        installs += member.installs() as u32;
    }
    installs
}

impl<R, G> Submission<'_, R, G> {
    /// Returns the greatest number of files that a chain installs.
    #[tactic(auto, using(crate::proofs::CompletionPlaces::inside_requests))]
    pub(crate) fn most_installs(&self) -> u32
        ensures few { result ≤ CHAIN_NUMBERS }
        ensures each { InstallAtMost (all_asked self.now.requests.now) result }
        ensures least { (most : ℕ) → InstallAtMost (all_asked self.now.requests.now) most
            → result ≤ most }
    {
        let mut most = 0;
        for chain in self.chains {
            most = most.max(installs_of_chain(chain.members(self.requests)));
        }
        most
    }
}
