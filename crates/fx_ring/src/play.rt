//! The values that stay the same while a submission is played, and the play of one chain.
ghost use Rattle.std.specs.Prelude.{◌≡◌, ◌+◌, ◌<◌, ◌≤◌, length, vec_capacity};
ghost use Rattle.fx_table.specs.Pass.{IsIdle};
ghost use Rattle.fx_chain.specs.Completed.{all_completed};
ghost use Rattle.fx_chain.specs.Operation.{all_asked};
ghost use Rattle.fx_chain.specs.Performs.{PlaysChain, player};
ghost use Rattle.fx_chain.specs.Runs.{runs_of};
ghost use Rattle.fx_ring.specs.Work.{AreCutInto, InstallAtMost, IsEnoughFor, run_of_chain};
ghost use Rattle.fx_ring.specs.Work.{worker_state};
ghost use Rattle.fx_ring.specs.declared.ring.TheConstants.{MOST_SUBMISSIONS};

use crate::outcome::Outcome;
use crate::ring::MOST_SUBMISSIONS;
use fx_base::Catalogue;
use fx_chain::{Chain, Gate, Request, run_chain};
use fx_table::FileTable;
use std::alloc::Global;
use std::sync::Wait;

/// A submission that was accepted and cut into its chains, with the values that playing it needs.
#[derive(Drop)]
pub(crate) struct Submission<'a, R, G> {
    pub(crate) rt: &'a R,
    pub(crate) alloc: Global,
    pub(crate) catalogue: &'a Catalogue,
    // The number of submissions that the ring accepted before, one less than the number of this
    // one.
    pub(crate) earlier: u32,
    pub(crate) requests: &'a [Request],
    pub(crate) chains: &'a [Chain],
    pub(crate) gate: &'a G,
    pub ghost few: { earlier < MOST_SUBMISSIONS },
    pub ghost cut: { AreCutInto (all_asked requests.now) chains.now },
}

/// A submission and a table that was opened for its chains, with a number for each file that a
/// chain installs: the values that all its workers share.
#[derive(Drop)]
pub(crate) struct Play<'a, T: FileTable, R, G> {
    pub(crate) submission: &'a Submission<'a, R, G>,
    pub(crate) table: &'a T,
    pub ghost count: { (T.opening table.now).chains ≡ length submission.now.chains.now },
    pub ghost numbers: { InstallAtMost (all_asked submission.now.requests.now)
        (T.opening table.now).numbers },
}

impl<'a, R: Wait, G: Gate> Submission<'a, R, G> {
    /// Plays chain number `chain`, counted from 1, by a pass that drew it, and adds its completions
    /// and closes to an outcome.
    #[tactic(auto, using(crate::proofs::CompletionPlaces::inside_requests))]
    pub(crate) fn play_chain<T: FileTable>(
        &self,
        table: &T,
        pass: &mut T::Pass,
        chain: u32,
        outcome: &mut Outcome,
    )
        requires some { (1 ≤ chain) × (chain ≤ length self.now.chains.now) }
        requires fits { T.fits table.now pass.old }
        requires idle { IsIdle (T.view pass.old) }
        requires numbers { InstallAtMost (all_asked self.now.requests.now)
            (T.view pass.old).numbers_left }
        requires enough { IsEnoughFor (run_of_chain (runs_of (all_asked self.now.requests.now)) chain)
            (worker_state (T.view pass.old) (all_completed outcome.old.completions.items)
            outcome.old.closes)
            (vec_capacity outcome.old.completions) }
        ensures fits { T.fits table.now pass.new }
        ensures played { PlaysChain (T.opening table.now) self.now.catalogue.now
            (self.now.earlier + 1) chain
            (run_of_chain (runs_of (all_asked self.now.requests.now)) chain)
            (player (T.view pass.old) outcome.old.closes)
            (all_completed outcome.old.completions.items)
            (player (T.view pass.new) outcome.new.closes)
            (all_completed outcome.new.completions.items) }
        ensures capacity { vec_capacity outcome.old.completions
            ≤ vec_capacity outcome.new.completions }
    {
        run_chain(
            self.rt,
            self.alloc,
            table,
            pass,
            self.catalogue,
            self.earlier + 1,
            chain,
            self.chains[chain as usize - 1].members(self.requests),
            self.gate,
            &mut outcome.completions,
            &mut outcome.closes,
        );
    }
}
