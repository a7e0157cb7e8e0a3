//! The workers of a submission, each with a pass of the shared table.
ghost use Rattle.std.specs.Prelude.{◌≡◌, ◌<◌, length, map, All};
ghost use Rattle.fx_ring.specs.Playing.{IsDoneFor, IsReadyFor, number_of_worker};

use crate::outcome::Outcome;
use crate::play::Play;
use fx_chain::Gate;
use fx_table::FileTable;
use std::sync::Wait;
use std::thread;
use std::thread::Threads;

/// A pass of a shared table with the outcome of its chains. It must be consumed, as the pass must.
/// The used parts of two neighbors in a list are 64 bytes apart, so that two threads share no cache
/// line.
pub(crate) struct Worker<P> {
    pub(crate) pass: P,
    pub(crate) outcome: Outcome,
    pub(crate) spacing: Spacing,
}

// The padding between a worker and the next one.
#[derive(Drop)]
pub(crate) struct Spacing {
    pub(crate) unused: [u64; 8],
}

// Plays the chains that the worker's pass draws.
fn work<T: FileTable, R: Wait, G: Gate>(play: &Play<'_, T, R, G>, worker: &mut Worker<T::Pass>)
    requires ready { IsReadyFor play.now worker.old }
    ensures done { IsDoneFor play.now worker.new }
    ensures number { number_of_worker T.view worker.new ≡ number_of_worker T.view worker.old }
{
    let submission = play.submission;
    while let Some(chain) = play.table.draw(&mut worker.pass) {
        submission.play_chain(play.table, &mut worker.pass, chain, &mut worker.outcome);
    }
}

// Plays the chains of a submission on its workers, each in a thread of its own if one can be
// started. A single worker starts no thread.
fn work_all<T: FileTable, R: Threads + Wait + Sync, G: Gate>(
    play: &Play<'_, T, R, G>,
    workers: &mut [Worker<T::Pass>],
)
    requires some { 0 < length workers.old }
    requires ready { All (IsReadyFor play.now) workers.old }
    ensures done { All (IsDoneFor play.now) workers.new }
    ensures numbers { map (number_of_worker T.view) workers.new
        ≡ map (number_of_worker T.view) workers.old }
{
    let threads = workers.len();
    thread::for_each_mut(
        play.submission.rt,
        workers,
        threads,
        &|_, worker: &mut Worker<T::Pass>|
            requires ready { IsReadyFor play.now worker.old }
            ensures done { IsDoneFor play.entry.now worker.new }
            ensures number { number_of_worker T.view worker.new
                ≡ number_of_worker T.view worker.old }
        { work(play, worker) },
    );
}

/// Plays the chains of a submission on its crew.
pub(crate) fn work_crew<T: FileTable, R: Threads + Wait + Sync, G: Gate>(
    play: &Play<'_, T, R, G>,
    crew: &mut Vec<Worker<T::Pass>>,
)
    requires some { 0 < length crew.old.items }
    requires ready { All (IsReadyFor play.now) crew.old.items }
    ensures done { All (IsDoneFor play.now) crew.new.items }
    ensures numbers { map (number_of_worker T.view) crew.new.items
        ≡ map (number_of_worker T.view) crew.old.items }
{
    work_all(play, crew.as_mut_slice());
}
