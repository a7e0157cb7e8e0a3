//! Submissions, played by several workers on a table that is opened for each of them.
ghost use Rattle.std.specs.Prelude.{◌≡◌, ◌<◌, ◌≤◌, ◌+◌, length, All, map, IfOk, IfErr, OnErr};
ghost use Rattle.fx_plain.specs.State.{IsSettled};
ghost use Rattle.fx_plain.specs.Contents.{state_of};
ghost use Rattle.fx_table.specs.Opening.{IsGivenBack};
ghost use Rattle.fx_table.specs.Pass.{IsIdle, new_passes};
ghost use Rattle.fx_table.specs.declared.limits.TheConstants.{MAX_PASSES};
ghost use Rattle.fx_chain.specs.Operation.{all_asked};
ghost use Rattle.fx_ring.specs.Calls.{FailsOnlyAs, refusal_after, submit_refusal};
ghost use Rattle.fx_ring.specs.Outcomes.{HasRoomForCrew};
ghost use Rattle.fx_ring.specs.Ring.{AreEntries, ring_of};
ghost use Rattle.fx_ring.specs.Playing.{IsPlayOf};
ghost use Rattle.fx_ring.specs.Work.{AreCutInto, InstallAtMost};
ghost use Rattle.fx_ring.specs.Submission.{IsOneHistory, reported};
ghost use Rattle.fx_ring.specs.declared.report.SubmitFault.TheVariants.{NoMemory as Refused};

use crate::crew::{Room, gather, scatter};
use crate::play::{Play, Submission};
use crate::report::{Report, SubmitFault};
use crate::ring::{MOST_SUBMISSIONS, Ring};
use crate::worker::work_crew;
use fx_base::NoMemory;
use fx_chain::{Chain, Gate, Request, check, cut};
use fx_plain::PlainTable;
use fx_table::{FileTable, MAX_PASSES};
use std::alloc::Global;
use std::mem;
use std::sync::Wait;
use std::thread::Threads;

// Plays the chains of a submission on a table that was opened for them.
fn play_open<'a, T: FileTable, R: Threads + Wait + Sync, G: Gate>(
    submission: &'a Submission<'a, R, G>,
    table: T,
    mut passes: Vec<T::Pass>,
    room: Room<T::Pass>,
) -> (PlainTable, Report)
    requires chains { (T.opening table).chains ≡ length submission.now.chains.now }
    requires numbers { InstallAtMost (all_asked submission.now.requests.now)
        (T.opening table).numbers }
    requires some { 1 ≤ (T.opening table).passes }
    requires ready { All (λ p. T.fits table p × IsIdle (T.view p)) passes.items }
    requires new { map (λ p. T.view p) passes.items ≡ new_passes (T.opening table).passes }
    requires room { HasRoomForCrew (all_asked submission.now.requests.now)
        (T.opening table).passes room }
    ensures settled { IsSettled (state_of result.0) }
    ensures played { IsPlayOf submission.now (T.opening table).contents result.1 result.0 }
{
    let Room {
        mut crew,
        mut outcomes,
        all,
    } = room;
    gather(&mut passes, &mut outcomes, &mut crew);
    work_crew(
        &Play {
            submission: &*submission,
            table: &table,
        },
        &mut crew,
    );
    scatter(&mut crew, &mut passes, &mut outcomes);
    crew.destroy_empty();
    let left = table.close(passes);
    let mut all = all.joined(outcomes);
    all.sort();
    (left, all.report(submission.earlier + 1))
}

// Plays a submission on a table.
fn play<T: FileTable, R: Threads + Wait + Sync, G: Gate>(
    submission: &Submission<'_, R, G>,
    plain: PlainTable,
    workers: u32,
) -> Result<(PlainTable, Report), (PlainTable, NoMemory)>
    requires settled { IsSettled (state_of plain) }
    requires workers { (1 ≤ workers) × (workers ≤ MAX_PASSES) }
    ensures refused { IfErr result (λ (back, _). IsGivenBack plain back) }
    ensures settled { IfOk result (λ (left, _). IsSettled (state_of left)) }
    ensures played { IfOk result (λ (left, report). IsPlayOf submission.now plain report left) }
{
    let alloc = submission.alloc;
    let chains = submission.chains.len() as u32;
    let passes = workers.min(1.max(chains));
    let Ok(room) = Room::new(alloc, submission.requests, passes) else {
        return Err((plain, NoMemory));
    };
    match T::open_for(alloc, plain, chains, submission.most_installs(), passes) {
        Err(refused) => {
            let Room {
                crew,
                outcomes: _,
                all: _,
            } = room;
            crew.destroy_empty();
            Err(refused)
        }
        Ok((table, passes)) => Ok(play_open(submission, table, passes, room)),
    }
}

/// Checks and cuts the requests of a submission after `earlier` accepted ones.
pub(crate) fn accept(
    alloc: Global,
    earlier: u32,
    requests: &[Request],
    workers: u32,
) -> Result<Vec<Chain>, SubmitFault>
    ensures failure { FailsOnlyAs (refusal_after earlier (all_asked requests.now) workers) Refused
        result }
    ensures few { IfOk result (λ _. earlier < MOST_SUBMISSIONS) }
    ensures workers { IfOk result (λ _. (1 ≤ workers) × (workers ≤ MAX_PASSES)) }
    ensures cut { IfOk result (λ chains. AreCutInto (all_asked requests.now) chains.items) }
{
    if workers == 0 || workers > MAX_PASSES {
        return Err(SubmitFault::Workers);
    }
    if let Err(fault) = check(requests) {
        return Err(SubmitFault::Cut(fault));
    }
    if earlier >= MOST_SUBMISSIONS {
        return Err(SubmitFault::TooMany);
    }
    match cut(alloc, requests) {
        Ok(chains) => Ok(chains),
        Err(NoMemory) => Err(SubmitFault::NoMemory),
    }
}

impl Ring {
    /// Plays a submission on the ring's table (io_uring_enter(2)). Linked requests make a chain,
    /// whose members start one after another. A request that isn't linked is a chain of its own.
    /// Each worker draws a chain, plays it and draws the next one. The promises hold for every
    /// table `T` and every number of workers. There are at most as many workers as chains.
    ///
    /// The workers are threads. If no thread can be started, they work one after another, and the
    /// same promises hold. One worker starts no thread. The gate is called before each request that
    /// starts, and after its completion.
    ///
    /// The report and the table afterwards are those of one legal history of a table of one thread,
    /// which begins with the files of the ring. The completions of each chain are explained by the
    /// steps of its own members, in their order. The report has one completion for each request, in
    /// order of place. The closes are the files that the history closed, in order of mark. Each of
    /// them is an entry of the catalogue.
    ///
    /// The submission is counted even if each of its requests fails. The catalogue, the size, the
    /// range and the number of registrations stay as they are.
    ///
    /// # Errors
    /// In this order: `Workers` if the number of workers is not from 1 to [`MAX_PASSES`], `Cut`
    /// with the first request that has a fault ([`fx_chain::check`]), `TooMany` after
    /// [`MOST_SUBMISSIONS`] accepted submissions, and `NoMemory` if memory is refused. The ring
    /// then has the files, size, range and counts that it had. A test checks that no request has
    /// started. The memory for the bytes of a read is allocated while the read is played. If it is
    /// refused, the read completes with ENOMEM.
    pub fn submit<T: FileTable, G: Gate>(
        &mut self,
        rt: &(impl Threads + Wait + Sync),
        alloc: Global,
        requests: &[Request],
        workers: u32,
        gate: &G,
    ) -> Result<Report, SubmitFault>
        ensures failure { FailsOnlyAs
            (submit_refusal (ring_of self.old) (all_asked requests.now) workers) Refused result }
        ensures one_history { IfOk result (λ report.
            IsOneHistory self.old (all_asked requests.now) (reported report) self.new) }
        ensures entries { IfOk result (λ report.
            AreEntries (ring_of self.new) report.closes.files) }
        ensures err { OnErr result (ring_of self.new ≡ ring_of self.old) }
    {
        let chains = accept(alloc, self.submissions, requests, workers)?;
        let plain = mem::replace(&mut self.table, PlainTable::none(alloc));
        let submission = Submission {
            rt,
            alloc,
            catalogue: &self.catalogue,
            earlier: self.submissions,
            requests,
            chains: chains.as_slice(),
            gate,
        };
        match play::<T, _, G>(&submission, plain, workers) {
            Ok((left, report)) => {
                mem::replace(&mut self.table, left).dismiss();
                self.submissions += 1;
                Ok(report)
            }
            Err((back, NoMemory)) => {
                mem::replace(&mut self.table, back).dismiss();
                Err(SubmitFault::NoMemory)
            }
        }
    }
}
