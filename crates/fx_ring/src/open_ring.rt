//! Rings whose table stays open from one submission to the next, for one worker.
ghost use Rattle.std.specs.Prelude.{IfOk, IfErr, IfSome, IfNone, OnErr, MatchOption, ◌≡◌, ◌+◌, ◌*◌};
ghost use Rattle.std.specs.Prelude.{◌≤◌, ℕ, length};
ghost use Rattle.fx_table.specs.declared.limits.TheConstants.{CHAIN_NUMBERS, MAX_CHAINS};
ghost use Rattle.fx_chain.specs.Operation.{all_asked};
ghost use Rattle.fx_chain.specs.declared.fault.TheConstants.{MOST_MEMBERS};
ghost use Rattle.fx_ring.specs.Calls.{FailsOnlyAs, submit_refusal};
ghost use Rattle.fx_ring.specs.Outcomes.{HasRoomFor};
ghost use Rattle.fx_ring.specs.OpenRings.{HasUsed, IsAloneAt, IsRoomFor, ring_led_by};
ghost use Rattle.fx_ring.specs.Submission.{IsOneHistory, reported};
ghost use Rattle.fx_ring.specs.declared.report.SubmitFault.TheVariants.{NoMemory as Refused};
ghost use Rattle.fx_ring.specs.Work.{InstallAtMost};
ghost use Rattle.fx_ring.specs.Ring.{AreEntries, ring_of};

use crate::outcome::Outcome;
use crate::play::Submission;
use crate::report::{Report, SubmitFault};
use crate::ring::Ring;
use crate::submission::accept;
use fx_base::{Catalogue, NoMemory};
use fx_chain::{Gate, Request};
use fx_table::FileTable;
use std::alloc::Global;
use std::marker::Model;
use std::sync::Wait;

/// A ring whose table stays open for one worker, so that no submission opens or closes it.
/// [`Ring::open`] makes one. It must be consumed: the compiler rejects a program that drops it
/// without [`OpenRing::close`], which returns the ring.
///
/// Contracts see the ring, the number of chains that the table can still play, and the most files
/// that each of them may install.
pub struct OpenRing<T: FileTable> {
    catalogue: Catalogue,
    table: T,
    // The only pass, and the list that it came in, which is empty until the table is closed.
    pass: T::Pass,
    list: Vec<T::Pass>,
    size: u32,
    // The number of chains that the table can still play, and the most files that each may install.
    left: u32,
    most: u32,
    submissions: u32,
    registrations: u32,
}

impl<T: FileTable> Model for OpenRing<T> {
    ghost use Rattle.fx_ring.specs.OpenRings.{OpenRingContents, IsKeptOpen, ring_led_by};

    ghost Value = { OpenRingContents };

    ghost view = { λ s. record {
      ring = ring_led_by s.catalogue (T.opening s.table) (T.view s.pass) s.submissions
          s.registrations;
      chains_left = s.left;
      most = s.most;
    } };

    ghost invariant = { λ s. IsKeptOpen T.view (T.fits s.table) s.catalogue (T.opening s.table) s.pass
        s.list s.size s.left s.most s.submissions s.registrations };
}

impl Ring {
    /// Opens the ring's table for one worker and for `chains` chains, at most
    /// [`fx_table::MAX_CHAINS`]. Each of them may install at most `most` files, and `most` is at
    /// most [`fx_table::CHAIN_NUMBERS`]. Contracts see the same ring, whose files may have other
    /// numbers.
    ///
    /// # Errors
    /// `NoMemory` if memory is refused. The ring is returned with its files.
    pub fn open<T: FileTable>(
        self,
        alloc: Global,
        chains: u32,
        most: u32,
    ) -> Result<OpenRing<T>, (Ring, NoMemory)>
        requires chains { chains ≤ MAX_CHAINS }
        requires most { most ≤ CHAIN_NUMBERS }
        ensures opened { IfOk result (λ opened. ring_of opened.ring ≡ ring_of self) }
        ensures chains_left { IfOk result (λ opened. opened.chains_left ≡ chains) }
        ensures each { IfOk result (λ opened. opened.most ≡ most) }
        ensures refused { IfErr result (λ back. ring_of back.0 ≡ ring_of self) }
    {
        let Ring {
            catalogue,
            table: plain,
            submissions,
            registrations,
        } = self;
        let size = plain.size();
        match T::open_for(alloc, plain, chains, most, 1) {
            Ok((table, mut list)) => {
                let Some(pass) = list.pop() else {
                    unreachable!()
                };
                Ok(OpenRing {
                    catalogue,
                    table,
                    pass,
                    list,
                    size,
                    left: chains,
                    most,
                    submissions,
                    registrations,
                })
            }
            Err((table, refused)) => Err((
                Ring {
                    catalogue,
                    table,
                    submissions,
                    registrations,
                },
                refused,
            )),
        }
    }
}

impl<T: FileTable> OpenRing<T> {
    /// Returns the catalogue: the files that can be opened.
    pub fn catalogue(&self) -> &Catalogue
        ensures { result.now ≡ (ring_of self.now.ring).catalogue }
    {
        &self.catalogue
    }

    /// Returns the number of slots.
    pub fn size(&self) -> u32
        ensures { result ≡ (ring_of self.now.ring).size }
    {
        self.size
    }

    /// Plays a submission on the open table, as [`Ring::submit`] does with one worker
    /// (io_uring_enter(2)). Each chain of the submission uses one of the table's chains.
    ///
    /// Returns `None`, and changes nothing, exactly if the table has no room for the submission: it
    /// has fewer chains left than the submission, or a chain installs more files than the table was
    /// opened for. [`OpenRing::close`] then returns a ring that can play it.
    ///
    /// # Errors
    /// Those of [`Ring::submit`] with one worker. The ring is then as before.
    pub fn submit<G: Gate>(
        &mut self,
        rt: &impl Wait,
        alloc: Global,
        requests: &[Request],
        gate: &G,
    ) -> Result<Option<Report>, SubmitFault>
        ensures failure { FailsOnlyAs
            (submit_refusal (ring_of self.old.ring) (all_asked requests.now) 1) Refused result }
        ensures one_history { IfOk result (λ played. MatchOption played (self.new ≡ self.old)
            (λ report. IsOneHistory self.old.ring (all_asked requests.now) (reported report)
            self.new.ring)) }
        ensures entries { IfOk result (λ played. IfSome played
            (λ report. AreEntries (ring_of self.new.ring) report.closes.files)) }
        ensures room { IfOk result (λ played. IfSome played
            (λ _. IsRoomFor (all_asked requests.now) self.old)) }
        ensures no_room { IfOk result (λ played. IfNone played
            (IsRoomFor (all_asked requests.now) self.old → ⊥)) }
        ensures used { IfOk result (λ played. IfSome played
            (λ _. HasUsed self.old (all_asked requests.now) self.new)) }
        ensures err { OnErr result (self.new ≡ self.old) }
    {
        let chains = accept(alloc, self.submissions, requests, 1)?;
        let submission = Submission {
            rt,
            alloc,
            catalogue: &self.catalogue,
            earlier: self.submissions,
            requests,
            chains: chains.as_slice(),
            gate,
        };
        let count = submission.chains.len() as u32;
        if count > self.left {
            return Ok(None);
        }
        if submission.most_installs() > self.most {
            return Ok(None);
        }
        let Ok(outcome) = Outcome::with_room(alloc, requests) else {
            return Err(SubmitFault::NoMemory);
        };
        let report = play_alone(&submission, &self.table, &mut self.pass, outcome);
        self.left -= count;
        self.submissions += 1;
        Ok(Some(report))
    }

    /// Closes the table and returns the ring. It needs no memory.
    pub fn close(self) -> Ring
        ensures { ring_of result ≡ ring_of self.ring }
    {
        let OpenRing {
            catalogue,
            table,
            pass,
            mut list,
            size: _,
            left: _,
            most: _,
            submissions,
            registrations,
        } = self;
        list.push_reserved(pass);
        Ring {
            catalogue,
            table: table.close(list),
            submissions,
            registrations,
        }
    }
}

// Plays a submission by the only pass of a table, which stays open.
fn play_alone<T: FileTable, R: Wait, G: Gate>(
    submission: &Submission<'_, R, G>,
    table: &T,
    pass: &mut T::Pass,
    mut outcome: Outcome,
) -> Report
    requires numbers { InstallAtMost (all_asked submission.now.requests.now)
        (T.opening table.now).numbers }
    requires alone { IsAloneAt T.view (T.fits table.now) (T.opening table.now) pass.old }
    requires chains { (T.view pass.old).chain + length submission.now.chains.now
        ≤ (T.opening table.now).chains }
    requires looks { length submission.now.chains.now * MOST_MEMBERS
        ≤ (T.view pass.old).looks_left }
    requires room { HasRoomFor (all_asked submission.now.requests.now) outcome }
    ensures alone { IsAloneAt T.view (T.fits table.now) (T.opening table.now) pass.new }
    ensures chain { (T.view pass.new).chain
        ≡ (T.view pass.old).chain + length submission.now.chains.now }
    ensures looks { (T.view pass.old).looks_left
        ≤ (T.view pass.new).looks_left + length submission.now.chains.now * MOST_MEMBERS }
    ensures played { let o = T.opening table.now in let s = submission.now in
        (registrations : ℕ) → IsOneHistory
        (ring_led_by s.catalogue.now o (T.view pass.old) s.earlier registrations)
        (all_asked s.requests.now) (reported result)
        (ring_led_by s.catalogue.now o (T.view pass.new) (s.earlier + 1) registrations) }
{
    for i in 0..submission.chains.len() {
        let Some(_drawn) = table.draw(pass) else {
            unreachable!()
        };
        submission.play_chain(table, pass, i as u32 + 1, &mut outcome);
    }
    table.settle(pass);
    outcome.sort();
    outcome.report(submission.earlier + 1)
}
