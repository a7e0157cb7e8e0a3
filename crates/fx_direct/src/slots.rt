//! The machine: the life of each slot of one ring's table of direct descriptors.
ghost use Rattle.std.specs.Prelude.{◌≡◌, ◌≤◌};
ghost use Rattle.fx_direct.specs.Words.{true, false, length, MatchOption, MatchResult, Decides, IfOk, IfSome, None, Some, MOST_SLOTS};
ghost use Rattle.fx_direct.specs.Keys.{FitsBits};
ghost use Rattle.fx_direct.specs.Living.{IsFirstFrom};
ghost use Rattle.fx_direct.specs.Phases.{AllFree, AllUnused, calls_in_flight, lives_of, phase_at};
ghost use Rattle.fx_direct.specs.Order.{is_ranged};
ghost use Rattle.fx_direct.specs.Refusals.{RefusesAdopt, RefusesEnd, RefusesReserve, RefusesTransition, RefusesUnchained};
ghost use Rattle.fx_direct.specs.Transitions.{HasLife, AdoptsFile, Advances, AdvancesAndAsks, EndsLife, IsUsualAt, completion, machine_with};
ghost use Rattle.fx_direct.specs.declared.transition.Transition.TheVariants.{Reserves, Chains, Opens, Starts, Finishes, Holds, Releases, Closes};
ghost use Rattle.fx_direct.specs.declared.transition.Transition.TheVariants.{FailsToClose};

use crate::chain::{ChainEnd, LifeChain, Member};
use crate::ending::{ask, free, set_ending, write};
use crate::key::{LifeKey, MOST_LIVES};
use crate::phase::{Phase, PhaseName};
use crate::refusal::{AdoptRefusal, LifeRefusal, ReserveRefusal};
use crate::slot_list::SlotList;
use crate::slot_order::{SlotOrder, SlotRange};
use fx_base::NoMemory;
use std::alloc::Global;
use std::marker::Model;

/// The lives of the slots of one ring's table of direct descriptors. One thread at a time uses it.
/// Contracts see the list of slots, the ring's allocation range, and whether the machine was
/// stopped.
///
/// Each call but `open` and `key_in` takes constant time, and no call but `open` allocates. A call
/// that returns an error changes nothing.
#[derive(Drop)]
pub struct DirectSlots {
    list: SlotList,
    order: SlotOrder,
    stopped: bool,
}

impl Model for DirectSlots {
    ghost use Rattle.fx_direct.specs.Machine.{IsMachine};
    ghost use Rattle.fx_direct.specs.Transitions.{DirectMachine, machine_with};

    ghost Value = { DirectMachine };

    ghost view = { λ s. machine_with s.list s.order.range s.stopped };

    ghost invariant = { λ s. IsMachine s.list s.order };
}

impl DirectSlots {
    /// Creates the machine of a ring whose table has this number of slots, at most
    /// [`crate::MOST_SLOTS`], all of them empty. In the range, the ring's allocation range, the
    /// kernel chooses slots, and no life is reserved.
    ///
    /// # Errors
    /// `NoMemory` if an allocation fails.
    pub fn open(alloc: Global, slots: u32, range: SlotRange) -> Result<DirectSlots, NoMemory>
        requires { slots ≤ MOST_SLOTS }
        ensures size { IfOk result (λ it. length it.list ≡ slots) }
        ensures unused { IfOk result (λ it. AllUnused it.list) }
        ensures free { IfOk result (λ it. AllFree it.list) }
        ensures range { IfOk result (λ it. it.range ≡ range) }
        ensures runs { IfOk result (λ it. it.stopped ≡ false) }
    {
        let list = SlotList::of_free(alloc, slots)?;
        let order = SlotOrder::of_vacant(alloc, slots, range)?;
        Ok(DirectSlots {
            list,
            order,
            stopped: false,
        })
    }

    /// Begins a life at a free slot, and returns its key. Then submit an open at the key's slot:
    /// an openat, an accept, a socket or one end of a pipe (io_uring_prep_openat_direct(3),
    /// io_uring_prep_accept_direct(3)).
    ///
    /// # Errors
    /// `Stopped` after [`Self::stop`]. `Full` if no slot outside the range is free, or each free
    /// one has had its last life.
    #[inline(always)]
    pub fn reserve(&mut self) -> Result<LifeKey, ReserveRefusal>
        ensures reserved { MatchResult result
            (λ key. (self.old.stopped ≡ false) × (is_ranged self.old.range key.slot ≡ false)
            × Advances self.old (Reserves key) self.new)
            (λ why. (self.new ≡ self.old) × RefusesReserve self.old why) }
        ensures fits { IfOk result FitsBits }
    {
        if self.stopped {
            return Err(ReserveRefusal::Stopped);
        }
        let Some(slot) = self.order.take() else {
            return Err(ReserveRefusal::Full);
        };
        let key = LifeKey {
            slot,
            number: self.list.number(slot) + 1,
        };
        self.list.begin(key);
        Ok(key)
    }

    /// Adopts a file that the kernel has put at a slot of the range, as an accept at any slot does
    /// (io_uring_prep_accept_direct(3), IORING_FILE_INDEX_ALLOC): a live life begins there, and its
    /// key is returned. If the slot's earlier life was closing, its close has succeeded: that life
    /// is over, and its key is stale when the completion of the close comes. After [`Self::stop`]
    /// the life is ended at once: this returns the slot too, so submit a close of it.
    ///
    /// # Errors
    /// `OutOfRange` if the slot isn't one of the machine's in the range. `NotFree` if a life at the
    /// slot has a file there, so that the kernel can't have chosen it. `NoMoreLives` if the slot
    /// has had its last life: then submit a close of it.
    pub fn adopt(&mut self, slot: u32) -> Result<(LifeKey, Option<u32>), AdoptRefusal>
        ensures adopted { MatchResult result
            (λ it. (it.0.slot ≡ slot) × AdoptsFile self.old it.0 it.1 self.new)
            (λ why. (self.new ≡ self.old) × RefusesAdopt self.old slot why) }
        ensures fits { IfOk result (λ it. FitsBits it.0) }
    {
        let Some(earlier) = self.list.at(slot) else {
            return Err(AdoptRefusal::OutOfRange);
        };
        if !self.order.range().has(slot) {
            return Err(AdoptRefusal::OutOfRange);
        }
        if !earlier.phase.may_be_adopted() {
            return Err(AdoptRefusal::NotFree);
        }
        if earlier.number >= MOST_LIVES {
            return Err(AdoptRefusal::NoMoreLives);
        }
        let key = LifeKey {
            slot,
            number: earlier.number + 1,
        };
        if self.stopped {
            return Ok((key, Some(ask(&mut self.list, key))));
        }
        self.list.set(key, Phase::Live(0, 0));
        Ok((key, None))
    }

    /// Stops the machine: from now on no life is reserved, and each life that becomes live is ended
    /// at once. A life that is reserved goes on. End each live life (a walk by [`Self::key_in`]):
    /// then [`Self::len`] is 0 once each call was completed and each user was released.
    #[inline(always)]
    pub fn stop(&mut self)
        ensures { self.new ≡ machine_with self.old.list self.old.range true }
    {
        self.stopped = true;
    }

    /// Reports that the open under a key was completed, and whether it installed a file. If it
    /// didn't, the slot is free. After [`Self::stop`] the life of an installed file is ended at
    /// once: this returns the slot, so submit a close of it.
    ///
    /// # Errors
    /// `Stale`, or `Is` with the phase, if the key's life isn't opening.
    #[inline(always)]
    pub fn opened(&mut self, key: LifeKey, installed: bool) -> Result<Option<u32>, LifeRefusal>
        ensures { MatchResult result
            (λ ask. AdvancesAndAsks self.old (Opens key installed) ask self.new)
            (λ why. (self.new ≡ self.old)
            × RefusesUnchained self.old.list (Opens key installed) why) }
    {
        match self.list.get(key)? {
            Phase::Opening => {
                if installed {
                    if self.stopped {
                        return Ok(Some(ask(&mut self.list, key)));
                    }
                    self.list.set(key, Phase::Live(0, 0));
                } else {
                    free(&mut self.list, &mut self.order, key);
                }
                Ok(None)
            }
            phase => Err(LifeRefusal::Is(phase)),
        }
    }

    /// Counts an open, this number of requests on its file and, if `closes`, its close, and returns
    /// the key's slot. Then submit them together under the key, by hard or soft links, and report
    /// each completion by [`Self::chained`]. The slot is taken until the last one.
    ///
    /// # Errors
    /// `Stale`, or `Is` with the phase, if the key's life isn't opening.
    #[inline(always)]
    pub fn chain(&mut self, key: LifeKey, requests: u32, closes: bool) -> Result<u32, LifeRefusal>
        ensures { MatchResult result
            (λ slot. (slot ≡ key.slot) × Advances self.old (Chains key requests closes) self.new)
            (λ why. (self.new ≡ self.old)
            × RefusesTransition self.old.list (Chains key requests closes) why) }
    {
        match self.list.get(key)? {
            Phase::Opening => {
                let chain = LifeChain::of(requests, closes);
                self.list.set(key, Phase::Chained(chain));
                Ok(key.slot)
            }
            phase => Err(LifeRefusal::Is(phase)),
        }
    }

    /// Reports that a member of the chain under a key was completed. They come in any order. An
    /// open succeeded if it installed a file, and a close if it took the file. After the last
    /// completion the slot is free, unless the file is left: then this returns the slot, so submit
    /// a close of it. A chain without a close is a live life once its open succeeded, and after
    /// [`Self::stop`] that life is ended at once.
    ///
    /// # Errors
    /// `Stale`, or `Is` with the phase, if no such call is in flight under the key, or if the open
    /// failed and the close took a file.
    #[inline(always)]
    pub fn chained(
        &mut self,
        key: LifeKey,
        member: Member,
        succeeded: bool,
    ) -> Result<Option<u32>, LifeRefusal>
        ensures { MatchResult result
            (λ ask. AdvancesAndAsks self.old (completion key member succeeded) ask self.new)
            (λ why. (self.new ≡ self.old)
            × RefusesTransition self.old.list (completion key member succeeded) why) }
    {
        match self.list.get(key)? {
            Phase::Chained(chain) => match chain.after(member, succeeded) {
                Some(left) => {
                    let phase = left.unless_stopped(self.stopped);
                    Ok(write(&mut self.list, &mut self.order, key, phase))
                }
                None => Err(LifeRefusal::Is(Phase::Chained(chain))),
            },
            _ => self.completed(key, member, succeeded),
        }
    }

    /// Reports that a member of the chain under a key succeeded, as [`Self::chained`] does, but
    /// takes only the usual completions of a chain with a close: the open's and a request's while
    /// the close is to come, and the close's if it comes last. It returns `false` exactly if the
    /// completion isn't usual. Then it has changed nothing: call [`Self::chained`].
    #[inline(always)]
    pub fn advance(&mut self, key: LifeKey, member: Member) -> bool
        ensures went { result ≡ true
            → AdvancesAndAsks self.old (completion key member true) None self.new }
        ensures stayed { result ≡ false → self.new ≡ self.old }
        ensures usual { Decides result (IsUsualAt self.old.list key member) }
    {
        match member {
            Member::Close => {
                if !self.list.is_last_close(key) {
                    return false;
                }
                free(&mut self.list, &mut self.order, key);
                true
            }
            _ => self.list.advance(key, member),
        }
    }

    /// Counts a request on the file of a key, and returns the key's slot. Then submit the request:
    /// any operation on a fixed file. Between this call and [`Self::finish`] the file stays at the
    /// slot.
    ///
    /// # Errors
    /// `Stale`, or `Is` with the phase, if the key's life isn't live. `TooManyRequests` if 2^32 - 1
    /// requests are in flight under the key.
    #[inline(always)]
    pub fn start(&mut self, key: LifeKey) -> Result<u32, LifeRefusal>
        ensures { MatchResult result
            (λ slot. (slot ≡ key.slot) × Advances self.old (Starts key) self.new)
            (λ why. (self.new ≡ self.old) × RefusesTransition self.old.list (Starts key) why) }
    {
        match self.list.get(key)? {
            Phase::Live(requests, users) => {
                if requests == u32::MAX {
                    return Err(LifeRefusal::TooManyRequests);
                }
                self.list.set_begun(key, Phase::Live(requests + 1, users));
                Ok(key.slot)
            }
            phase => Err(LifeRefusal::Is(phase)),
        }
    }

    /// Reports that a request under a key was completed. If this returns a slot, submit a close of
    /// it (io_uring_prep_close_direct(3)): nobody uses the file any more. Of a request with several
    /// completions report the last one alone: include/yachtdirect.h says which one that is.
    ///
    /// # Errors
    /// `Stale`, or `Is` with the phase, if no request is in flight under the key.
    #[inline(always)]
    pub fn finish(&mut self, key: LifeKey) -> Result<Option<u32>, LifeRefusal>
        ensures { MatchResult result
            (λ ask. AdvancesAndAsks self.old (Finishes key) ask self.new)
            (λ why. (self.new ≡ self.old) × RefusesUnchained self.old.list (Finishes key) why) }
    {
        match self.list.get(key)? {
            Phase::Live(requests, users) if requests > 0 => {
                self.list.set_over(key, Phase::Live(requests - 1, users));
                Ok(None)
            }
            Phase::Ending(requests, users) if requests > 0 => {
                Ok(set_ending(&mut self.list, key, requests - 1, users))
            }
            phase => Err(LifeRefusal::Is(phase)),
        }
    }

    /// Counts a user of the file that is not a request: a worker, a value of a table that threads
    /// share. Until [`Self::release`] the file stays at the slot.
    ///
    /// # Errors
    /// `Stale`, or `Is` with the phase, if the key's life isn't live. `TooManyUsers` if the file
    /// has 2^32 - 1 such users.
    #[inline(always)]
    pub fn hold(&mut self, key: LifeKey) -> Result<(), LifeRefusal>
        ensures { MatchResult result (λ _. Advances self.old (Holds key) self.new)
            (λ why. (self.new ≡ self.old) × RefusesTransition self.old.list (Holds key) why) }
    {
        match self.list.get(key)? {
            Phase::Live(requests, users) => {
                if users == u32::MAX {
                    return Err(LifeRefusal::TooManyUsers);
                }
                self.list.set(key, Phase::Live(requests, users + 1));
                Ok(())
            }
            phase => Err(LifeRefusal::Is(phase)),
        }
    }

    /// Reports that a user of the file that is not a request is gone. If this returns a slot,
    /// submit a close of it: nobody uses the file any more.
    ///
    /// # Errors
    /// `Stale`, or `Is` with the phase, if the key's file has no such user.
    #[inline(always)]
    pub fn release(&mut self, key: LifeKey) -> Result<Option<u32>, LifeRefusal>
        ensures { MatchResult result
            (λ ask. AdvancesAndAsks self.old (Releases key) ask self.new)
            (λ why. (self.new ≡ self.old) × RefusesTransition self.old.list (Releases key) why) }
    {
        match self.list.get(key)? {
            Phase::Live(requests, users) if users > 0 => {
                self.list.set(key, Phase::Live(requests, users - 1));
                Ok(None)
            }
            Phase::Ending(requests, users) if users > 0 => {
                Ok(set_ending(&mut self.list, key, requests, users - 1))
            }
            phase => Err(LifeRefusal::Is(phase)),
        }
    }

    /// Ends the life of a key: its file gets no new requests and users. If this returns a slot,
    /// submit a close of it; else the last [`Self::finish`] or [`Self::release`] returns the
    /// slot. The life of a chain ends where the chain ends.
    ///
    /// # Errors
    /// `Stale`, or `Is` with the phase, if the key's life is neither live nor chained.
    #[inline(always)]
    pub fn end(&mut self, key: LifeKey) -> Result<Option<u32>, LifeRefusal>
        ensures { MatchResult result (λ ask. EndsLife self.old key ask self.new)
            (λ why. (self.new ≡ self.old) × RefusesEnd self.old.list key why) }
    {
        match self.list.get(key)? {
            Phase::Live(requests, users) => { Ok(set_ending(&mut self.list, key, requests, users)) }
            Phase::Chained(chain) => {
                if chain.end == ChainEnd::Later {
                    let ended = LifeChain {
                        end: ChainEnd::Due,
                        ..chain
                    };
                    self.list.set(key, Phase::Chained(ended));
                }
                Ok(None)
            }
            phase => Err(LifeRefusal::Is(phase)),
        }
    }

    /// Reports that the slot is empty after the close under a key. The slot is free, and the key is
    /// stale. A close of an empty slot answers -EBADF.
    ///
    /// # Errors
    /// `Stale`, or `Is` with the phase, if the key's life isn't closing.
    #[inline(always)]
    pub fn closed(&mut self, key: LifeKey) -> Result<(), LifeRefusal>
        ensures { MatchResult result (λ _. AdvancesAndAsks self.old (Closes key) None self.new)
            (λ why. (self.new ≡ self.old) × RefusesUnchained self.old.list (Closes key) why) }
    {
        match self.list.get(key)? {
            Phase::Closing => {
                free(&mut self.list, &mut self.order, key);
                Ok(())
            }
            phase => Err(LifeRefusal::Is(phase)),
        }
    }

    /// Reports that the close under a key left the file at the slot, as a linked close that is
    /// canceled. Returns the slot: submit a close of it again.
    ///
    /// # Errors
    /// `Stale`, or `Is` with the phase, if the key's life isn't closing.
    #[inline(always)]
    pub fn close_failed(&mut self, key: LifeKey) -> Result<u32, LifeRefusal>
        ensures { MatchResult result
            (λ slot. AdvancesAndAsks self.old (FailsToClose key) (Some slot) self.new)
            (λ why. (self.new ≡ self.old) × RefusesUnchained self.old.list (FailsToClose key) why) }
    {
        match self.list.get(key)? {
            Phase::Closing => Ok(ask(&mut self.list, key)),
            phase => Err(LifeRefusal::Is(phase)),
        }
    }

    // Reports a completion under a key whose life isn't chained.
    fn completed(
        &mut self,
        key: LifeKey,
        member: Member,
        succeeded: bool,
    ) -> Result<Option<u32>, LifeRefusal>
        ensures { MatchResult result
            (λ ask. AdvancesAndAsks self.old (completion key member succeeded) ask self.new)
            (λ why. (self.new ≡ self.old)
            × RefusesUnchained self.old.list (completion key member succeeded) why) }
    {
        match member {
            Member::Open => self.opened(key, succeeded),
            Member::Request => self.finish(key),
            Member::Close if succeeded => {
                self.closed(key)?;
                Ok(None)
            }
            Member::Close => Ok(Some(self.close_failed(key)?)),
        }
    }

    /// Returns the phase of the life under a key, which is not `Free`, or `None` if no life is
    /// under way under it.
    #[inline(always)]
    pub fn phase(&self, key: LifeKey) -> Option<Phase>
        ensures { MatchOption result (HasLife self.now.list key → ⊥)
            (λ phase. HasLife self.now.list key × (phase ≡ phase_at self.now.list key.slot)) }
    {
        self.list.get(key).ok()
    }

    /// Returns the key of the life under way at a slot, or `None` if no life is under way there.
    #[inline(always)]
    pub fn key_at(&self, slot: u32) -> Option<LifeKey>
        ensures key { MatchOption result
            ((key : LifeKey) → key.slot ≡ slot → HasLife self.now.list key → ⊥)
            (λ key. (key.slot ≡ slot) × HasLife self.now.list key) }
        ensures fits { IfSome result FitsBits }
    {
        self.list.key_at(slot)
    }

    /// Returns the number of lives under way: those that were reserved, and whose slots aren't free
    /// again.
    #[inline(always)]
    pub fn len(&self) -> u32
        ensures { result ≡ lives_of self.now.list }
    {
        self.list.lives()
    }

    /// Returns the number of calls in flight: opens, requests and closes whose completions weren't
    /// reported.
    #[inline(always)]
    pub fn in_flight(&self) -> u64
        ensures { result ≡ calls_in_flight self.now.list }
    {
        self.list.calls()
    }

    /// Returns the key of the first life in a phase of this name, at slot `from` or a later one, or
    /// `None` if there is none. So a walk over these lives, which may end each of them, goes on at
    /// the slot after the key's.
    pub fn key_in(&self, name: PhaseName, from: u32) -> Option<LifeKey>
        ensures key { IsFirstFrom self.now.list name from result }
        ensures fits { IfSome result FitsBits }
    {
        self.list.key_in(name, from)
    }
}
