//! The slots, with the counts of their lives and of their calls.
ghost use Rattle.std.specs.Prelude.{◌≡◌, ◌+◌, ◌^◌, ◌≤◌, ◌<◌, ◌≢◌};
ghost use Rattle.fx_direct.specs.Words.{true, false, length, IfOk, Decides, MatchOption, MatchResult, MOST_SLOTS, Stale};
ghost use Rattle.fx_direct.specs.Living.{IsFirstFrom};
ghost use Rattle.fx_direct.specs.Phases.{AllUnused, Free, Opening, calls_in, calls_in_flight, lives_in, lives_of, phase_at, slot_numbered};
ghost use Rattle.fx_direct.specs.Transitions.{GoesOn, HasLife, IsUsualAt, with_phase};
ghost use Rattle.fx_direct.specs.declared.chain.Member.TheVariants.{Close};

use crate::chain::{ChainEnd, ChainOpen, LifeChain, Member};
use crate::key::LifeKey;
use crate::phase::{Phase, PhaseName, Slot};
use crate::refusal::LifeRefusal;
use fx_base::NoMemory;
use std::alloc::Global;
use std::marker::Model;

// The slots, the number of lives under way, and the number of calls in flight. Contracts see the
// list of slots.
#[derive(Drop)]
pub(crate) struct SlotList {
    slots: Vec<Slot>,
    lives: u32,
    calls: u64,
}

impl Model for SlotList {
    ghost use Rattle.fx_direct.specs.Words.{List, Slot};
    ghost use Rattle.fx_direct.specs.Machine.{AreCounted};

    ghost Value = { List Slot };

    ghost view = { λ s. s.slots.items };

    ghost invariant = { λ s. AreCounted s.slots.items s.lives s.calls };
}

impl SlotList {
    // Creates a list of `n` slots that have had no life.
    pub(crate) fn of_free(alloc: Global, n: u32) -> Result<SlotList, NoMemory>
        requires { n ≤ MOST_SLOTS }
        ensures size { IfOk result (λ list. length list ≡ n) }
        ensures unused { IfOk result AllUnused }
    {
        let empty = Slot {
            number: 0,
            phase: Phase::Free,
        };
        Ok(SlotList {
            slots: vec![in alloc; empty; n as usize]?,
            lives: 0,
            calls: 0,
        })
    }

    // Returns the phase of the life under way under a key.
    #[inline(always)]
    pub(crate) fn get(&self, key: LifeKey) -> Result<Phase, LifeRefusal>
        ensures { MatchResult result
            (λ phase. HasLife self.now key × (phase ≡ phase_at self.now key.slot))
            (λ why. (why ≡ Stale) × (HasLife self.now key → ⊥)) }
    {
        match self.slots.get(key.slot as usize) {
            Some(slot) => {
                if slot.number == key.number && slot.phase != Phase::Free {
                    Ok(slot.phase)
                } else {
                    Err(LifeRefusal::Stale)
                }
            }
            None => Err(LifeRefusal::Stale),
        }
    }

    // Returns the number of a slot's last life.
    #[inline(always)]
    pub(crate) fn number(&self, slot: u32) -> u64
        requires { slot < length self.now }
        ensures { result ≡ (slot_numbered self.now slot).number }
    {
        self.slots[slot as usize].number
    }

    // Returns a slot, or `None` past the last one.
    #[inline(always)]
    pub(crate) fn at(&self, slot: u32) -> Option<Slot>
        ensures { MatchOption result (slot < length self.now → ⊥)
            (λ it. (slot < length self.now) × (it ≡ slot_numbered self.now slot)) }
    {
        self.slots.get(slot as usize).copied()
    }

    // Returns the key of the life under way at a slot, if there is one.
    #[inline(always)]
    pub(crate) fn key_at(&self, slot: u32) -> Option<LifeKey>
        ensures { MatchOption result ((key : LifeKey) → key.slot ≡ slot → HasLife self.now key → ⊥)
            (λ key. (key.slot ≡ slot) × HasLife self.now key) }
    {
        let it = self.slots.get(slot as usize)?;
        if it.phase == Phase::Free {
            return None;
        }
        Some(LifeKey {
            slot,
            number: it.number,
        })
    }

    // Returns the key of the first life in a phase of this name, at this slot or a later one.
    pub(crate) fn key_in(&self, name: PhaseName, from: u32) -> Option<LifeKey>
        ensures { IsFirstFrom self.now name from result }
    {
        let mut slot = from;
        while (slot as usize) < self.slots.len() {
            let it = self.slots[slot as usize];
            if it.phase.name() == Some(name) {
                return Some(LifeKey {
                    slot,
                    number: it.number,
                });
            }
            slot += 1;
        }
        None
    }

    // Writes the number and the phase of a key's slot.
    #[inline(always)]
    pub(crate) fn set(&mut self, key: LifeKey, phase: Phase)
        requires { key.slot < length self.old }
        ensures { self.new ≡ with_phase self.old key phase }
    {
        let old = self.slots[key.slot as usize].phase;
        self.slots[key.slot as usize] = Slot {
            number: key.number,
            phase,
        };
        self.lives = self.lives - old.lives() + phase.lives();
        self.calls = self.calls - old.calls() + phase.calls();
    }

    // Begins a life at a free slot: its open is in flight.
    #[inline(always)]
    pub(crate) fn begin(&mut self, key: LifeKey)
        requires inside { key.slot < length self.old }
        requires free { phase_at self.old key.slot ≡ Free }
        ensures { self.new ≡ with_phase self.old key Opening }
    {
        self.slots[key.slot as usize] = Slot {
            number: key.number,
            phase: Phase::Opening,
        };
        self.lives += 1;
        self.calls += 1;
    }

    // Ends the life of a key, of which one call was in flight: its slot is free.
    #[inline(always)]
    pub(crate) fn end(&mut self, key: LifeKey)
        requires inside { key.slot < length self.old }
        requires life { lives_in (phase_at self.old key.slot) ≡ 1 }
        requires call { calls_in (phase_at self.old key.slot) ≡ 1 }
        ensures { self.new ≡ with_phase self.old key Free }
    {
        self.slots[key.slot as usize] = Slot {
            number: key.number,
            phase: Phase::Free,
        };
        self.lives -= 1;
        self.calls -= 1;
    }

    // Writes a phase of a key's life, in which one more call is in flight.
    #[inline(always)]
    pub(crate) fn set_begun(&mut self, key: LifeKey, phase: Phase)
        requires inside { key.slot < length self.old }
        requires lives { lives_in phase ≡ lives_in (phase_at self.old key.slot) }
        requires calls { calls_in phase ≡ calls_in (phase_at self.old key.slot) + 1 }
        requires few { calls_in phase ≤ 2 ^ 32 + 1 }
        ensures { self.new ≡ with_phase self.old key phase }
    {
        self.slots[key.slot as usize] = Slot {
            number: key.number,
            phase,
        };
        self.calls += 1;
    }

    // Writes a phase of a key's life, in which one call fewer is in flight.
    #[inline(always)]
    pub(crate) fn set_over(&mut self, key: LifeKey, phase: Phase)
        requires inside { key.slot < length self.old }
        requires lives { lives_in phase ≡ lives_in (phase_at self.old key.slot) }
        requires calls { calls_in phase + 1 ≡ calls_in (phase_at self.old key.slot) }
        ensures { self.new ≡ with_phase self.old key phase }
    {
        self.slots[key.slot as usize] = Slot {
            number: key.number,
            phase,
        };
        self.calls -= 1;
    }

    // Takes the success of a chain's open or request, if the chain goes on: its close is to come.
    #[inline(always)]
    pub(crate) fn advance(&mut self, key: LifeKey, member: Member) -> bool
        ensures went { result ≡ true → GoesOn self.old key member self.new }
        ensures stayed { result ≡ false → self.new ≡ self.old }
        ensures usual { member ≢ Close → Decides result (IsUsualAt self.old key member) }
    {
        let Some(slot) = self.slots.get_mut(key.slot as usize) else {
            return false;
        };
        if slot.number != key.number {
            return false;
        }
        let Phase::Chained(chain) = &mut slot.phase else {
            return false;
        };
        if !chain.advance(member) {
            return false;
        }
        self.calls -= 1;
        true
    }

    // Checks whether the success of the close is the last completion of the chain under a key.
    #[inline(always)]
    pub(crate) fn is_last_close(&self, key: LifeKey) -> bool
        ensures { Decides result (IsUsualAt self.now key Close) }
    {
        match self.slots.get(key.slot as usize) {
            Some(slot) => {
                slot.number == key.number
                    && matches!(
                        slot.phase,
                        Phase::Chained(LifeChain {
                            requests: 0,
                            opened: ChainOpen::Installed,
                            end: ChainEnd::Awaited,
                        })
                    )
            }
            None => false,
        }
    }

    // Returns the number of lives under way.
    #[inline(always)]
    pub(crate) fn lives(&self) -> u32
        ensures { result ≡ lives_of self.now }
    {
        self.lives
    }

    // Returns the number of calls in flight.
    #[inline(always)]
    pub(crate) fn calls(&self) -> u64
        ensures { result ≡ calls_in_flight self.now }
    {
        self.calls
    }
}
