//! A walk through a script: its setting, the request that is asked for, the rings that it reaches,
//! the orders that it keeps, and how much of its limits it has used. Nothing is proved of these
//! numbers, which only bound the walk.
ghost use Rattle.std.specs.Prelude.{◌≡◌, ◌+◌, ◌<◌, ◌≤◌};
ghost use Rattle.check_texts.specs.Words.{IfOk, List, None, length, FileEntry, IsCatalogue, IsAccepted, fault_of, all_asked, ring_of_slots};
ghost use Rattle.check_texts.specs.Words.{ring_with_slots, MOST_SLOTS, MOST_SUBMISSIONS};

use check_search::Limits;
use fx_base::{Catalogue, NoMemory};
use fx_chain::{Place, Request};
use fx_language::Command;
use fx_order::{ChainAccess, RingSlots, Slots};
use std::alloc::Global;

/// The values that stay the same while the commands of a script are played: its files, how far the
/// states of a submission and the rings are looked for, and what is kept of its text.
#[derive(Drop)]
pub(crate) struct WalkSetting<'a> {
    pub(crate) alloc: Global,
    pub(crate) catalogue: &'a Catalogue,
    pub(crate) limits: Limits,
    /// True if the printed text is kept.
    pub(crate) keeps: bool,
    /// The number of texts that are made at most.
    pub(crate) most: usize,
    pub ghost files: { IsCatalogue catalogue.now },
}

/// The submission of the request that is asked for, and the commands before and after it.
#[derive(Drop)]
pub(crate) struct Inquiry<'a> {
    pub(crate) place: Place,
    pub(crate) front: &'a [Command],
    pub(crate) requests: &'a [Request],
    pub(crate) behind: &'a [Command],
    pub ghost accepted: { IsAccepted (all_asked requests.now) },
    pub ghost faultless: { fault_of (all_asked requests.now) ≡ None },
}

/// An order of an accepted submission, with a link to the order of the submission before it.
#[derive(Drop)]
pub struct Past {
    /// The number of the accepted submission, from 1.
    pub submission: u32,
    /// The number of slots of the table.
    pub size: usize,
    /// The accesses in order.
    pub order: Vec<ChainAccess>,
    /// The index of the order of the accepted submission before this one, if there is one.
    pub before: Option<usize>,
}

/// A ring that commands can lead to.
#[derive(Drop)]
pub(crate) struct Reached {
    pub(crate) ring: RingSlots,
    /// The text that was printed on the way if the setting keeps it; else empty.
    pub(crate) printed: String,
    /// The index of the order of the last accepted submission on the way, if there is one.
    pub(crate) past: Option<usize>,
    pub ghost few_slots: { length ring.slots.at.items ≤ MOST_SLOTS },
}

impl Reached {
    /// Returns the ring after an accepted submission that leaves these slots.
    ///
    /// # Errors
    /// `NoMemory` if an allocation fails.
    pub(crate) fn ring_after(&self, alloc: Global, slots: &Slots) -> Result<RingSlots, NoMemory>
        requires { self.now.ring.submissions < MOST_SUBMISSIONS }
        ensures ring { IfOk result (λ ring. (catalogue : List FileEntry)
            → ring_with_slots catalogue ring ≡ ring_of_slots catalogue slots.now
            (self.now.ring.submissions + 1) self.now.ring.registrations) }
        ensures long { IfOk result (λ ring.
            length ring.slots.at.items ≡ length slots.now.at.items) }
    {
        let slots = slots.copy(alloc)?;
        Ok(RingSlots {
            slots,
            submissions: self.ring.submissions + 1,
            registrations: self.ring.registrations,
        })
    }
}

// The bytes of a ring that is kept, beside its slots and its text: its place in two lists and among
// the texts.
const RING_BYTES: usize = 400;

// The bytes of one of its slots, in both lists.
const SLOT_BYTES: usize = 80;

// The bytes of a ring beside these, and of one of its slots, while the rings after its command are
// looked up, and while the ways from there are counted: then there are two copies of its text, too.
const PASSING_BYTES: usize = 448;

const PASSING_SLOT_BYTES: usize = 64;

// The bytes of an order, and of each of its accesses.
const ORDER_BYTES: usize = 128;

const ACCESS_BYTES: usize = 112;

// The largest number of states of the search at the first ring after each command, and of their
// bytes, once the limits have been reached: so that some texts are completed.
const LAST_STATES: usize = 4_096;

const LAST_BYTES: usize = 16 * 1_048_576;

// The bytes of a text for each of those that it prints: it may have room for twice as many, and so
// may its lines in a list. Then those beside them, and of each of its orders, and of each access of
// an order in the list.
const TEXT_COPIES: usize = 4;

const TEXT_BYTES: usize = 256;

const PLACE_BYTES: usize = 32;

const LISTED_BYTES: usize = 12;

// Returns the sum of some numbers, or the largest number.
fn total(numbers: &[usize]) -> usize {
    let mut numbers = numbers.iter();
    numbers.fold(0usize, |sum, number| sum.saturating_add(*number))
}

/// The orders that are kept, the number of states that the searches of a script have met, and that
/// of the bytes that are kept.
#[derive(Drop)]
pub(crate) struct Spent {
    /// The orders of the submissions.
    pub(crate) orders: Vec<Past>,
    /// The states that the searches met.
    states: usize,
    /// The bytes that are kept to the end.
    kept: usize,
    /// The bytes of the rings before a command.
    before: usize,
    /// The bytes of the rings after it, or of the texts.
    after: usize,
    /// The bytes that the rings after it take for a time, and the most that those of a command did.
    passing: usize,
    most_passing: usize,
    /// The number of rings that are kept after it.
    rings: usize,
    /// The number of texts that are kept.
    texts: usize,
}

impl Spent {
    /// Returns that nothing has been met or kept.
    pub(crate) fn nothing(alloc: Global) -> Spent {
        Spent {
            orders: Vec::new(alloc),
            states: 0,
            kept: 0,
            before: 0,
            after: 0,
            passing: 0,
            most_passing: 0,
            rings: 0,
            texts: 0,
        }
    }

    /// Begins the next command: the rings after the last one are those before it.
    pub(crate) fn begin_command(&mut self) {
        self.before = self.after;
        self.after = 0;
        self.most_passing = self.most_passing.max(self.passing);
        self.passing = 0;
        self.rings = 0;
    }

    /// Begins the next command, and keeps the rings after the last one to the end.
    pub(crate) fn keep_command(&mut self) {
        self.kept = self.kept.saturating_add(self.after);
        self.after = 0;
        self.begin_command();
    }

    /// Counts the states that a search met.
    pub(crate) fn count_states(&mut self, states: usize) {
        self.states = self.states.saturating_add(states);
    }

    /// Counts a ring that is kept after a command, with its text.
    pub(crate) fn count_ring(&mut self, setting: &WalkSetting<'_>, reached: &Reached) {
        let (slots, text) = (reached.ring.slots.at.len(), reached.printed.len());
        let own = slots.saturating_mul(SLOT_BYTES);
        self.rings = self.rings.saturating_add(1);
        self.after = total(&[self.after, own, text, RING_BYTES]);
        if setting.keeps {
            let passing = slots.saturating_mul(PASSING_SLOT_BYTES);
            self.passing = total(&[self.passing, passing, text, text, PASSING_BYTES]);
        }
    }

    /// Keeps an order of the next accepted submission at a ring, and counts its bytes. Returns its
    /// index.
    ///
    /// # Errors
    /// `NoMemory` if an allocation fails.
    pub(crate) fn keep_order(
        &mut self,
        alloc: Global,
        from: &Reached,
        order: &[ChainAccess],
    ) -> Result<usize, NoMemory>
        requires { from.now.ring.submissions < MOST_SUBMISSIONS }
    {
        let index = self.orders.len();
        let accesses = order.len().saturating_mul(ACCESS_BYTES);
        self.kept = total(&[self.kept, accesses, ORDER_BYTES]);
        let order = Vec::from_slice(alloc, order)?;
        self.orders.push(Past {
            submission: from.ring.submissions + 1,
            size: from.ring.slots.at.len(),
            order,
            before: from.past,
        })?;
        Ok(index)
    }

    /// Counts a text of `bytes` bytes with the orders at these indices.
    pub(crate) fn count_text(&mut self, bytes: usize, orders: &[usize]) {
        let mut accesses = 0usize;
        for index in orders {
            if let Some(past) = self.orders.get(*index) {
                accesses = accesses.saturating_add(past.order.len());
            }
        }
        let own = bytes.saturating_mul(TEXT_COPIES);
        let places = orders.len().saturating_mul(PLACE_BYTES);
        let listed = accesses.saturating_mul(LISTED_BYTES);
        self.texts = self.texts.saturating_add(1);
        self.after = total(&[self.after, own, places, listed, TEXT_BYTES]);
    }

    // Returns the bytes that are kept, and those that rings take for a time.
    fn bytes(&self) -> usize {
        let passing = self.most_passing.max(self.passing);
        total(&[self.kept, self.before, self.after, passing])
    }

    /// Checks whether one more text may be kept: the first one, and others while the bytes suffice.
    pub(crate) fn has_place(&self, limits: Limits) -> bool {
        self.texts == 0 || self.kept.saturating_add(self.after) < limits.bytes
    }

    /// Checks whether more rings may be kept after a command: if none is, at least a few.
    pub(crate) fn has_room(&self, limits: Limits) -> bool {
        self.rings == 0 || (self.rings < limits.states && self.bytes() < limits.bytes)
    }

    /// Returns what the next search of a submission may use: if texts are kept, the states that are
    /// left and half of the bytes, since the rings that it finds and the commands after them need
    /// room too, and at the first ring after a command at least a little; else the limits.
    pub(crate) fn left_of(&self, setting: &WalkSetting<'_>) -> Limits {
        let limits = setting.limits;
        if !setting.keeps {
            return limits;
        }
        let states = limits.states.saturating_sub(self.states);
        let bytes = limits.bytes.saturating_sub(self.bytes()) / 2;
        if self.rings != 0 {
            return Limits { states, bytes };
        }
        Limits {
            states: states.max(limits.states.min(LAST_STATES)),
            bytes: bytes.max(limits.bytes.min(LAST_BYTES)),
        }
    }
}
