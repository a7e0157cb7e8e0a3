//! All states that flights reach at one slot alone, from event to event. Accesses are made as late
//! as possible: at the answer or the close that needs them. An access that changes nothing is made
//! as soon as it finds its answer. Nothing is proved of it.

use crate::act::{Act, act_of, place_of};
use crate::front::mixed;
use crate::judged::JudgedLog;
use crate::positions::{file_number, install_place};
use fx_base::{Closed, Errno, NoMemory};
use fx_chain::{Request, intent_of};
use fx_flight::LogEvent;
use indexmap::IndexSet;
use std::alloc::Global;

// The largest number of states between two events.
const MOST_STATES: usize = 20_000;

// The accesses of a call at the slot, each with the number of its member.
type Acts<'a> = Vec<(u32, Act<'a>)>;

// A call that isn't over, and its accesses.
#[derive(Drop)]
struct SlotCall<'a> {
    id: u32,
    acts: Acts<'a>,
}

// The file at the slot, and the number of accesses that each call made.
#[derive(Drop)]
struct SlotState {
    file: Option<Closed>,
    made: Vec<usize>,
}

// The condition for an event: a call made at least this many accesses, and a file left the slot.
#[derive(Clone, Copy)]
struct Need {
    call: Option<(usize, usize)>,
    gone: Option<Closed>,
}

/// The states at one slot.
#[derive(Drop)]
pub(crate) struct SlotRun<'a> {
    alloc: Global,
    slot: u32,
    // Answers from this position on are unknown.
    horizon: usize,
    calls: Vec<SlotCall<'a>>,
    front: Vec<SlotState>,
    // The number of files that answered calls installed here and that aren't closed.
    unclosed: usize,
    /// True if there were too many states, or no move was left.
    pub(crate) is_over: bool,
}

impl SlotState {
    // Returns a number of the state, which states seldom share.
    fn key(&self) -> u64 {
        let mut key = self.file.map_or(0, |file| mixed(1, file_number(file)));
        for made in &self.made {
            key = mixed(key, *made as u64);
        }
        key
    }

    // Checks whether an event that needs this is possible.
    fn meets(&self, need: Need) -> bool {
        if need.gone.is_some() && self.file == need.gone {
            return false;
        }
        match need.call {
            Some((j, needed)) => self.made.get(j).is_some_and(|made| *made >= needed),
            None => true,
        }
    }

    // Makes each access that changes nothing and finds its answer.
    fn observe(&mut self, log: &JudgedLog<'_>, calls: &[SlotCall<'_>]) -> Result<(), NoMemory> {
        for (j, call) in calls.iter().enumerate() {
            for _ in 0..call.acts.len() {
                let Some(made) = self.made.get_mut(j) else {
                    break;
                };
                let Some((_, act)) = call.acts.get(*made) else {
                    break;
                };
                if !act.is_seen(log, self.file)? {
                    break;
                }
                *made = made.saturating_add(1);
            }
        }
        Ok(())
    }
}

impl<'a> SlotRun<'a> {
    /// Returns the state before the first event.
    pub(crate) fn new(
        alloc: Global,
        slot: u32,
        file: Option<Closed>,
        horizon: usize,
    ) -> Result<SlotRun<'a>, NoMemory> {
        let mut front = Vec::new(alloc);
        let made = Vec::new(alloc);
        front.push(SlotState { file, made })?;
        Ok(SlotRun {
            alloc,
            slot,
            horizon,
            calls: Vec::new(alloc),
            front,
            unclosed: usize::from(file.is_some()),
            is_over: false,
        })
    }

    /// Checks whether no state is left.
    pub(crate) fn is_empty(&self) -> bool {
        self.front.is_empty()
    }

    // Returns the accesses of a call at the slot.
    fn acts_of(&self, log: &JudgedLog<'a>, id: u32) -> Result<Acts<'a>, NoMemory> {
        let mut acts = Vec::new(self.alloc);
        let chain: &'a [Request] = match log.call(id) {
            Some(LogEvent::Call { chain, .. }) => chain.as_slice(),
            Some(LogEvent::Look { slot, .. }) if *slot == self.slot => {
                if let Some(found) = log.found_before(id, self.horizon) {
                    acts.push((1, Act::Finds(found)))?;
                }
                &[]
            }
            _ => &[],
        };
        let (catalogue, size) = (log.setting.catalogue, log.setting.size);
        for (n, request) in chain.iter().enumerate() {
            let place = place_of(id, n);
            let answer = log.answer_before(place, self.horizon);
            if answer.is_some_and(|c| c.is_error(Errno::ECANCELED)) {
                break;
            }
            for access in 0..request.accesses() {
                if let Some(intent) = intent_of(catalogue, size, place, request, access)
                    && let Some(act) = act_of(self.slot, intent, request, answer)
                {
                    acts.push((place.member, act))?;
                }
            }
        }
        Ok(acts)
    }

    // Returns the states to which an access leads from each state.
    fn nexts(&self, log: &JudgedLog<'a>, state: &SlotState) -> Result<Vec<SlotState>, NoMemory> {
        let mut nexts = Vec::new(self.alloc);
        for (j, call) in self.calls.iter().enumerate() {
            for elsewhere in [false, true] {
                if let Some(made) = state.made.get(j)
                    && let Some((_, act)) = call.acts.get(*made)
                    && let Some(file) = act.left(state.file, elsewhere)
                {
                    let made = Vec::from_slice(self.alloc, &state.made)?;
                    let mut next = SlotState { file, made };
                    if let Some(made) = next.made.get_mut(j) {
                        *made = made.saturating_add(1);
                    }
                    next.observe(log, &self.calls)?;
                    nexts.push(next)?;
                }
            }
        }
        Ok(nexts)
    }

    // Goes on to the first states that accesses reach in which an event is possible.
    fn reach(&mut self, log: &JudgedLog<'a>, need: Need) -> Result<(), NoMemory> {
        if self.front.iter().all(|state| state.meets(need)) {
            return Ok(());
        }
        let mut known = IndexSet::new(self.alloc);
        let mut all = std::mem::replace(&mut self.front, Vec::new(self.alloc));
        for state in &all {
            known.insert_full(state.key())?;
        }
        for at in 0..MOST_STATES {
            let Some(state) = all.get(at) else {
                return Ok(());
            };
            if !log.moves.spend() {
                break;
            }
            if state.meets(need) {
                let (file, made) = (state.file, Vec::from_slice(self.alloc, &state.made)?);
                self.front.push(SlotState { file, made })?;
                continue;
            }
            for next in self.nexts(log, state)? {
                let (_, is_new) = known.insert_full(next.key())?;
                if is_new {
                    all.push(next)?;
                }
            }
        }
        self.is_over = true;
        Ok(())
    }

    // Forgets a call that is over, and states that differ in it alone.
    fn forget(&mut self, j: usize) -> Result<(), NoMemory> {
        if j < self.calls.len() {
            self.calls.remove(j);
        }
        let mut known = IndexSet::new(self.alloc);
        let all = std::mem::replace(&mut self.front, Vec::new(self.alloc));
        for mut state in all {
            if j < state.made.len() {
                state.made.remove(j);
            }
            let (_, is_new) = known.insert_full(state.key())?;
            if is_new {
                self.front.push(state)?;
            }
        }
        Ok(())
    }

    // Goes on by a call.
    fn begin(&mut self, log: &JudgedLog<'a>, id: u32) -> Result<(), NoMemory> {
        let acts = self.acts_of(log, id)?;
        if acts.is_empty() {
            return Ok(());
        }
        self.calls.push(SlotCall { id, acts })?;
        for state in self.front.iter_mut() {
            state.made.push(0)?;
            state.observe(log, &self.calls)?;
        }
        Ok(())
    }

    // Goes on by the answer of a member.
    fn answer(
        &mut self,
        log: &JudgedLog<'a>,
        at: usize,
        id: u32,
        member: u32,
    ) -> Result<(), NoMemory> {
        let Some(j) = self.calls.iter().position(|call| call.id == id) else {
            return Ok(());
        };
        let Some(call) = self.calls.get(j) else {
            return Ok(());
        };
        let (mut needed, count) = (0usize, call.acts.len());
        for (own, act) in &call.acts {
            needed = needed.saturating_add(usize::from(*own <= member));
            if *own == member
                && let Some(file) = act.file()
                && !log.positions.close_of(file).is_some_and(|close| close < at)
            {
                self.unclosed = self.unclosed.saturating_add(1);
            }
        }
        let (call, gone) = (Some((j, needed)), None);
        self.reach(log, Need { call, gone })?;
        if needed < count {
            return Ok(());
        }
        self.forget(j)
    }

    // Goes on by the close of a file.
    fn close(&mut self, log: &JudgedLog<'a>, at: usize, file: Closed) -> Result<(), NoMemory> {
        let (id, member) = install_place(file);
        let acts = self.acts_of(log, id)?;
        let made = acts.iter().position(|(_, act)| act.file() == Some(file));
        if made.is_some() && log.positions.answer_of(id, member) < at {
            self.unclosed = self.unclosed.saturating_sub(1);
        }
        let open = self.calls.iter().position(|call| call.id == id);
        let call = match (open, made) {
            (Some(j), Some(made)) => Some((j, made.saturating_add(1))),
            _ => None,
        };
        let gone = Some(file);
        self.reach(log, Need { call, gone })
    }

    /// Goes on by the event at a position.
    pub(crate) fn go_on(&mut self, log: &JudgedLog<'a>, at: usize) -> Result<(), NoMemory> {
        match log.events.get(at) {
            Some(LogEvent::Call { id, .. } | LogEvent::Look { id, .. }) => self.begin(log, *id),
            Some(LogEvent::Done(c)) => self.answer(log, at, c.place.submission, c.place.member),
            Some(LogEvent::Found { id, .. }) => self.answer(log, at, *id, 1),
            Some(LogEvent::Closed(file)) => self.close(log, at, *file),
            Some(LogEvent::Settled) => {
                let unclosed = self.unclosed;
                self.front
                    .retain(|state| usize::from(state.file.is_some()) == unclosed);
                Ok(())
            }
            _ => Ok(()),
        }
    }
}
