//! A player of a flight: it makes a proposed flight move by move, and checks each move.
ghost use Rattle.check_flight.specs.Words.{[], ℕ, Contains, IfOk, IsTrue, List, None, Some, length, option_to_list, IsEmpty, Identity, completed_of};
ghost use Rattle.check_flight.specs.Words.{Answered, FileClosed, AllSettled, Happening, Freed, LookAnswered, happening_of, file_removed_by};
ghost use Rattle.check_flight.specs.Words.{table_of_slots, CallPlan as Plan, HeldFile as TheHold};
ghost use Rattle.std.specs.Prelude.{◌≡◌, ◌++◌, ◌∷◌};
ghost use Rattle.check_flight.specs.Judged.{HaveFlight, log_in};
ghost use Rattle.check_flight.specs.Player.{Follows, IsLookAnswered, IsMarked, MovesOn, begun_by};
ghost use Rattle.check_flight.specs.declared.judged.JudgedLog.{JudgedLog as TheLog};

use crate::judged::JudgedLog;
use crate::made::{amid_after, has_file, is_look_made, is_member_made, is_planned};
use crate::plan::{CallKind, CallPlan, FlightPlan};
use crate::positions::file_number;
use crate::state::remove_file;
use fx_base::{Closed, NoMemory};
use fx_chain::Completion;
use fx_flight::LogEvent;
use fx_order::{Access, Slots};
use indexmap::IndexSet;
use std::alloc::Global;

/// A call of the flight that the player makes.
#[derive(Clone, Copy)]
pub(crate) struct FlightCall<'a> {
    /// The kind.
    pub(crate) kind: CallKind<'a>,
    /// The number of accesses that it has made.
    pub(crate) made: usize,
}

/// A file that a look holds.
#[derive(Clone, Copy)]
pub(crate) struct HeldFile {
    /// The number of the look.
    pub(crate) id: u32,
    /// The file.
    pub(crate) file: Closed,
}

/// The state of the flight that the player makes.
#[derive(Drop)]
pub(crate) struct FlightPlayer<'a> {
    /// The files at the slots.
    pub(crate) slots: Slots,
    /// The calls, the first one first.
    pub(crate) calls: Vec<FlightCall<'a>>,
    /// The files that were taken from their slots and aren't closed.
    pub(crate) removed: Vec<Closed>,
    /// The files that looks hold.
    pub(crate) holds: Vec<HeldFile>,
    /// The numbers of the files that are closed.
    pub(crate) closed: IndexSet<u64>,
    /// The number of the call that is amid a whole update, if one is.
    pub(crate) amid: Option<u32>,
}

// Adds the file that an access takes from its slot.
fn add_removed(removed: &mut Vec<Closed>, access: &Access) -> Result<(), NoMemory>
    ensures { IfOk result (λ _. removed.new.items
        ≡ removed.old.items ++ option_to_list (file_removed_by access.now)) }
{
    let Some(file) = access.removed() else {
        return Ok(());
    };
    removed.push(file)?;
    Ok(())
}

// Checks whether a look holds a file.
fn is_held(holds: &[HeldFile], file: Closed) -> bool
    ensures { (hold : TheHold) → Contains holds.now hold → hold.file ≡ file → IsTrue result }
{
    for hold in holds {
        if hold.file == file {
            return true;
        }
    }
    false
}

// Adds the hold of a look, if it found a file.
fn add_hold(holds: &mut Vec<HeldFile>, id: u32, found: Option<Closed>) -> Result<(), NoMemory>
    ensures kept { IfOk result (λ _. (hold : TheHold) → Contains holds.old.items hold
        → Contains holds.new.items hold) }
    ensures more { IfOk result (λ _. (file : Identity) → found ≡ Some file
        → Contains holds.new.items (record { id = id; file = file })) }
{
    let Some(file) = found else {
        return Ok(());
    };
    holds.push(HeldFile { id, file })?;
    Ok(())
}

impl<'a> FlightPlayer<'a> {
    /// Begins at these slots.
    pub(crate) fn new(alloc: Global, slots: &Slots) -> Result<FlightPlayer<'a>, NoMemory>
        ensures slots { IfOk result (λ player.
            table_of_slots player.slots ≡ table_of_slots slots.now) }
        ensures calls { IfOk result (λ player. player.calls.items ≡ []) }
        ensures removed { IfOk result (λ player. player.removed.items ≡ []) }
        ensures holds { IfOk result (λ player. player.holds.items ≡ []) }
        ensures closed { IfOk result (λ player. IsEmpty player.closed) }
    {
        Ok(FlightPlayer {
            slots: slots.copy(alloc)?,
            calls: Vec::new(alloc),
            removed: Vec::new(alloc),
            holds: Vec::new(alloc),
            closed: IndexSet::new(alloc),
            amid: None,
        })
    }

    // Checks whether a file may be closed, if there is one: a file with its number is.
    fn is_marked(&self, found: Option<Closed>) -> bool
        ensures { (file : Identity) → found ≡ Some file → IsMarked self.now.closed file
            → IsTrue result }
    {
        match found {
            Some(file) => self.closed.get_index_of(&file_number(file)).is_some(),
            None => false,
        }
    }

    // Checks whether another call than this one is amid a whole update.
    fn is_out_of_turn(&self, id: u32) -> bool
        ensures { (other : ℕ) → self.now.amid ≡ Some other → (other ≡ id → ⊥) → IsTrue result }
    {
        match self.amid {
            Some(other) => other != id,
            None => false,
        }
    }

    /// Makes the next access of a call, if it is permitted. Returns whether it is.
    pub(crate) fn access(
        &mut self,
        log: &JudgedLog<'_>,
        plans: &[CallPlan],
        id: u32,
    ) -> Result<bool, NoMemory>
        ensures { IfOk result (λ yes. IsTrue yes → (read : List Happening)
            → MovesOn log.now plans.now read self.old read self.new) }
    {
        let i = (id as usize).saturating_sub(1);
        if id == 0 || i >= self.calls.len() || i >= plans.len() || self.is_out_of_turn(id) {
            return Ok(false);
        }
        let call = self.calls[i];
        let Some(access) = plans[i].accesses.get(call.made) else {
            return Ok(false);
        };
        if !self.slots.permits(access) || self.is_marked(access.removed()) {
            return Ok(false);
        }
        add_removed(&mut self.removed, access)?;
        self.slots.make(access);
        self.calls[i].made = call.made + 1;
        let amid = amid_after(log, &plans[i], call.kind, id, call.made + 1)?;
        self.amid = amid;
        Ok(true)
    }

    // Begins a call. Returns whether it may begin.
    fn begin(
        &mut self,
        log: &JudgedLog<'_>,
        plans: &[CallPlan],
        id: u32,
        kind: CallKind<'a>,
    ) -> Result<bool, NoMemory>
        ensures { IfOk result (λ yes. IsTrue yes
            → Follows log.now plans.now self.old (begun_by id kind.entry) self.new) }
    {
        let i = self.calls.len();
        if id == 0 || id as usize - 1 != i || i >= plans.len() {
            return Ok(false);
        }
        if !is_planned(log, id, kind, &plans[i])? {
            return Ok(false);
        }
        self.calls.push(FlightCall { kind, made: 0 })?;
        Ok(true)
    }

    // Checks whether a look made its access, and found a file that isn't closed, or none.
    fn has_found(&self, size: u32, plans: &[CallPlan], id: u32, found: Option<Closed>) -> bool
        ensures { IsTrue result → IsLookAnswered size plans.now self.now id found }
    {
        let i = (id as usize).saturating_sub(1);
        if id == 0 || i >= self.calls.len() || i >= plans.len() {
            return false;
        }
        let call = self.calls[i];
        let CallKind::Look(slot) = call.kind else {
            return false;
        };
        if self.is_marked(found) {
            return false;
        }
        is_look_made(size, slot, &plans[i].accesses, call.made, found)
    }

    // Notes the answer of a look. Returns whether it may follow.
    fn find(
        &mut self,
        log: &JudgedLog<'_>,
        plans: &[CallPlan],
        id: u32,
        found: Option<Closed>,
    ) -> Result<bool, NoMemory>
        ensures { IfOk result (λ yes. IsTrue yes
            → Follows log.now plans.now self.old (LookAnswered id found) self.new) }
    {
        if !self.has_found(log.setting.size, plans, id, found) {
            return Ok(false);
        }
        add_hold(&mut self.holds, id, found)?;
        Ok(true)
    }

    // Notes that the hold of a look begins to end.
    fn free(&mut self, id: u32)
        ensures { (log : TheLog) (plans : List Plan)
            → Follows log plans self.old (Freed id) self.new }
    {
        self.holds.retain(|hold| hold.id != id);
    }

    // Checks whether an answer may follow.
    fn may_answer(
        &self,
        log: &JudgedLog<'_>,
        plans: &[CallPlan],
        c: &Completion,
    ) -> Result<bool, NoMemory>
        ensures { IfOk result (λ yes. IsTrue yes → Follows log.now plans.now self.now
            (Answered c.now.place.submission (completed_of c.now)) self.now) }
    {
        let id = c.place.submission as usize;
        if id == 0 || id > self.calls.len() || id > plans.len() {
            return Ok(false);
        }
        let call = self.calls[id - 1];
        match call.kind {
            CallKind::Chain(requests) => {
                is_member_made(log, &plans[id - 1], requests, call.made, c)
            }
            CallKind::Look(_) => Ok(false),
        }
    }

    // Closes a file. Returns whether it may be closed.
    fn close(&mut self, file: Closed) -> Result<bool, NoMemory>
        ensures { IfOk result (λ yes. IsTrue yes → (log : TheLog) (plans : List Plan)
            → Follows log plans self.old (FileClosed file) self.new) }
    {
        if !has_file(&self.removed, file) || is_held(&self.holds, file) {
            return Ok(false);
        }
        remove_file(&mut self.removed, file);
        self.closed.insert_full(file_number(file))?;
        Ok(true)
    }

    // Checks whether a wait for all closes may end.
    fn may_settle(&self) -> bool
        ensures { IsTrue result → (log : TheLog) (plans : List Plan)
            → Follows log plans self.now AllSettled self.now }
    {
        self.removed.is_empty()
    }

    // Goes on by an event, if no call is amid a whole update. Returns whether it may follow.
    fn follow(
        &mut self,
        log: &JudgedLog<'_>,
        plans: &[CallPlan],
        event: &'a LogEvent,
    ) -> Result<bool, NoMemory>
        ensures { IfOk result (λ yes. IsTrue yes
            → Follows log.now plans.now self.old (happening_of event.now) self.new) }
    {
        match event {
            LogEvent::Call { id, chain } => {
                self.begin(log, plans, *id, CallKind::Chain(chain.as_slice()))
            }
            LogEvent::Done(c) => self.may_answer(log, plans, c),
            LogEvent::Look { id, slot } => self.begin(log, plans, *id, CallKind::Look(*slot)),
            LogEvent::Found { id, file } => self.find(log, plans, *id, *file),
            LogEvent::Free { id } => {
                self.free(*id);
                Ok(true)
            }
            LogEvent::Closed(file) => self.close(*file),
            LogEvent::Settled => Ok(self.may_settle()),
        }
    }

    /// Goes on by an event. Returns whether it may follow.
    pub(crate) fn event(
        &mut self,
        log: &JudgedLog<'_>,
        plans: &[CallPlan],
        event: &'a LogEvent,
    ) -> Result<bool, NoMemory>
        ensures { IfOk result (λ yes. IsTrue yes → (read : List Happening)
            → MovesOn log.now plans.now read self.old
            (read ++ happening_of event.now ∷ []) self.new) }
    {
        match self.amid {
            Some(_) => Ok(false),
            None => self.follow(log, plans, event),
        }
    }

    // Goes on by the moves of a plan, through all events of the log. Returns whether each of them
    // may be made.
    fn play(&mut self, log: &JudgedLog<'a>, plan: &FlightPlan) -> Result<bool, NoMemory>
        ensures { IfOk result (λ yes. IsTrue yes
            → MovesOn log.now plan.now.calls.items [] self.old (log_in log.now) self.new) }
    {
        let mut at = 0;
        for made in &plan.moves {
            if made.call != 0 {
                if !self.access(log, &plan.calls, made.call)? {
                    return Ok(false);
                }
                continue;
            }
            let Some(event) = log.events.get(at) else {
                return Ok(false);
            };
            if !self.event(log, &plan.calls, event)? {
                return Ok(false);
            }
            at += 1;
        }
        Ok(at == log.events.len())
    }
}

/// Checks whether the moves of a plan are a flight of the log, from these slots on.
pub(crate) fn is_flight(
    log: &JudgedLog<'_>,
    slots: &Slots,
    plan: &FlightPlan,
) -> Result<bool, NoMemory>
    requires { log.now.setting.size ≡ length slots.now.at.items }
    ensures { IfOk result (λ yes. IsTrue yes → HaveFlight log.now slots.now) }
{
    let mut player = FlightPlayer::new(log.setting.alloc, slots)?;
    player.play(log, plan)
}
