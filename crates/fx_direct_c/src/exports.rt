//! The functions that C calls. Each borrows the handle of a machine, and calls the machine. Keys
//! are bits: a call ignores the kind of the key that it gets, and the keys that it writes have the
//! kind 0.
ghost use Rattle.std.specs.Prelude.{◌≡◌, ◌≢◌, ◌⊎◌, ◌↔◌, ◌≤◌, ◌<◌, true, int_le, nat_lt, pos};
ghost use Rattle.fx_direct.specs.Keys.{key_in_bits};
ghost use Rattle.fx_direct.specs.Phases.{calls_in_flight, lives_of};
ghost use Rattle.fx_direct.specs.Transitions.{completion, machine_with};
ghost use Rattle.fx_direct.specs.declared.key.TheConstants.{MOST_SLOTS};
ghost use Rattle.fx_direct.specs.declared.transition.Transition.TheVariants.{Chains, Opens, Starts, Finishes, Holds, Releases, Closes, FailsToClose};
ghost use Rattle.fx_direct_c.specs.Answers.{AdoptsAs, ChainedAs, ClosesAs, CompletesAs, EndsAs, FinishesAs, MakesAs, OpensMachine, ReservesAs};
ghost use Rattle.fx_direct_c.specs.Answers.{ShowsFirst, ShowsKey, ShowsPhase, StartsAs};
ghost use Rattle.fx_direct_c.specs.declared.codes.TheConstants.{BAD_ARGUMENT, DONE, NO_MEMORY};

use crate::answers::{member_of, name_of, of_adopt, of_close, of_phase, of_refusal, of_reserve};
use crate::codes::{BAD_ARGUMENT, CLOSE, DONE, NO_MEMORY, STALE};
use crate::handle::{MachineHandle, MachinePlace};
use fx_direct::{DirectSlots, LifeKey, MOST_SLOTS, Member, SlotRange};
use std::alloc::Global;

/// Opens a machine of 1 to 1,048,576 slots, and the ring's allocation range: its first slot and its
/// length. It returns `DONE`; `BAD_ARGUMENT` at any other number of slots, or `NO_MEMORY`, and
/// writes nothing. Its name has the major version, so that a program that was compiled with the
/// header of another one doesn't link.
#[unsafe(no_mangle)]
pub extern "C" fn yacht_direct_open_6(
    alloc: Global,
    machine: &mut MachinePlace,
    slots: u32,
    first: u32,
    length: u32,
) -> i32
    ensures opened { result ≡ DONE
        → OpensMachine slots (record { first = first; length = length }) machine.new.slots }
    ensures nothing { result ≢ DONE → machine.new ≡ machine.old }
    ensures out_of_range { (result ≡ BAD_ARGUMENT) ↔ ((slots ≡ 0) ⊎ (MOST_SLOTS < slots)) }
    ensures numbers { (result ≡ DONE) ⊎ (result ≡ BAD_ARGUMENT) ⊎ (result ≡ NO_MEMORY) }
{
    if slots == 0 || slots > MOST_SLOTS {
        return BAD_ARGUMENT;
    }
    let Ok(opened) = DirectSlots::open(alloc, slots, SlotRange { first, length }) else {
        return NO_MEMORY;
    };
    let Ok(owner) = Box::new(alloc, opened) else {
        return NO_MEMORY;
    };
    *machine = MachinePlace::of(owner);
    DONE
}

/// Frees a machine.
#[unsafe(no_mangle)]
pub extern "C" fn yacht_direct_free(machine: MachineHandle) {
    machine.end();
}

/// Begins a life at a free slot, and writes its key and its slot. It returns `DONE`; or `FULL`, or
/// `STOPPED`, and writes nothing.
#[unsafe(no_mangle)]
pub extern "C" fn yacht_direct_reserve(
    machine: &mut MachineHandle,
    key: &mut u64,
    slot: &mut u32,
) -> i32
    ensures { ReservesAs machine.old.slots result key.old key.new slot.old slot.new
        machine.new.slots }
{
    match machine.as_mut().reserve() {
        Ok(begun) => {
            *key = begun.to_bits(0);
            *slot = begun.slot;
            DONE
        }
        Err(why) => of_reserve(why),
    }
}

/// Adopts a file that the kernel has put at a slot of the allocation range, and writes its key. It
/// returns `DONE`; `CLOSE`, if the machine was stopped; or `BAD_ARGUMENT` at any other slot,
/// `NOT_FREE` or `FULL`, and writes nothing.
#[unsafe(no_mangle)]
pub extern "C" fn yacht_direct_adopt(machine: &mut MachineHandle, slot: u32, key: &mut u64) -> i32
    ensures { AdoptsAs machine.old.slots slot result key.old key.new machine.new.slots }
{
    match machine.as_mut().adopt(slot) {
        Ok((adopted, close)) => {
            *key = adopted.to_bits(0);
            match close {
                Some(_) => CLOSE,
                None => DONE,
            }
        }
        Err(why) => of_adopt(why),
    }
}

/// Stops a machine: no life begins by `yacht_direct_reserve`, and each life that becomes live is
/// ended at once.
#[unsafe(no_mangle)]
pub extern "C" fn yacht_direct_stop(machine: &mut MachineHandle)
    ensures { machine.new.slots
        ≡ machine_with machine.old.slots.list machine.old.slots.range true }
{
    machine.as_mut().stop();
}

/// Reports the completion of a key's open, with its result: a negative one installed no file. It
/// returns what `yacht_direct_finish` returns.
#[unsafe(no_mangle)]
pub extern "C" fn yacht_direct_opened(
    machine: &mut MachineHandle,
    key: u64,
    result_of_open: i32,
    slot: &mut u32,
) -> i32
    ensures { FinishesAs machine.old.slots (Opens (key_in_bits key) (int_le (pos 0) result_of_open))
        result slot.old slot.new machine.new.slots }
{
    let its_key = LifeKey::from_bits(key).0;
    of_close(machine.as_mut().opened(its_key, result_of_open >= 0), slot)
}

/// Counts an open, this number of requests and, unless `closes` is 0, a close that are submitted
/// together, and writes the slot. It returns `DONE`; or why it is refused, and writes nothing.
#[unsafe(no_mangle)]
pub extern "C" fn yacht_direct_chain(
    machine: &mut MachineHandle,
    key: u64,
    requests: u32,
    closes: u32,
    slot: &mut u32,
) -> i32
    ensures { StartsAs machine.old.slots (Chains (key_in_bits key) requests (nat_lt 0 closes))
        result slot.old slot.new machine.new.slots }
{
    let its_key = LifeKey::from_bits(key).0;
    match machine.as_mut().chain(its_key, requests, closes > 0) {
        Ok(its_slot) => {
            *slot = its_slot;
            DONE
        }
        Err(why) => of_refusal(why),
    }
}

/// Reports the completion of a chain's member, 0 for its open, 1 for a request, 2 for its close,
/// with its result: a negative one is a failure. It returns what `yacht_direct_finish` returns; or
/// `BAD_ARGUMENT` for another number.
#[unsafe(no_mangle)]
pub extern "C" fn yacht_direct_chained(
    machine: &mut MachineHandle,
    key: u64,
    member: u32,
    result_of_member: i32,
    slot: &mut u32,
) -> i32
    ensures { ChainedAs machine.old.slots (key_in_bits key) member
        (int_le (pos 0) result_of_member) result slot.old slot.new machine.new.slots }
{
    let Some(its_member) = member_of(member) else {
        return BAD_ARGUMENT;
    };
    let its_key = LifeKey::from_bits(key).0;
    if result_of_member >= 0 && machine.as_mut().advance(its_key, its_member) {
        return DONE;
    }
    take_completion(machine, key, its_member, result_of_member, slot)
}

// Reports any completion of a chain's member. The arguments are those of its caller, in the same
// places, so that the call is a jump.
#[inline(never)]
fn take_completion(
    machine: &mut MachineHandle,
    key: u64,
    member: Member,
    result_of_member: i32,
    slot: &mut u32,
) -> i32
    ensures { ClosesAs machine.old.slots
        (completion (key_in_bits key) member (int_le (pos 0) result_of_member)) result slot.old
        slot.new machine.new.slots }
{
    let its_key = LifeKey::from_bits(key).0;
    let succeeded = result_of_member >= 0;
    of_close(machine.as_mut().chained(its_key, member, succeeded), slot)
}

/// Counts a request, and writes the slot. It returns `DONE`; or why it is refused, and writes
/// nothing.
#[unsafe(no_mangle)]
pub extern "C" fn yacht_direct_start(machine: &mut MachineHandle, key: u64, slot: &mut u32) -> i32
    ensures { StartsAs machine.old.slots (Starts (key_in_bits key)) result slot.old slot.new
        machine.new.slots }
{
    match machine.as_mut().start(LifeKey::from_bits(key).0) {
        Ok(its_slot) => {
            *slot = its_slot;
            DONE
        }
        Err(why) => of_refusal(why),
    }
}

/// Reports the completion of a request. It returns `DONE`; `CLOSE`, and writes the slot; or why it
/// is refused.
#[unsafe(no_mangle)]
pub extern "C" fn yacht_direct_finish(machine: &mut MachineHandle, key: u64, slot: &mut u32) -> i32
    ensures { FinishesAs machine.old.slots (Finishes (key_in_bits key)) result slot.old slot.new
        machine.new.slots }
{
    of_close(machine.as_mut().finish(LifeKey::from_bits(key).0), slot)
}

/// Counts a user that is not a request. It returns `DONE`, or why it is refused.
#[unsafe(no_mangle)]
pub extern "C" fn yacht_direct_hold(machine: &mut MachineHandle, key: u64) -> i32
    ensures { MakesAs machine.old.slots (Holds (key_in_bits key)) result machine.new.slots }
{
    match machine.as_mut().hold(LifeKey::from_bits(key).0) {
        Ok(()) => DONE,
        Err(why) => of_refusal(why),
    }
}

/// Reports that such a user is gone. It returns what `yacht_direct_finish` returns.
#[unsafe(no_mangle)]
pub extern "C" fn yacht_direct_release(machine: &mut MachineHandle, key: u64, slot: &mut u32) -> i32
    ensures { ClosesAs machine.old.slots (Releases (key_in_bits key)) result slot.old slot.new
        machine.new.slots }
{
    of_close(machine.as_mut().release(LifeKey::from_bits(key).0), slot)
}

/// Ends the life of a key. It returns what `yacht_direct_finish` returns.
#[unsafe(no_mangle)]
pub extern "C" fn yacht_direct_end(machine: &mut MachineHandle, key: u64, slot: &mut u32) -> i32
    ensures { EndsAs machine.old.slots (key_in_bits key) result slot.old slot.new
        machine.new.slots }
{
    of_close(machine.as_mut().end(LifeKey::from_bits(key).0), slot)
}

/// Reports that the slot is empty after the close of a key. It returns `DONE`, or why it is
/// refused.
#[unsafe(no_mangle)]
pub extern "C" fn yacht_direct_closed(machine: &mut MachineHandle, key: u64) -> i32
    ensures { CompletesAs machine.old.slots (Closes (key_in_bits key)) result machine.new.slots }
{
    match machine.as_mut().closed(LifeKey::from_bits(key).0) {
        Ok(()) => DONE,
        Err(why) => of_refusal(why),
    }
}

/// Reports that the close of a key left the file at its slot. It returns `CLOSE`, and writes the
/// slot; or why it is refused.
#[unsafe(no_mangle)]
pub extern "C" fn yacht_direct_close_failed(
    machine: &mut MachineHandle,
    key: u64,
    slot: &mut u32,
) -> i32
    ensures { FinishesAs machine.old.slots (FailsToClose (key_in_bits key)) result slot.old slot.new
        machine.new.slots }
{
    of_close(
        machine
            .as_mut()
            .close_failed(LifeKey::from_bits(key).0)
            .map(Some),
        slot,
    )
}

/// Returns the phase of the life under a key, and writes its requests in flight and its other
/// users; or `STALE`, and writes nothing.
#[unsafe(no_mangle)]
pub extern "C" fn yacht_direct_phase(
    machine: &mut MachineHandle,
    key: u64,
    requests: &mut u32,
    users: &mut u32,
) -> i32
    ensures shown { ShowsPhase machine.old.slots.list (key_in_bits key) result requests.old
        requests.new users.old users.new }
    ensures same { machine.new.slots ≡ machine.old.slots }
{
    let Some(phase) = machine.as_mut().phase(LifeKey::from_bits(key).0) else {
        return STALE;
    };
    *requests = phase.requests();
    *users = phase.users();
    of_phase(phase)
}

/// Returns the number of lives under way.
#[unsafe(no_mangle)]
pub extern "C" fn yacht_direct_len(machine: &mut MachineHandle) -> u32
    ensures len { result ≡ lives_of machine.old.slots.list }
    ensures same { machine.new.slots ≡ machine.old.slots }
{
    machine.as_mut().len()
}

/// Returns the number of calls in flight.
#[unsafe(no_mangle)]
pub extern "C" fn yacht_direct_in_flight(machine: &mut MachineHandle) -> u64
    ensures calls { result ≡ calls_in_flight machine.old.slots.list }
    ensures same { machine.new.slots ≡ machine.old.slots }
{
    machine.as_mut().in_flight()
}

/// Writes the key of the life under way at a slot, and returns `DONE`; or returns `STALE` if none
/// is, and writes nothing.
#[unsafe(no_mangle)]
pub extern "C" fn yacht_direct_key_at(machine: &mut MachineHandle, slot: u32, key: &mut u64) -> i32
    ensures shown { ShowsKey machine.old.slots.list slot result key.old key.new }
    ensures same { machine.new.slots ≡ machine.old.slots }
{
    let Some(found) = machine.as_mut().key_at(slot) else {
        return STALE;
    };
    *key = found.to_bits(0);
    DONE
}

/// Writes the key of the first life in the phase of this number, at slot `from` or a later one, and
/// returns `DONE`; or returns `STALE` if there is none, or `BAD_ARGUMENT` if no phase has this
/// number, and writes nothing.
#[unsafe(no_mangle)]
pub extern "C" fn yacht_direct_key_in(
    machine: &mut MachineHandle,
    phase: i32,
    from: u32,
    key: &mut u64,
) -> i32
    ensures shown { ShowsFirst machine.old.slots.list phase from result key.old key.new }
    ensures same { machine.new.slots ≡ machine.old.slots }
{
    let Some(name) = name_of(phase) else {
        return BAD_ARGUMENT;
    };
    let Some(found) = machine.as_mut().key_in(name, from) else {
        return STALE;
    };
    *key = found.to_bits(0);
    DONE
}
