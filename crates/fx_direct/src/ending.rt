//! The last step of a call: its slot becomes free, its close is asked for, or its phase is written.
ghost use Rattle.std.specs.Prelude.{◌≡◌, ◌&&◌, ◌<◌, ◌==◌, if◌then◌else◌};
ghost use Rattle.fx_direct.specs.Words.{ℕ, not, false, nat_lt, length, MOST_LIVES};
ghost use Rattle.fx_direct.specs.Machine.{WritesPhase};
ghost use Rattle.fx_direct.specs.Order.{is_among_vacant, is_ranged};
ghost use Rattle.fx_direct.specs.Phases.{Closing, Ending, Free, calls_in, is_free, lives_in, phase_at};
ghost use Rattle.fx_direct.specs.Transitions.{with_phase};

use crate::key::{LifeKey, MOST_LIVES};
use crate::phase::Phase;
use crate::slot_list::SlotList;
use crate::slot_order::SlotOrder;

// Frees the slot of a key, of which one call was in flight. Unless that was its last life, or the
// slot is in the range, it is vacant again.
#[inline(always)]
pub(crate) fn free(list: &mut SlotList, order: &mut SlotOrder, key: LifeKey)
    requires inside { key.slot < length list.old }
    requires same { order.old.size ≡ length list.old }
    requires out { is_among_vacant order.old key.slot ≡ false }
    requires life { lives_in (phase_at list.old key.slot) ≡ 1 }
    requires call { calls_in (phase_at list.old key.slot) ≡ 1 }
    ensures list { list.new ≡ with_phase list.old key Free }
    ensures same { order.new.size ≡ order.old.size }
    ensures range { order.new.range ≡ order.old.range }
    ensures order { (other : ℕ) → other < order.old.size → is_among_vacant order.new other
        ≡
        (if other == key.slot
        then nat_lt key.number MOST_LIVES && not (is_ranged order.old.range key.slot)
        else is_among_vacant order.old other) }
{
    list.end(key);
    if key.number < MOST_LIVES {
        order.put(key.slot);
    }
}

// Asks for the close of a slot, and returns the slot.
#[inline(always)]
pub(crate) fn ask(list: &mut SlotList, key: LifeKey) -> u32
    requires { key.slot < length list.old }
    ensures slot { result ≡ key.slot }
    ensures list { list.new ≡ with_phase list.old key Closing }
{
    list.set(key, Phase::Closing);
    key.slot
}

// Writes the counts of an ending slot. If both are 0, asks for its close, and returns the slot.
#[inline(always)]
pub(crate) fn set_ending(
    list: &mut SlotList,
    key: LifeKey,
    requests: u32,
    users: u32,
) -> Option<u32>
    requires { key.slot < length list.old }
    ensures { WritesPhase list.old key (Ending requests users) result list.new }
{
    if requests == 0 && users == 0 {
        list.set(key, Phase::Closing);
        return Some(key.slot);
    }
    list.set(key, Phase::Ending(requests, users));
    None
}

// Writes the phase of a slot, which is not vacant. If the phase is that of an ending slot without
// requests and users, asks for its close, and returns the slot.
pub(crate) fn write(
    list: &mut SlotList,
    order: &mut SlotOrder,
    key: LifeKey,
    phase: Phase,
) -> Option<u32>
    requires inside { key.slot < length list.old }
    requires same { order.old.size ≡ length list.old }
    requires out { is_among_vacant order.old key.slot ≡ false }
    ensures list { WritesPhase list.old key phase result list.new }
    ensures same { order.new.size ≡ order.old.size }
    ensures range { order.new.range ≡ order.old.range }
    ensures order { (other : ℕ) → other < order.old.size → is_among_vacant order.new other
        ≡
        (if other == key.slot
        then (is_free phase && nat_lt key.number MOST_LIVES)
        && not (is_ranged order.old.range key.slot)
        else is_among_vacant order.old other) }
{
    match phase {
        Phase::Free => {
            list.set(key, phase);
            if MOST_LIVES > key.number {
                order.put(key.slot);
            }
            None
        }
        Phase::Ending(requests, users) => set_ending(list, key, requests, users),
        _ => {
            list.set(key, phase);
            None
        }
    }
}
