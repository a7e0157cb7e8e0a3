//! The steps of each kind of request on a shared table.
ghost use Rattle.std.specs.List.{list_any};
ghost use Rattle.std.specs.Prelude.{◌≡◌, ◌<◌, ◌^◌, None, length, ◌+◌, ◌≤◌, false};
ghost use Rattle.fx_chain.specs.Answers.{AnswersAtTable, OpensAt, ReadsAt, AppliesAt, AppliesEntry};
ghost use Rattle.fx_chain.specs.Answers.{AppliesList, TakesAt};
ghost use Rattle.fx_chain.specs.Completed.{completed_of};
ghost use Rattle.fx_chain.specs.Contexts.{PlayerActs, IsSamePlayer, IsReady, player_view};
ghost use Rattle.fx_chain.specs.Intents.{entry_installs, installs_of, list_installs, weight_of};
ghost use Rattle.fx_chain.specs.Operation.{Opens, Reads, Updates, asked_of, operation_of};
ghost use Rattle.fx_chain.specs.Performs.{Performs};
ghost use Rattle.fx_chain.specs.Refusal.{refusal_of, is_bad_entry};
ghost use Rattle.fx_chain.specs.declared.request.Target.TheVariants.{Slot, Any};
ghost use Rattle.fx_table.specs.Opening.{size_of};

use crate::completion::Completion;
use crate::context::{Context, Player};
use crate::removal::{clear, put, release, take};
use crate::request::{Op, Request, Target, refusal_of};
use fx_base::{Errno, MOST_ENTRIES};
use fx_table::{FileTable, LookFault};
use std::sync::Wait;

// Opens a catalogue entry at a slot.
fn open_at<T: FileTable, R: Wait>(
    context: &Context<'_, T, R>,
    player: &mut Player<'_, T::Pass>,
    entry: u8,
    slot: u32,
) -> Completion
    requires entry { entry < length context.now.catalogue.now }
    requires slot { slot < size_of (T.opening context.now.table.now) }
    requires ready { IsReady T.view (T.fits context.now.table.now) player.old 0 1 1 }
    ensures kept { IsSamePlayer (T.fits context.now.table.now) player.old player.new }
    ensures opened { PlayerActs (T.opening context.now.table.now) T.view player.old 0 1 1
        (λ actions. OpensAt context.now.place entry (Slot slot) actions (completed_of result))
        player.new }
{
    let file = context.catalogue.open(entry, context.place.mark(0), 0);
    put(context, player, slot, file);
    context.number(0)
}

// Opens a catalogue entry at any empty slot of the allocation range.
fn open_any<T: FileTable, R: Wait>(
    context: &Context<'_, T, R>,
    player: &mut Player<'_, T::Pass>,
    entry: u8,
) -> Completion
    requires size { size_of (T.opening context.now.table.now) < 2 ^ 31 }
    requires entry { entry < length context.now.catalogue.now }
    requires ready { IsReady T.view (T.fits context.now.table.now) player.old 0 1 1 }
    ensures kept { IsSamePlayer (T.fits context.now.table.now) player.old player.new }
    ensures opened { PlayerActs (T.opening context.now.table.now) T.view player.old 0 1 1
        (λ actions. OpensAt context.now.place entry Any actions (completed_of result)) player.new }
{
    let file = context.catalogue.open(entry, context.place.mark(0), 0);
    match context.table.put_any(context.rt, player.pass, file) {
        Ok(slot) => context.number(slot),
        Err(file) => {
            file.discard();
            context.refusal(Errno::ENFILE)
        }
    }
}

// Opens the catalogue entry of a name.
pub(crate) fn open<T: FileTable, R: Wait>(
    context: &Context<'_, T, R>,
    player: &mut Player<'_, T::Pass>,
    name: &str,
    target: Target,
) -> Completion
    requires size { size_of (T.opening context.now.table.now) < 2 ^ 31 }
    requires accepted { refusal_of context.now.catalogue.now
        (size_of (T.opening context.now.table.now)) (Opens name.now target) ≡ None }
    requires ready { IsReady T.view (T.fits context.now.table.now) player.old 0 1 1 }
    ensures kept { IsSamePlayer (T.fits context.now.table.now) player.old player.new }
    ensures opened { PlayerActs (T.opening context.now.table.now) T.view player.old 0 1 1
        (λ actions. AnswersAtTable context.now.catalogue.now context.now.place
        (Opens name.now target) actions (completed_of result)) player.new }
{
    let Some(entry) = context.catalogue.find(name) else {
        unreachable!();
    };
    match target {
        Target::Slot(slot) => open_at(context, player, entry, slot),
        Target::Any => open_any(context, player, entry),
    }
}

// Reads a part of the file at a slot. The buffer is allocated before the look-up, so that no file
// is held during the allocation.
pub(crate) fn read<T: FileTable, R: Wait>(
    context: &Context<'_, T, R>,
    player: &mut Player<'_, T::Pass>,
    slot: u32,
    off: u32,
    len: u32,
) -> Completion
    requires accepted { refusal_of context.now.catalogue.now
        (size_of (T.opening context.now.table.now)) (Reads slot off len) ≡ None }
    requires ready { IsReady T.view (T.fits context.now.table.now) player.old 1 0 1 }
    ensures kept { IsSamePlayer (T.fits context.now.table.now) player.old player.new }
    ensures read { PlayerActs (T.opening context.now.table.now) T.view player.old 1 0 1
        (λ actions. ReadsAt context.now.catalogue.now context.now.place slot off len actions
        (completed_of result)) player.new }
{
    let mut got = Vec::new(context.alloc);
    if got.reserve_exact(len as usize).is_err() {
        return context.refusal(Errno::ENOMEM);
    }
    match context.table.look(context.rt, player.pass, slot) {
        Err(LookFault::Empty) => context.refusal(Errno::EBADF),
        Err(LookFault::Spent) => unreachable!(),
        Ok(hold) => {
            let res = context.catalogue.read_into(hold.entry, off, len, &mut got) as i32;
            release(context, player, hold);
            Completion {
                place: context.place,
                res,
                got,
            }
        }
    }
}

// Empties a slot.
fn close<T: FileTable, R: Wait>(
    context: &Context<'_, T, R>,
    player: &mut Player<'_, T::Pass>,
    slot: u32,
) -> Completion
    requires slot { slot < size_of (T.opening context.now.table.now) }
    requires ready { IsReady T.view (T.fits context.now.table.now) player.old 0 0 1 }
    ensures kept { IsSamePlayer (T.fits context.now.table.now) player.old player.new }
    ensures emptied { PlayerActs (T.opening context.now.table.now) T.view player.old 0 0 1
        (λ actions. TakesAt context.now.place slot actions (completed_of result)) player.new }
{
    if !take(context, player, slot) {
        return context.refusal(Errno::EBADF);
    }
    context.number(0)
}

// Applies one entry: -1 empties its slot, -2 leaves it as it is, and any other number installs that
// catalogue entry.
fn apply_entry<T: FileTable, R: Wait>(
    context: &Context<'_, T, R>,
    player: &mut Player<'_, T::Pass>,
    in_list: u32,
    slot: u32,
    entry: i32,
)
    requires slot { slot < size_of (T.opening context.now.table.now) }
    requires entries { length context.now.catalogue.now ≤ MOST_ENTRIES }
    requires good { is_bad_entry (length context.now.catalogue.now) entry ≡ false }
    requires ready { IsReady T.view (T.fits context.now.table.now) player.old 0
        (entry_installs entry) 1 }
    ensures kept { IsSamePlayer (T.fits context.now.table.now) player.old player.new }
    ensures applied { PlayerActs (T.opening context.now.table.now) T.view player.old 0
        (entry_installs entry) 1
        (λ actions. AppliesEntry context.now.place in_list slot entry actions) player.new }
{
    if entry >= 0 {
        let mark = context.place.mark(in_list);
        let file = context.catalogue.open(entry as u8, mark, 0);
        put(context, player, slot, file);
        return;
    }
    if entry > -2 {
        clear(context, player, slot);
    }
}

// Applies the entries of a list, in order.
fn apply_list<T: FileTable, R: Wait>(
    context: &Context<'_, T, R>,
    player: &mut Player<'_, T::Pass>,
    off: u32,
    list: &[i32],
)
    requires slots { off + length list.now ≤ size_of (T.opening context.now.table.now) }
    requires size { size_of (T.opening context.now.table.now) < 2 ^ 32 }
    requires entries { length context.now.catalogue.now ≤ MOST_ENTRIES }
    requires good { list_any (is_bad_entry (length context.now.catalogue.now)) list.now ≡ false }
    requires ready { IsReady T.view (T.fits context.now.table.now) player.old 0
        (list_installs list.now) (length list.now) }
    ensures kept { IsSamePlayer (T.fits context.now.table.now) player.old player.new }
    ensures applied { PlayerActs (T.opening context.now.table.now) T.view player.old 0
        (list_installs list.now) (length list.now)
        (λ actions. AppliesList context.now.place 0 off list.now actions) player.new }
{
    for (i, entry) in list.iter().enumerate() {
        let in_list = i as u32;
        apply_entry(context, player, in_list, off + in_list, *entry);
    }
}

// Updates the slots from `off` on by a list (io_uring_register_files(3),
// `io_uring_register_files_update`). The result is the length of the list.
pub(crate) fn update<T: FileTable, R: Wait>(
    context: &Context<'_, T, R>,
    player: &mut Player<'_, T::Pass>,
    off: u32,
    list: &[i32],
) -> Completion
    requires size { size_of (T.opening context.now.table.now) < 2 ^ 31 }
    requires entries { length context.now.catalogue.now ≤ MOST_ENTRIES }
    requires accepted { refusal_of context.now.catalogue.now
        (size_of (T.opening context.now.table.now)) (Updates off list.now) ≡ None }
    requires ready { IsReady T.view (T.fits context.now.table.now) player.old 0
        (list_installs list.now) (length list.now) }
    ensures kept { IsSamePlayer (T.fits context.now.table.now) player.old player.new }
    ensures updated { PlayerActs (T.opening context.now.table.now) T.view player.old 0
        (list_installs list.now) (length list.now) (λ actions. AppliesAt context.now.place
        off list.now actions (completed_of result)) player.new }
{
    apply_list(context, player, off, list);
    context.number(list.len() as u32)
}

// Performs a request at the context's place.
pub(crate) fn answer<T: FileTable, R: Wait>(
    context: &Context<'_, T, R>,
    player: &mut Player<'_, T::Pass>,
    request: &Request,
) -> Completion
    requires ready { IsReady T.view (T.fits context.now.table.now) player.old 1
        (installs_of (operation_of request.now.op)) (weight_of (operation_of request.now.op)) }
    ensures kept { IsSamePlayer (T.fits context.now.table.now) player.old player.new }
    ensures performed { Performs (T.opening context.now.table.now) context.now.catalogue.now
        context.now.place (asked_of request.now) (player_view T.view player.old)
        (completed_of result) (player_view T.view player.new) }
{
    if let Some(errno) = refusal_of(context.catalogue, context.table.size(), request) {
        return context.refusal(errno);
    }
    match &request.op {
        Op::Open { name, target } => open(context, player, name.as_str(), *target),
        Op::Read { slot, off, len } => read(context, player, *slot, *off, *len),
        Op::Close { slot } => close(context, player, *slot),
        Op::Update { off, list } => update(context, player, *off, list.as_slice()),
    }
}
