//! The player of requests, on any table that threads share.
ghost use Rattle.std.specs.Prelude.{◌≡◌, ◌<◌, length, ◌+◌, ◌≤◌, false, vec_len, vec_capacity};
ghost use Rattle.fx_chain.specs.Completed.{completed_of, all_completed};
ghost use Rattle.fx_chain.specs.Contexts.{IsSamePlayer, IsReady, player_view};
ghost use Rattle.fx_chain.specs.Intents.{installs_of, weight_of};
ghost use Rattle.fx_chain.specs.Operation.{asked_of, operation_of, all_asked};
ghost use Rattle.fx_chain.specs.Performs.{AnswersNext, Performs, PlaysChain, player};
ghost use Rattle.fx_chain.specs.Weights.{all_installs, all_weights};
ghost use Rattle.fx_table.specs.Pass.{IsIdle};

use crate::completion::{Completion, Place};
use crate::context::{Context, Player};
use crate::gate::Gate;
use crate::request::Request;
use crate::steps::answer;
use fx_base::{Catalogue, CloseList, Errno};
use fx_table::FileTable;
use std::alloc::Global;
use std::sync::Wait;

/// Performs a request at its place, and returns its completion. The pass looks its file up,
/// installs it or removes it, and each file that it closes is appended to the list of closes.
/// Afterwards the pass is idle again.
///
/// Requires that the pass is idle (`is_idle`), has a look-up left (`looks_left`) and as many
/// numbers as the request has [`Request::installs`] (`numbers_left`), and that the list has room
/// for its [`Request::weight`] (`room`).
///
/// It allocates only the buffer of a read. If that allocation fails, the read completes with
/// ENOMEM.
pub fn perform<T: FileTable>(
    rt: &impl Wait,
    alloc: Global,
    table: &T,
    pass: &mut T::Pass,
    catalogue: &Catalogue,
    place: Place,
    request: &Request,
    closes: &mut CloseList,
) -> Completion
    requires fits { T.fits table.now pass.old }
    requires idle { IsIdle (T.view pass.old) }
    requires looks { 0 < (T.view pass.old).looks_left }
    requires numbers { installs_of (operation_of request.now.op) ≤ (T.view pass.old).numbers_left }
    requires room { weight_of (operation_of request.now.op) ≤ closes.old.room }
    ensures fits { T.fits table.now pass.new }
    ensures performed { Performs (T.opening table.now) catalogue.now place (asked_of request.now)
        (player (T.view pass.old) closes.old) (completed_of result)
        (player (T.view pass.new) closes.new) }
{
    let context = Context {
        rt,
        alloc,
        table,
        catalogue,
        place,
    };
    answer(&context, &mut Player { pass, closes }, request)
}

// Performs a chain's next member, or cancels it after one that severed the chain.
fn next_answer<T: FileTable, R: Wait, G: Gate>(
    context: &Context<'_, T, R>,
    player: &mut Player<'_, T::Pass>,
    gate: &G,
    request: &Request,
    severed: bool,
) -> Completion
    requires ready { IsReady T.view (T.fits context.now.table.now) player.old 1
        (installs_of (operation_of request.now.op)) (weight_of (operation_of request.now.op)) }
    ensures kept { IsSamePlayer (T.fits context.now.table.now) player.old player.new }
    ensures answered { AnswersNext (T.opening context.now.table.now) context.now.catalogue.now
        context.now.place severed (asked_of request.now) (player_view T.view player.old)
        (completed_of result) (player_view T.view player.new) }
{
    if severed {
        return context.refusal(Errno::ECANCELED);
    }
    gate.before(context.place);
    let completion = answer(context, player, request);
    gate.after(context.place);
    completion
}

// Returns the number of members of a chain. The pass has a look-up for each, and counts its
// look-ups in a u32.
fn members<T: FileTable>(table: &T, pass: &T::Pass, requests: &[Request]) -> u32
    requires fits { T.fits table.now pass.now }
    requires looks { length requests.now ≤ (T.view pass.now).looks_left }
    ensures { result ≡ length requests.now }
{
    requests.len().min(table.looks_left(pass) as usize) as u32
}

/// Plays the members of a chain, one after another, and appends a completion for each, at its
/// place, to `out`. After a member that severs the chain ([`Request::severs`]) the later ones never
/// start and complete with ECANCELED (io_uring_enter(2), "IOSQE_IO_LINK", "IOSQE_IO_HARDLINK"). A
/// chain without members makes no step. The gate's `before` is called before each member that
/// starts, and its `after` after that member's completion.
///
/// Requires that the pass is idle (`is_idle`), has a look-up for each member (`looks_left`) and a
/// number for each file that they install ([`Request::installs`], `numbers_left`), that the list
/// has room for all files that they may close ([`Request::weight`], `room`), and that `out` has
/// reserved room for a completion of each.
///
/// It allocates only the buffers of reads.
pub fn run_chain<T: FileTable, G: Gate>(
    rt: &impl Wait,
    alloc: Global,
    table: &T,
    pass: &mut T::Pass,
    catalogue: &Catalogue,
    submission: u32,
    chain: u32,
    requests: &[Request],
    gate: &G,
    out: &mut Vec<Completion>,
    closes: &mut CloseList,
)
    requires fits { T.fits table.now pass.old }
    requires idle { IsIdle (T.view pass.old) }
    requires looks { length requests.now ≤ (T.view pass.old).looks_left }
    requires numbers { all_installs (all_asked requests.now) ≤ (T.view pass.old).numbers_left }
    requires room { all_weights (all_asked requests.now) ≤ closes.old.room }
    requires out { vec_len out.old + length requests.now ≤ vec_capacity out.old }
    ensures fits { T.fits table.now pass.new }
    ensures played { PlaysChain (T.opening table.now) catalogue.now submission chain
        (all_asked requests.now) (player (T.view pass.old) closes.old) (all_completed out.old.items)
        (player (T.view pass.new) closes.new) (all_completed out.new.items) }
    ensures count { vec_len out.new ≡ vec_len out.old + length requests.now }
    ensures capacity { vec_capacity out.old ≤ vec_capacity out.new }
{
    let count = members(table, pass, requests);
    let mut player = Player { pass, closes };
    let mut severed = false;
    for i in 0..count {
        let request = &requests[i as usize];
        let place = Place {
            submission,
            chain,
            member: i + 1,
        };
        let context = Context {
            rt,
            alloc,
            table,
            catalogue,
            place,
        };
        let completion = next_answer(&context, &mut player, gate, request, severed);
        severed |= request.severs(&completion);
        out.push_reserved(completion);
    }
}
