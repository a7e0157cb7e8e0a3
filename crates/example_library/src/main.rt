//! The examples, each in a file of its own. `first.rt` goes from nothing to a full table. In
//! `tasks.rt` two threads share one and do what a server does: they learn that a file is
//! closed, open files until the table is full, and replace a file under load. After that come a
//! table that never has to be closed (`lasting.rt`), files that are named by keys (`keys.rt`), the
//! order between two threads (`hand_over.rt`), and the verdicts on two logs (`flight.rt`).
#![tactic(auto)]

ghost use Rattle.std.specs.Prelude.{◌<◌, length};

mod closes;
mod first;
mod flight;
mod hand_over;
mod keys;
mod lasting;
mod tasks;

use fx_base::{AddFault, Catalogue, NoMemory};
use std::alloc::Global;
use std::sync::Wait;
use std::thread::Threads;

// Runs the examples of tables, one after another.
fn run<R: Threads + Wait + Sync + Print>(
    rt: &R,
    alloc: Global,
    catalogue: &Catalogue,
) -> Result<(), NoMemory>
    requires { 1 < length catalogue.now }
{
    first::run(rt, alloc, catalogue)?;
    tasks::run(rt, alloc, catalogue)?;
    lasting::replace_while_looked_up(rt, alloc, catalogue)?;
    keys::share_by_key(rt, alloc, catalogue)?;
    if let Some(entry) = hand_over::hand_over_once(rt, alloc, catalogue)? {
        let _ = println!(rt; "one thread put entry 1, and another one found entry {entry}");
    }
    Ok(())
}

fn main(rt: HostRuntime) -> Result<(), AddFault> {
    let catalogue = first::two_files(rt.alloc())?;
    match run(&rt, rt.alloc(), &catalogue) {
        Ok(()) => flight::judge_logs(&rt, rt.alloc()),
        Err(NoMemory) => Err(AddFault::NoMemory),
    }
}
