//! Opening a table with its workers.
ghost use Rattle.std.specs.Prelude.{◌≡◌, ◌<◌, ◌≤◌, ◌+◌, ◌⊎◌};
ghost use Rattle.fx_server.specs.Words.{All, IfOk, IfErr, Err, None, length, arc_value, MOST_PASSES, BAD_ARGUMENT, NO_MEMORY};
ghost use Rattle.fx_server.specs.Opened.{AreDealt, AreOpened, workers_in};
ghost use Rattle.fx_server.specs.Workers.{IsInRange, IsReady};

use crate::codes::{BAD_ARGUMENT, NO_MEMORY};
use crate::file_numbers::FileNumbers;
use crate::shared::Shared;
use crate::worker::TableWorker;
use fx_lasting::{LastingPass, LastingTable, MOST_INSTALLING, MOST_PASSES, MOST_SLOTS};
use std::alloc::{AllocError, Global};
use std::sync::Arc;

/// Opens a table of 1 to 1,048,576 empty slots, and returns its 1 to 1,024 workers, each in a box.
/// They hold nothing. The first `installing`, 1 to 64, install files.
///
/// # Errors
/// `BAD_ARGUMENT` if a number is out of its range, `NO_MEMORY` if an allocation fails.
pub fn open(
    alloc: Global,
    slots: u32,
    workers: u32,
    installing: u32,
) -> Result<Vec<Box<TableWorker>>, i64>
    ensures opened { IfOk result (λ list.
        AreOpened slots workers installing (workers_in list.items)) }
    ensures count { IfOk result (λ list. length list.items ≡ workers) }
    ensures range { IfOk result (λ list. IsInRange slots workers installing) }
    ensures out_of_range { result ≡ Err BAD_ARGUMENT → IsInRange slots workers installing → ⊥ }
    ensures memory { IfErr result (λ code. (code ≡ BAD_ARGUMENT) ⊎ (code ≡ NO_MEMORY)) }
{
    if slots < 1 || slots > MOST_SLOTS || workers < 1 || workers > MOST_PASSES {
        return Err(BAD_ARGUMENT);
    }
    if installing < 1 || installing > MOST_INSTALLING || installing > workers {
        return Err(BAD_ARGUMENT);
    }
    let opened = LastingTable::open_sparse(alloc, slots, (0, slots), workers, installing);
    let Ok((table, passes)) = opened else {
        return Err(NO_MEMORY);
    };
    let list = share(alloc, Shared { table }, passes, installing)?;
    Ok(list)
}

// Hands each pass to a worker.
fn share(
    alloc: Global,
    shared: Shared,
    passes: Vec<LastingPass>,
    installing: u32,
) -> Result<Vec<Box<TableWorker>>, i64>
    requires few { length passes.items ≤ MOST_PASSES }
    requires ready { All (IsReady shared.table) passes.items }
    ensures dealt { IfOk result (λ list.
        AreDealt shared passes.items installing (workers_in list.items)) }
    ensures memory { IfErr result (λ code. code ≡ NO_MEMORY) }
{
    let Ok(shared) = Arc::new(alloc, shared) else {
        spend(passes);
        return Err(NO_MEMORY);
    };
    let Ok(list) = Vec::with_capacity(alloc, passes.len()) else {
        spend(passes);
        return Err(NO_MEMORY);
    };
    deal(alloc, shared, passes, installing, list)
}

// Turns the passes into workers, in their order.
fn deal(
    alloc: Global,
    shared: Arc<Shared, Global>,
    mut passes: Vec<LastingPass>,
    installing: u32,
    mut workers: Vec<Box<TableWorker>>,
) -> Result<Vec<Box<TableWorker>>, i64>
    requires none { length workers.items ≡ 0 }
    requires few { length passes.items ≤ MOST_PASSES }
    requires ready { All (IsReady (arc_value shared).table) passes.items }
    ensures dealt { IfOk result (λ list.
        AreDealt (arc_value shared) passes.items installing (workers_in list.items)) }
    ensures memory { IfErr result (λ code. code ≡ NO_MEMORY) }
{
    passes.reverse();
    while let Some(pass) = passes.pop() {
        let numbers = FileNumbers::first(installing, workers.len() as u32 + 1);
        let Ok(worker) = begin(alloc, &shared, pass, numbers) else {
            spend(passes);
            return Err(NO_MEMORY);
        };
        let Ok(()) = workers.push(worker) else {
            spend(passes);
            return Err(NO_MEMORY);
        };
    }
    passes.destroy_empty();
    Ok(workers)
}

// Returns a worker that holds nothing.
fn begin(
    alloc: Global,
    shared: &Arc<Shared, Global>,
    pass: LastingPass,
    numbers: FileNumbers,
) -> Result<Box<TableWorker>, AllocError>
    requires ready { IsReady (arc_value shared.now).table pass }
    ensures table { IfOk result (λ b. b.value.shared ≡ arc_value shared.now) }
    ensures pass { IfOk result (λ b. b.value.pass ≡ pass) }
    ensures idle { IfOk result (λ b. b.value.held ≡ None) }
    ensures numbers { IfOk result (λ b. b.value.numbers ≡ numbers) }
{
    let Ok(shared) = Arc::try_clone(shared) else {
        pass.abandon();
        return Err(AllocError);
    };
    let worker = TableWorker {
        shared,
        pass,
        held: None,
        numbers,
    };
    let Ok(worker) = Box::new(alloc, worker) else {
        return Err(AllocError);
    };
    Ok(worker)
}

// Consumes the passes of a table that is not opened after all.
fn spend(mut passes: Vec<LastingPass>) {
    while let Some(pass) = passes.pop() {
        pass.abandon();
    }
    passes.destroy_empty();
}
