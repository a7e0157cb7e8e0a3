//! The workers of a new table in their places.
ghost use Rattle.std.specs.Prelude.{◌≡◌, ◌≢◌, ◌⊎◌};
ghost use Rattle.fx_server.specs.Words.{Some, length, map, DONE, BAD_ARGUMENT, NO_MEMORY};
ghost use Rattle.fx_server.specs.Opened.{workers_in};
ghost use Rattle.fx_server.specs.Places.{OpensAs, workers_at};
ghost use Rattle.fx_server.specs.Workers.{IsInRange};

use crate::codes::{BAD_ARGUMENT, DONE};
use crate::handle::WorkerPlace;
use crate::opening::open;
use crate::worker::TableWorker;
use std::alloc::Global;

/// Puts each worker into its place, in their order.
pub fn place_all(mut workers: Vec<Box<TableWorker, Global>>, places: &mut [WorkerPlace])
    requires count { length workers.items ≡ length places.old }
    ensures placed { workers_at places.new ≡ map Some (workers_in workers.items) }
{
    while let Some(worker) = workers.pop() {
        places[workers.len()] = WorkerPlace::of(worker);
    }
}

/// Opens a table of 1 to 1,048,576 empty slots, with a worker for each of the 1 to 1,024 places of
/// `workers`. The first `installing` of them, 1 to 64, install files. It returns `DONE`; or
/// `BAD_ARGUMENT` or `NO_MEMORY`, and writes nothing.
pub fn open_places(alloc: Global, slots: u32, installing: u32, workers: &mut [WorkerPlace]) -> i64
    ensures opened { result ≡ DONE → OpensAs slots installing workers.new }
    ensures nothing { result ≢ DONE → workers.new ≡ workers.old }
    ensures out_of_range { result ≡ BAD_ARGUMENT → IsInRange slots (length workers.old) installing → ⊥ }
    ensures numbers { (result ≡ DONE) ⊎ (result ≡ BAD_ARGUMENT) ⊎ (result ≡ NO_MEMORY) }
{
    if workers.len() > 1024 {
        return BAD_ARGUMENT;
    }
    match open(alloc, slots, workers.len() as u32, installing) {
        Ok(list) => {
            place_all(list, workers);
            DONE
        }
        Err(code) => code,
    }
}
