//! The functions that C calls: one for each call that a user makes. Each borrows the handle of a
//! worker, and calls the worker.
ghost use Rattle.std.specs.Prelude.{◌≡◌, ◌≢◌, ◌⊎◌, length};
ghost use Rattle.fx_server.specs.Answers.{FindsAs, GetsAtAs, InsertsAs, PutsEmptyAs, ReleasesAs, RemovesAtAs, ReplacesAtAs, ChecksCurrentAs};
ghost use Rattle.fx_server.specs.ByKey.{GetsAs, RemovesAs, ReplacesAs, key_of};
ghost use Rattle.fx_server.specs.Places.{OpensAs};
ghost use Rattle.fx_server.specs.Workers.{IsInRange};
ghost use Rattle.fx_server.specs.declared.codes.TheConstants.{DONE, BAD_ARGUMENT, NO_MEMORY};

use fx_server::{CoreOutcome, Handle, WorkerPlace, open_places};
use std::alloc::Global;

/// Opens a table with its workers: `fx_server::open_places`.
#[unsafe(no_mangle)]
pub extern "C" fn yacht_core_open(
    alloc: Global,
    slots: u32,
    installing: u32,
    workers: &mut [WorkerPlace],
) -> i64
    ensures opened { result ≡ DONE → OpensAs slots installing workers.new }
    ensures nothing { result ≢ DONE → workers.new ≡ workers.old }
    ensures out_of_range { result ≡ BAD_ARGUMENT
        → IsInRange slots (length workers.old) installing → ⊥ }
    ensures numbers { (result ≡ DONE) ⊎ (result ≡ BAD_ARGUMENT) ⊎ (result ≡ NO_MEMORY) }
{
    open_places(alloc, slots, installing, workers)
}

/// Ends a worker. With the last one the table ends.
#[unsafe(no_mangle)]
pub extern "C" fn yacht_core_close(worker: Handle) {
    worker.end();
}

/// Looks a slot up. It returns `DONE`, and the worker holds the file there until its release; or
/// `EMPTY`, `NO_SLOT` or `BUSY`. `out` has the file's tag and number. In `freed` it has the tag of
/// a removed file that this look-up was the last to use.
#[unsafe(no_mangle)]
pub extern "C" fn yacht_core_get_at(worker: &mut Handle, slot: u32, out: &mut CoreOutcome) -> i64
    ensures found { GetsAtAs worker.old.worker slot result out.new worker.new.worker }
{
    worker.as_mut().get_at(slot, out)
}

/// Looks up the file with this number at a slot. It returns as `yacht_core_get_at`, or `STALE` if
/// the slot has another file. In `released` `out` has the tag of such a file, if it was removed
/// meanwhile and the call was the last to use it.
#[unsafe(no_mangle)]
pub extern "C" fn yacht_core_get(
    worker: &mut Handle,
    slot: u32,
    number: u64,
    out: &mut CoreOutcome,
) -> i64
    ensures found { GetsAs worker.old.worker (key_of slot number) result out.new
        worker.new.worker }
{
    worker.as_mut().get(slot, number, out)
}

/// Releases the file that the worker holds. It returns `DONE`, `DROPPED` or `IDLE`. `dropped` is
/// the tag of the file if nobody uses it any more, or 0.
#[unsafe(no_mangle)]
pub extern "C" fn yacht_core_release(worker: &mut Handle, dropped: &mut u64) -> i64
    ensures released { ReleasesAs worker.old.worker result dropped.new worker.new.worker }
{
    worker.as_mut().release(dropped)
}

/// Checks whether a slot has the file that the worker holds, by one load. It returns 1 if the slot
/// has this file at that moment, and 0 if it has another one or none; or `IDLE` or `NO_SLOT`, the
/// first that applies. The worker holds the file still.
#[unsafe(no_mangle)]
pub extern "C" fn yacht_core_is_current(worker: &mut Handle, slot: u32) -> i64
    ensures checked { ChecksCurrentAs worker.old.worker slot result worker.new.worker }
{
    worker.as_mut().is_current(slot)
}

/// Makes one round to install a file with this tag and the worker's next number at a free slot. It
/// returns the slot, or `FULL`, `AGAIN`, `BUSY` or `READER`. `number` is the file's number, or 0.
#[unsafe(no_mangle)]
pub extern "C" fn yacht_core_insert(worker: &mut Handle, tag: u64, number: &mut u64) -> i64
    ensures allocated { InsertsAs worker.old.worker tag result number.new worker.new.worker }
{
    worker.as_mut().insert(tag, number)
}

/// Installs a file with this tag and the worker's next number at a slot. It returns `DONE`,
/// `DROPPED`, `IN_USE`, `BUSY`, `NO_SLOT` or `READER`. `out` has the number of the file, and the
/// tag of what was there if nobody uses that any more.
#[unsafe(no_mangle)]
pub extern "C" fn yacht_core_replace_at(
    worker: &mut Handle,
    slot: u32,
    tag: u64,
    out: &mut CoreOutcome,
) -> i64
    ensures placed { ReplacesAtAs worker.old.worker slot tag result out.new worker.new.worker }
{
    worker.as_mut().replace_at(slot, tag, out)
}

/// Replaces the file with this number at a slot by one with this tag and the worker's next number.
/// It returns `DROPPED`, `IN_USE`, `EMPTY`, `STALE`, `AGAIN`, `BUSY`, `NO_SLOT` or `READER`. `out`
/// has the number of the new file, and each tag of a file that nobody uses any more.
#[unsafe(no_mangle)]
pub extern "C" fn yacht_core_replace(
    worker: &mut Handle,
    slot: u32,
    number: u64,
    tag: u64,
    out: &mut CoreOutcome,
) -> i64
    ensures placed { ReplacesAs worker.old.worker (key_of slot number) tag result out.new
        worker.new.worker }
{
    worker.as_mut().replace(slot, number, tag, out)
}

/// Empties a slot. It returns `DROPPED`, `IN_USE`, `BUSY`, `NO_SLOT`, `READER` or `EMPTY`. `out`
/// has the tag of what was there if nobody uses that any more.
#[unsafe(no_mangle)]
pub extern "C" fn yacht_core_remove_at(worker: &mut Handle, slot: u32, out: &mut CoreOutcome) -> i64
    ensures removed { RemovesAtAs worker.old.worker slot result out.new worker.new.worker }
{
    worker.as_mut().remove_at(slot, out)
}

/// Removes the file with this number from a slot. It returns `DROPPED`, `IN_USE`, `EMPTY`, `STALE`,
/// `AGAIN`, `BUSY`, `NO_SLOT` or `READER`. `out` has each tag of a file that nobody uses any more.
#[unsafe(no_mangle)]
pub extern "C" fn yacht_core_remove(
    worker: &mut Handle,
    slot: u32,
    number: u64,
    out: &mut CoreOutcome,
) -> i64
    ensures removed { RemovesAs worker.old.worker (key_of slot number) result out.new
        worker.new.worker }
{
    worker.as_mut().remove(slot, number, out)
}

/// Finds an empty slot, and draws the worker's next number, which the worker keeps for the file
/// that `yacht_core_put_empty` installs. It returns the slot, which another worker may fill before
/// that, or `FULL`, `AGAIN`, `BUSY` or `READER`. `number` is the number, or 0.
#[unsafe(no_mangle)]
pub extern "C" fn yacht_core_find(worker: &mut Handle, number: &mut u64) -> i64
    ensures found { FindsAs worker.old.worker result number.new worker.new.worker }
{
    worker.as_mut().find(number)
}

/// Installs a file with this tag, and with the number that the worker kept, at a slot if it is
/// empty. The worker keeps the number no longer. It returns `DONE`, `BUSY`, `NO_SLOT`, `READER`,
/// `STALE` if the slot had a file, or `AGAIN` if it was empty and changed meanwhile.
#[unsafe(no_mangle)]
pub extern "C" fn yacht_core_put_empty(worker: &mut Handle, slot: u32, tag: u64) -> i64
    ensures placed { PutsEmptyAs worker.old.worker slot tag result worker.new.worker }
{
    worker.as_mut().put_empty(slot, tag)
}
