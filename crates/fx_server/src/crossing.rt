//! Values that cross threads: a worker, its handle, and the place of a handle.
ghost use Rattle.std.specs.Prelude.{◌≡◌};

use crate::handle::{Handle, WorkerPlace};
use crate::worker::TableWorker;

fn cross<T: Send>(value: T) -> T
    ensures { result ≡ value }
{
    value
}

/// Shows that a worker may go to another thread: this is accepted only because `Send` is proved of
/// `TableWorker`.
pub fn worker_crosses(worker: TableWorker) -> TableWorker
    ensures { result ≡ worker }
{
    cross(worker)
}

/// Shows that the handle of a worker may go to another thread.
pub fn handle_crosses(handle: Handle) -> Handle
    ensures { result ≡ handle }
{
    cross(handle)
}

/// Shows that the place of a worker may go to another thread.
pub fn place_crosses(place: WorkerPlace) -> WorkerPlace
    ensures { result ≡ place }
{
    cross(place)
}
