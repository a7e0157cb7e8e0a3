//! A worker as C has it: the pointer of its box.
ghost use Rattle.std.specs.Prelude.{◌≡◌, Option, Some};
ghost use Rattle.fx_server.specs.declared.worker.TableWorker.{TableWorker};
ghost use Rattle.fx_server.specs.Handle.{handle_owns, place_coded, place_owns, worker_coded};

use crate::worker::TableWorker;
use fx_box::BoxParts;
use std::alloc::Global;
use std::marker::Model;

/// The memory at the pointer, as C sees it.
#[repr(C)]
#[derive(Drop)]
pub struct Opaque {
    unused: u8,
}

/// A worker that C returns: one pointer. It must be consumed.
#[repr(C)]
pub struct Handle {
    pub ptr: *mut Opaque,
    pub alloc: Global,
    pub ghost worker: { TableWorker } by { worker_coded },
}

impl Model for Handle {
    ghost also_owns = { λ s. handle_owns s.ptr s.worker };
}

unsafe impl Send for Handle {}

impl Handle {
    ghost use Rattle.fx_server.specs.Words.{sem};
    ghost use Rattle.fx_server.specs.Lending.{LendsWorker};

    /// Lends the worker. What is done to it is done to the handle's.
    #[inline(always)]
    pub fn as_mut(&mut self) -> &mut TableWorker
        ensures* writes_back { sem 𝓛 (LendsWorker self.entry result) }
        ensures value { result.now ≡ self.old.worker }
    {
        unsafe { &mut *(self.ptr as *mut TableWorker) }
    }

    // Returns the box's parts.
    fn into_parts(self) -> BoxParts<TableWorker, Global>
        ensures { result.value ≡ self.worker }
    {
        let Handle { ptr, alloc } = self;
        BoxParts {
            ptr: ptr as *mut TableWorker,
            alloc,
        }
    }

    // Returns the box of the worker.
    fn into_box(self) -> Box<TableWorker, Global>
        ensures { result.value ≡ self.worker }
    {
        self.into_parts().into_box()
    }

    /// Ends the worker, and with the last one the table. The memory is freed, which no clause says:
    /// it is tested.
    pub fn end(self) {
        drop(self.into_box());
    }
}

/// A place of C's for a worker: the pointer of a worker, which the place owns, or one that owns
/// nothing.
#[repr(C)]
#[derive(Drop)]
pub struct WorkerPlace {
    pub ptr: *mut Opaque,
    pub alloc: Global,
    pub ghost worker: { Option TableWorker } by { place_coded },
}

impl Model for WorkerPlace {
    ghost also_owns = { λ p. place_owns p.ptr p.worker };
}

unsafe impl Send for WorkerPlace {}

impl WorkerPlace {
    // Returns a place with the worker of these parts.
    fn of_parts(parts: BoxParts<TableWorker, Global>) -> WorkerPlace
        ensures { result.worker ≡ Some parts.value }
    {
        let BoxParts { ptr, alloc } = parts;
        WorkerPlace {
            ptr: ptr as *mut Opaque,
            alloc,
        }
    }

    /// Returns a place with a worker.
    pub fn of(worker: Box<TableWorker, Global>) -> WorkerPlace
        ensures { result.worker ≡ Some worker.value }
    {
        WorkerPlace::of_parts(BoxParts::of(worker))
    }
}
