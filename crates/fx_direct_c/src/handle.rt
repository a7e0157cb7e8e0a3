//! A machine as C has it: the pointer of its box.
ghost use Rattle.std.specs.Prelude.{◌≡◌, Option, Some};
ghost use Rattle.fx_direct.specs.declared.slots.DirectSlots.{DirectSlots};
ghost use Rattle.fx_direct_c.specs.MachineMemory.{machine_owns, machine_place_coded, machine_place_owns, slots_coded};

use fx_box::BoxParts;
use fx_direct::DirectSlots;
use std::alloc::Global;
use std::marker::Model;

/// The memory at the pointer, as C sees it.
#[repr(C)]
#[derive(Drop)]
pub struct OpaqueMachine {
    unused: u8,
}

/// A machine that C has: one pointer. It must be consumed.
#[repr(C)]
pub struct MachineHandle {
    pub ptr: *mut OpaqueMachine,
    pub alloc: Global,
    pub ghost slots: { DirectSlots } by { slots_coded },
}

impl Model for MachineHandle {
    ghost also_owns = { λ s. machine_owns s.ptr s.slots };
}

unsafe impl Send for MachineHandle {}

impl MachineHandle {
    ghost use Rattle.std.specs.Borrow.{sem};
    ghost use Rattle.fx_direct_c.specs.Lending.{LendsSlots};

    /// Lends the machine. What is done to it is done to the handle's.
    #[inline(always)]
    pub fn as_mut(&mut self) -> &mut DirectSlots
        ensures* writes_back { sem 𝓛 (LendsSlots self.entry result) }
        ensures value { result.now ≡ self.old.slots }
    {
        unsafe { &mut *(self.ptr as *mut DirectSlots) }
    }

    // Returns the box's parts.
    fn into_parts(self) -> BoxParts<DirectSlots, Global>
        ensures { result.value ≡ self.slots }
    {
        let MachineHandle { ptr, alloc } = self;
        BoxParts {
            ptr: ptr as *mut DirectSlots,
            alloc,
        }
    }

    // Returns the box of the machine.
    fn into_box(self) -> Box<DirectSlots, Global>
        ensures { result.value ≡ self.slots }
    {
        self.into_parts().into_box()
    }

    /// Frees the machine. That its memory is freed no clause says: it is tested.
    pub fn end(self) {
        drop(self.into_box());
    }
}

/// A place of C's for a machine: the pointer of a machine, which the place owns, or one that owns
/// nothing.
#[repr(C)]
#[derive(Drop)]
pub struct MachinePlace {
    pub ptr: *mut OpaqueMachine,
    pub alloc: Global,
    pub ghost slots: { Option DirectSlots } by { machine_place_coded },
}

impl Model for MachinePlace {
    ghost also_owns = { λ p. machine_place_owns p.ptr p.slots };
}

unsafe impl Send for MachinePlace {}

impl MachinePlace {
    // Returns a place with the machine of these parts.
    fn of_parts(parts: BoxParts<DirectSlots, Global>) -> MachinePlace
        ensures { result.slots ≡ Some parts.value }
    {
        let BoxParts { ptr, alloc } = parts;
        MachinePlace {
            ptr: ptr as *mut OpaqueMachine,
            alloc,
        }
    }

    /// Returns a place with a machine.
    pub fn of(machine: Box<DirectSlots, Global>) -> MachinePlace
        ensures { result.slots ≡ Some machine.value }
    {
        MachinePlace::of_parts(BoxParts::of(machine))
    }
}
