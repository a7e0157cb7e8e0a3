//! A box with its pointer and its allocator in sight, for handles of C.
#![tactic(auto)]

ghost use Rattle.std.specs.Prelude.{◌≡◌};
ghost use Rattle.std.specs.Box.Ownership.{box_owns};

use std::alloc::Allocator;
use std::marker::Model;

/// The parts of a box, which own what the box owns.
pub struct BoxParts<T, A: Allocator> {
    pub ptr: *mut T,
    pub alloc: A,
    pub ghost value: { T },
}

impl<T, A: Allocator> Model for BoxParts<T, A> {
    ghost also_owns = { λ p. box_owns (A.dealloc_token p.alloc) T.row p.ptr p.value };
}

impl<T, A: Allocator> BoxParts<T, A> {
    /// Returns the parts of a box.
    pub fn of(owner: Box<T, A>) -> BoxParts<T, A>
    where
        T: Drop,
        ensures { result.value ≡ owner.value }
    {
        let (ptr, alloc) = Box::into_raw_with_allocator(owner);
        BoxParts { ptr, alloc }
    }

    /// Returns the box.
    pub fn into_box(self) -> Box<T, A>
        ensures { result.value ≡ self.value }
    {
        let BoxParts { ptr, alloc } = self;
        unsafe { Box::from_raw(alloc, ptr) }
    }
}
