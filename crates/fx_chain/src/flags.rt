//! The flags of a request.
ghost use Rattle.std.specs.Prelude.{⊤, [], ◌∷◌, codes};

use bitflags::{Flag, Flags, bitflag_items};

/// The flags of a request that this project knows (io_uring_enter(2), "flags"). `FIXED_FILE`: the
/// request names its file by a slot. `IO_LINK`: the next request starts only after this one has
/// completed, and not if this one failed. `IO_HARDLINK`, also together with `IO_LINK`: the next
/// request starts only after this one has completed, whatever its result.
#[derive(Clone, Copy, PartialEq, Eq, Debug)]
pub struct SqeFlags(u8);

bitflag_items! {
    impl SqeFlags: u8 {
        const FIXED_FILE = 1;
        const IO_LINK = 4;
        const IO_HARDLINK = 8;
    }
}

impl Flags for SqeFlags {
    type Bits = u8;

    ghost exact = { ⊤ };

    ghost table = { (codes "FIXED_FILE", 1) ∷ (codes "IO_LINK", 4)
        ∷ (codes "IO_HARDLINK", 8) ∷ [] };

    ghost set_of = { λ flags. flags.0 };

    fn flags<'a>() -> &'a [Flag<SqeFlags>] {
        SqeFlags::FLAGS
    }

    fn bits(&self) -> u8 {
        self.0
    }

    fn from_bits_retain(bits: u8) -> SqeFlags {
        SqeFlags(bits)
    }
}
