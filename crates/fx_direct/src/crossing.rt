//! The machine may go to another thread.
ghost use Rattle.std.specs.Prelude.{◌≡◌};

use crate::slots::DirectSlots;

fn cross<T: Send>(value: T) -> T
    ensures { result ≡ value }
{
    value
}

/// Shows that a machine may go to another thread: this is accepted only because `Send` is proved of
/// `DirectSlots`.
pub fn machine_crosses(machine: DirectSlots) -> DirectSlots
    ensures { result ≡ machine }
{
    cross(machine)
}
