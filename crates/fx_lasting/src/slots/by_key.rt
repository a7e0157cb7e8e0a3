//! The look-up by key, which compares the number of the file that it holds.
ghost use Rattle.std.specs.Prelude.{◌≡◌, ◌+◌, ◌<◌, ◌≤◌};
ghost use Rattle.fx_lasting.specs.Words.{IsIdle};
ghost use Rattle.fx_lasting.specs.slots.ByKey.{LookedByKey, fault_for};
ghost use Rattle.fx_lasting.specs.Tables.{view_of, MeetsMore, steps_taken, IsPassOfTable};

use crate::answers::Miss;
use crate::key::Key;
use crate::key_answers::{KeyFault, KeyLook};
use crate::pass::LastingPass;
use crate::table::LastingTable;
use fx_table::LookUp;

impl LastingTable {
    /// Looks up the file of a key, for an idle pass (`is_idle`), in at most thirteen atomic steps
    /// (io_uring_enter(2), "IOSQE_FIXED_FILE"). The pass holds the file until it releases it. If
    /// the slot has another file, the pass releases that at once, and is idle again.
    ///
    /// # Errors
    /// In `found`: `NoSlot`, `Empty`, or `Stale` if the file at the slot isn't that of the key.
    #[inline(always)]
    pub fn look_key(&self, pass: &mut LastingPass, key: Key) -> KeyLook
        requires fits { IsPassOfTable self.now pass.old }
        requires idle { IsIdle (view_of pass.old) }
        ensures fits { IsPassOfTable self.now pass.new }
        ensures looked { LookedByKey self.now.table.shared.key (view_of pass.old) key
            result.found result.freed result.released (view_of pass.new) }
        ensures steps { steps_taken pass.new ≤ steps_taken pass.old + 13 }
        ensures met { MeetsMore pass.old pass.new }
    {
        if self.size <= key.slot {
            return KeyLook {
                found: Err(KeyFault::NoSlot),
                freed: None,
                released: None,
            };
        }
        let LookUp { found, freed } = self.look_up(pass, key.slot);
        let Ok(hold) = found else {
            return KeyLook {
                found: Err(KeyFault::Empty),
                freed,
                released: None,
            };
        };
        let number = self.number_of(pass, &hold);
        if key.number == number && number != 0 {
            return KeyLook {
                found: Ok(hold),
                freed,
                released: None,
            };
        }
        let released = self.release(pass, hold);
        KeyLook {
            found: Err(KeyFault::Stale),
            freed,
            released,
        }
    }
}

// Returns the reason of a call by key for that of its exchanges.
pub(crate) fn fault_of(miss: Miss) -> KeyFault
    ensures { result ≡ fault_for miss }
{
    match miss {
        Miss::Empty => KeyFault::Empty,
        Miss::Stale => KeyFault::Stale,
        Miss::Again => KeyFault::Again,
    }
}
