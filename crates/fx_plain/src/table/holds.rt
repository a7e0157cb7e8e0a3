//! Look-ups, their releases, and the retirement of removed files.
ghost use Rattle.std.specs.Prelude.{◌≡◌, ◌<◌, true, false, option_map};
ghost use Rattle.fx_plain.specs.declared.event.Action.TheVariants.{Look};
ghost use Rattle.fx_plain.specs.Step.{Steps, changed_at};
ghost use Rattle.fx_plain.specs.History.{Leads, close_of};
ghost use Rattle.fx_plain.specs.Contents.{state_of, leaving, numbers_of, IsTable};
ghost use Rattle.fx_plain.specs.Table.{identity_of, closed_by_retirement, HasRoomForHold, EndsHold};

use crate::table::PlainTable;
use fx_base::OpenFile;

impl PlainTable {
    /// Looks a slot up: returns the number and the catalogue entry of the file there, which gets
    /// one more hold, or `None` if the slot is empty (io_uring_enter(2), "IOSQE_FIXED_FILE").
    ///
    /// Requires that one more hold of the file fits 32 bits. That is so in a settled table
    /// ([`PlainTable::is_settled`]), and if at most 16 passes have at most one hold each.
    pub fn look(&mut self, slot: u32) -> Option<(u32, u8)>
        requires slot { slot < (state_of self.old).size }
        requires room { HasRoomForHold (state_of self.old) slot }
        ensures answer { result
            ≡ option_map (λ f. (f.number, f.identity.entry)) ((state_of self.old).at slot) }
        ensures step { Steps (state_of self.old) (Look slot ((state_of self.old).at slot))
            (state_of self.new) }
        ensures leaving { leaving self.new ≡ leaving self.old }
        ensures numbers { numbers_of self.new ≡ numbers_of self.old }
        ensures sound { IsTable self.new }
    {
        let number = self.slots[slot as usize]?;
        let entry = self.entry_at(slot)?;
        self.holds.add_hold(number);
        self.held += 1;
        Some((number, entry))
    }

    /// Ends one hold of the file with this number. If the file is retired and this was its last
    /// hold, returns the file, to be closed. Requires that the file is held
    /// ([`PlainTable::is_held`]).
    pub fn release(&mut self, number: u32) -> Option<OpenFile>
        requires { 0 < (state_of self.old).holds number }
        ensures { EndsHold self.old self.new number result }
    {
        let left = self.holds.end_hold(number);
        self.held -= 1;
        if left != 0 {
            return None;
        }
        if !self.nodes.is_retired(number) {
            return None;
        }
        self.removed -= 1;
        Some(self.nodes.take_file(number))
    }

    /// Retires a removed file, so that its last release hands it out. Returns the file, to be
    /// closed, if it has no holds now. Requires that the file is leaving: a removal returned its
    /// number and it wasn't retired since ([`PlainTable::is_leaving`]).
    pub fn retire(&mut self, number: u32) -> Option<OpenFile>
        requires { leaving self.old number ≡ true }
        ensures answer { result ≡ identity_of (closed_by_retirement self.old number) }
        ensures steps { Leads (state_of self.old) (close_of (closed_by_retirement self.old number))
            (state_of self.new) }
        ensures leaving { leaving self.new ≡ changed_at (leaving self.old) number false }
        ensures numbers { numbers_of self.new ≡ numbers_of self.old }
        ensures sound { IsTable self.new }
    {
        if self.holds.of(number) == 0 {
            self.removed -= 1;
            return Some(self.nodes.take_file(number));
        }
        self.nodes.retire(number);
        None
    }
}
