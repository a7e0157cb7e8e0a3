//! The label of a file: its tag, and the number of its mark. An installation stores both in two
//! words of the file's node before the file is at a slot. A pass that holds the file loads them.
ghost use Rattle.std.specs.Prelude.{◌≡◌, ◌+◌, ◌≤◌};
ghost use Rattle.fx_lasting.specs.Words.{File, IsHoldOf, Holding};
ghost use Rattle.fx_lasting.specs.nodes.Labels.{number_of_mark};
ghost use Rattle.fx_lasting.specs.Passes.{node_of_number};
ghost use Rattle.fx_lasting.specs.Tables.{view_of, MeetsMore, steps_taken, IsPassOfTable};

use crate::kinds::{ReadingNumber, ReadingTag};
use crate::pass::LastingPass;
use crate::table::LastingTable;
use fx_base::Mark;
use fx_table::Hold;

impl LastingTable {
    /// Returns the tag of the file that the pass holds, by the `Hold` that it got, in one atomic
    /// step (io_uring_register(2), "IORING_REGISTER_FILES2").
    #[inline(always)]
    pub fn tag_of(&self, pass: &mut LastingPass, hold: &Hold) -> u64
        requires fits { IsPassOfTable self.now pass.old }
        requires held { IsHoldOf (view_of pass.old) hold.now }
        ensures fits { IsPassOfTable self.now pass.new }
        ensures same { view_of pass.new ≡ view_of pass.old }
        ensures tag { (f : File) → (view_of pass.old).doing ≡ Holding f hold.now
            → result ≡ f.identity.tag }
        ensures steps { steps_taken pass.new ≤ steps_taken pass.old + 1 }
    {
        let place = self.tag_place(hold.node);
        self.table.shared.load::<ReadingTag>(&mut pass.seat, place)
    }

    /// Returns the number of the file that the pass holds, by the `Hold` that it got, in one atomic
    /// step: `k * 2^32 + i` of its mark [`Mark::Registered`], and 0 if a request of a submission
    /// installed it. The file is on the hold's node.
    #[inline(always)]
    pub fn number_of(&self, pass: &mut LastingPass, hold: &Hold) -> u64
        requires fits { IsPassOfTable self.now pass.old }
        requires held { IsHoldOf (view_of pass.old) hold.now }
        ensures fits { IsPassOfTable self.now pass.new }
        ensures same { view_of pass.new ≡ view_of pass.old }
        ensures number { (f : File) → (view_of pass.old).doing ≡ Holding f hold.now
            → result ≡ number_of_mark f.identity.mark }
        ensures node { (f : File) → (view_of pass.old).doing ≡ Holding f hold.now
            → node_of_number self.now.table.shared.key f.number ≡ hold.now.node }
        ensures steps { steps_taken pass.new ≤ steps_taken pass.old + 1 }
        ensures met { MeetsMore pass.old pass.new }
    {
        let place = self.number_place(hold.node);
        self.table
            .shared
            .load::<ReadingNumber>(&mut pass.seat, place)
    }
}

// Returns the number of a mark.
pub(crate) fn number_of_mark(mark: Mark) -> u64
    ensures { result ≡ number_of_mark mark }
{
    match mark {
        Mark::Registered { k, i } => (u64::from(k) << 32) + u64::from(i),
        Mark::Submitted { .. } => 0,
    }
}
