//! The check whether a slot still has the file that a pass holds. A held file keeps its node
//! (`held_nodes_name_files`), so the slot has that file if and only if its word names the node.
ghost use Rattle.std.specs.Prelude.{◌+◌, ◌<◌, ◌≤◌};
ghost use Rattle.fx_lasting.specs.Words.{size_of};
ghost use Rattle.fx_lasting.specs.Tables.{view_of, MeetsMore, steps_taken, opening_of_table, IsPassOfTable};
ghost use Rattle.fx_lasting.specs.slots.Current.{HoldsNode, ChecksCurrent};

use crate::kinds::Seeing;
use crate::life::layout::slot_place;
use crate::pass::LastingPass;
use crate::slots::by_node::named_by;
use crate::table::LastingTable;

impl LastingTable {
    /// Checks whether a slot below `size` has the file that the pass holds by a `Hold` of this
    /// node, in one atomic step. The answer is exact at that step, and follows all that the pass
    /// has seen or learned (`laws::current_files_follow_changes`). The pass still holds the file.
    #[inline(always)]
    pub fn is_current(&self, pass: &mut LastingPass, slot: u32, node: u32) -> bool
        requires fits { IsPassOfTable self.now pass.old }
        requires holds { HoldsNode (view_of pass.old) node }
        requires slot { slot < size_of (opening_of_table self.now) }
        ensures fits { IsPassOfTable self.now pass.new }
        ensures current { ChecksCurrent (opening_of_table self.now) (view_of pass.old) slot result
            (view_of pass.new) }
        ensures steps { steps_taken pass.new ≤ steps_taken pass.old + 1 }
        ensures met { MeetsMore pass.old pass.new }
    {
        let shared = &self.table.shared;
        let word = shared.load::<Seeing>(&mut pass.seat, slot_place(slot));
        named_by(word, node).is_ok()
    }
}
