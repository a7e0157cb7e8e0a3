//! The search for a free node of a pass's own stock. One is always free, and none of them goes away
//! while the pass looks.
ghost use Rattle.std.specs.Prelude.{◌≡◌, ◌<◌, ◌≤◌};
ghost use Rattle.fx_lasting.specs.Words.{[], Searching};
ghost use Rattle.fx_lasting.specs.AtWork.{IsAtWork};
ghost use Rattle.fx_lasting.specs.Ends.{Does};
ghost use Rattle.fx_lasting.specs.Passes.{HasNoFile, nodes_of};
ghost use Rattle.fx_lasting.specs.nodes.Searches.{next_of};
ghost use Rattle.fx_lasting.specs.Effects.{pass_in};
ghost use mathlib.Core.Option.{some};
ghost use lib.ListN.{get_elem?};

use crate::kinds::Seeking;
use crate::table::LastingTable;
use crate::view::View;
use atomic_table::Seat;
use fx_base::OpenFile;

impl LastingTable {
    // Finds a free node of the pass's stock, from the entry `start` on, in at most as many steps as
    // the stock has nodes. Returns its entry, and the node.
    pub(crate) fn seek(
        &self,
        seat: &mut Seat<Option<OpenFile>, View>,
        number: u32,
        stock: &[u32],
        start: u32,
    ) -> (u32, u32)
        requires table { seat.old.table_id ≡ self.now.table.shared.table_id }
        requires at { IsAtWork self.now.table.shared.key number seat.old.me }
        requires idle { HasNoFile seat.old.me.0.work }
        requires installs { number ≤ self.now.installing }
        requires stock { stock.now ≡ (pass_in seat.old.me).stock }
        requires start { start < self.now.passes }
        ensures table { seat.new.table_id ≡ seat.old.table_id }
        ensures places { seat.new.me.1 ≡ seat.old.me.1 }
        ensures found { Does seat.old.me [] (Searching result.1) self.now.passes seat.new.me }
        ensures stocked { get_elem? stock.now result.0 ≡ some result.1 }
        ensures entry { result.0 < self.now.passes }
        ensures inside { result.1 < nodes_of self.now.table.shared.key }
    {
        let len = self.passes;
        let mut entry = start;
        for _ in 0..len {
            let node = stock[entry as usize];
            let place = self.node_place(node);
            let word = self.table.shared.load::<Seeking>(seat, place);
            if word == 0 {
                return (entry, node);
            }
            entry = entry_after(len, entry);
        }
        unreachable!()
    }
}

// Returns the entry after this one in a stock of `len` nodes; the last one's is the first.
fn entry_after(len: u32, entry: u32) -> u32
    requires { entry < len }
    ensures { result ≡ next_of len entry }
{
    if entry == len - 1 { 0 } else { entry + 1 }
}
