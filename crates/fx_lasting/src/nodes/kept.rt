//! The node that a pass keeps for its next file. If all takes and charges of a file were dropped
//! when the pass that retires it loads its node's word, the file is closed at that load, and the
//! word is that of a birth, less the takes and charges. Where they are few, that pass keeps the
//! node, if the node is at the entry of its stock where the next search begins. The next
//! installation then needs neither a search nor a birth: the slot's word begins with as many takes
//! as the node's word has lost, as if the next file had had them too. A call that needs a pass
//! without a node settles first: it frees the node.
ghost use Rattle.std.specs.Prelude.{◌≡◌, ◌+◌, ◌<◌, ◌≤◌, ◌∷◌, None};
ghost use Rattle.fx_lasting.specs.Words.{ℕ, [], true, false, Some, Closed, Emptying, Placing};
ghost use Rattle.fx_lasting.specs.AtWork.{IsAtWork, HasPlace, MayPlace};
ghost use Rattle.fx_lasting.specs.Ends.{Does, Parked, TakenOut};
ghost use Rattle.fx_lasting.specs.nodes.Labels.{label_of, as_written};
ghost use Rattle.fx_lasting.specs.life.Layout.{node_place};
ghost use Rattle.fx_lasting.specs.Fields.{most_carried};
ghost use Rattle.fx_lasting.specs.Passes.{nodes_of};
ghost use Rattle.fx_lasting.specs.Tables.{view_of, steps_taken, MeetsMore, IsPassOfTable};
ghost use Rattle.fx_lasting.specs.Effects.{pass_in};
ghost use mathlib.Core.Option.{some};
ghost use lib.ListN.{get_elem?};

use crate::fields::{BORN, may_carry};
use crate::kinds::{Birth, Parking, Resting, Resuming, Settling, Tagging};
use crate::pass::LastingPass;
use crate::table::LastingTable;
use crate::view::View;
use atomic_table::Seat;
use fx_base::OpenFile;

impl LastingTable {
    // Puts the file into the place of the node that the pass keeps, or else of a free node of its
    // stock, and stores the file's label, in at most three steps more than the stock has nodes.
    // Returns the node's entry, the node, and the number of takes that its word has lost.
    #[inline(always)]
    pub(crate) fn place(
        &self,
        seat: &mut Seat<Option<OpenFile>, View>,
        number: u32,
        stock: &[u32],
        start: u32,
        keeps: bool,
        file: OpenFile,
    ) -> (u32, u32, u64)
        requires table { seat.old.table_id ≡ self.now.table.shared.table_id }
        requires at { IsAtWork self.now.table.shared.key number seat.old.me }
        requires may { MayPlace keeps stock.now start seat.old.me.0.work }
        requires places { seat.old.me.1 ≡ [] }
        requires installs { number ≤ self.now.installing }
        requires stock { stock.now ≡ (pass_in seat.old.me).stock }
        requires start { start < self.now.passes }
        ensures table { seat.new.table_id ≡ seat.old.table_id }
        ensures placed { Does seat.old.me [] (Placing result.1
            (as_written result.2 (label_of file))) (self.now.passes + 3) seat.new.me }
        ensures few_lost { result.2 ≤ most_carried }
        ensures place { seat.new.me.1 ≡ (result.1, Some file) ∷ [] }
        ensures stocked { get_elem? stock.now result.0 ≡ some result.1 }
        ensures entry { result.0 < self.now.passes }
        ensures inside { result.1 < nodes_of self.now.table.shared.key }
    {
        let shared = &self.table.shared;
        if keeps {
            let node = stock[start as usize];
            let place = self.node_place(node);
            let word = shared.load::<Resuming>(seat, place);
            self.put_tag(seat, node, place, file.tag());
            self.put_in(seat, node, place, file);
            return (start, node, BORN - word);
        }
        let (entry, node) = self.seek(seat, number, stock, start);
        let place = self.node_place(node);
        shared.store::<Birth>(seat, place, BORN);
        shared.store::<Tagging>(seat, place + 1, file.tag());
        self.put_in(seat, node, place, file);
        (entry, node, 0)
    }

    // Takes the closed file out of the place of its node, in at most two steps. The node's word is
    // at `place`. Returns the file, and whether the pass keeps the node, which is at the entry of
    // its stock then.
    #[inline(always)]
    pub(crate) fn take_out_or_keep(
        &self,
        seat: &mut Seat<Option<OpenFile>, View>,
        node: u32,
        place: usize,
        stock: &[u32],
        entry: u32,
    ) -> (OpenFile, bool)
        requires table { seat.old.table_id ≡ self.now.table.shared.table_id }
        requires at { (number : ℕ) × IsAtWork self.now.table.shared.key number seat.old.me }
        requires emptying { seat.old.me.0.work ≡ Emptying node }
        requires place { (file : Closed) × HasPlace node (Some file) seat.old.me }
        requires word { place ≡ node_place self.now.size self.now.passes node }
        requires stock { stock.now ≡ (pass_in seat.old.me).stock }
        ensures table { seat.new.table_id ≡ seat.old.table_id }
        ensures file { (file : Closed) → HasPlace node (Some file) seat.old.me → result.0 ≡ file }
        ensures out { TakenOut node stock.now entry seat.old.me result.1 seat.new.me }
    {
        let shared = &self.table.shared;
        let Some(file) = shared.exchange(seat, node as usize, None) else {
            unreachable!()
        };
        if self.park(seat, node, place, stock, entry) {
            return (file, true);
        }
        shared.store::<Resting>(seat, place, 0);
        (file, false)
    }

    // Keeps the node, whose place is with the pass, if it is at the entry of the stock and its word
    // has lost few takes, in at most one step. Returns whether it does.
    #[inline(always)]
    fn park(
        &self,
        seat: &mut Seat<Option<OpenFile>, View>,
        node: u32,
        place: usize,
        stock: &[u32],
        entry: u32,
    ) -> bool
        requires table { seat.old.table_id ≡ self.now.table.shared.table_id }
        requires at { (number : ℕ) × IsAtWork self.now.table.shared.key number seat.old.me }
        requires emptying { seat.old.me.0.work ≡ Emptying node }
        requires place { seat.old.me.1 ≡ (node, None) ∷ [] }
        requires word { place ≡ node_place self.now.size self.now.passes node }
        requires stock { stock.now ≡ (pass_in seat.old.me).stock }
        ensures table { seat.new.table_id ≡ seat.old.table_id }
        ensures parked { Parked node stock.now entry seat.old.me result seat.new.me }
    {
        let at = entry as usize;
        if stock.len() <= at {
            return false;
        }
        if stock[at] != node {
            return false;
        }
        may_carry(self.table.shared.load::<Parking>(seat, place))
    }

    // Frees the node that the pass keeps, if it keeps one, in at most one step.
    #[inline(always)]
    pub(crate) fn settle(&self, pass: &mut LastingPass)
        requires fits { IsPassOfTable self.now pass.old }
        ensures fits { IsPassOfTable self.now pass.new }
        ensures same { view_of pass.new ≡ view_of pass.old }
        ensures unkept { pass.new.keeps ≡ false }
        ensures steps { steps_taken pass.new ≤ steps_taken pass.old + 1 }
        ensures begun { steps_taken pass.old ≤ steps_taken pass.new }
        ensures met { MeetsMore pass.old pass.new }
    {
        if pass.keeps {
            let node = pass.stock[pass.next_entry as usize];
            let place = self.node_place(node);
            self.table
                .shared
                .store::<Settling>(&mut pass.seat, place, 0);
            pass.keeps = false;
        }
    }
}
