//! Putting an open file into the place of its node, and taking it out, while the seat's pass has
//! the place.
ghost use Rattle.std.specs.Prelude.{◌≡◌, ◌∷◌, None};
ghost use Rattle.fx_lasting.specs.Words.{ℕ, [], Some, Closed, Placing, Nothing, Tag};
ghost use Rattle.fx_lasting.specs.AtWork.{IsAtWork, HasPlace};
ghost use Rattle.fx_lasting.specs.Ends.{Does};
ghost use Rattle.fx_lasting.specs.nodes.Labels.{label_of, as_written};
ghost use Rattle.fx_lasting.specs.life.Layout.{node_place};
ghost use Rattle.fx_lasting.specs.Effects.{rested};

use crate::kinds::{Numbering, RecallingTag, Resting, Tagging};
use crate::nodes::labels::number_of_mark;
use crate::table::LastingTable;
use crate::view::View;
use atomic_table::Seat;
use fx_base::OpenFile;

impl LastingTable {
    // Stores the tag of the file's label on the node of the place, which is with the pass, unless
    // the label has that tag already, in at most two steps. The node's words begin at `place`.
    #[inline(always)]
    pub(crate) fn put_tag(
        &self,
        seat: &mut Seat<Option<OpenFile>, View>,
        node: u32,
        place: usize,
        tag: u64,
    )
        requires table { seat.old.table_id ≡ self.now.table.shared.table_id }
        requires at { (number : ℕ) × IsAtWork self.now.table.shared.key number seat.old.me }
        requires placing { (lost : ℕ) × (seat.old.me.0.work ≡ Placing node
            (as_written lost Nothing)) }
        requires word { place ≡ node_place self.now.size self.now.passes node }
        ensures table { seat.new.table_id ≡ seat.old.table_id }
        ensures places { seat.new.me.1 ≡ seat.old.me.1 }
        ensures stored { (lost : ℕ) → seat.old.me.0.work ≡ Placing node (as_written lost Nothing)
            → Does seat.old.me [] (Placing node (as_written lost (Tag tag))) 2 seat.new.me }
    {
        let shared = &self.table.shared;
        let found = shared.load::<RecallingTag>(seat, place + 1);
        if found != tag {
            shared.store::<Tagging>(seat, place + 1, tag);
        }
    }

    // Stores the number of the file's label, whose tag is stored, and puts the file into the place
    // of the node, which is with the pass, in one step. The node's words begin at `place`.
    pub(crate) fn put_in(
        &self,
        seat: &mut Seat<Option<OpenFile>, View>,
        node: u32,
        place: usize,
        file: OpenFile,
    )
        requires table { seat.old.table_id ≡ self.now.table.shared.table_id }
        requires at { (number : ℕ) × IsAtWork self.now.table.shared.key number seat.old.me }
        requires placing { (lost : ℕ) × (seat.old.me.0.work ≡ Placing node
            (as_written lost (Tag file.tag))) }
        requires place { seat.old.me.1 ≡ (node, None) ∷ [] }
        requires word { place ≡ node_place self.now.size self.now.passes node }
        ensures table { seat.new.table_id ≡ seat.old.table_id }
        ensures stored { (lost : ℕ) → seat.old.me.0.work ≡ Placing node
            (as_written lost (Tag file.tag))
            → Does seat.old.me [] (Placing node (as_written lost (label_of file))) 1 seat.new.me }
        ensures place { seat.new.me.1 ≡ (node, Some file) ∷ [] }
    {
        let shared = &self.table.shared;
        let number = number_of_mark(file.mark());
        shared.store::<Numbering>(seat, place + 2, number);
        let before = shared.exchange(seat, node as usize, Some(file));
        let None = before else { unreachable!() };
    }

    // Takes the file out of the place of its node, and returns the place, in one step.
    #[inline(always)]
    pub(crate) fn take_out(&self, seat: &mut Seat<Option<OpenFile>, View>, node: u32) -> OpenFile
        requires table { seat.old.table_id ≡ self.now.table.shared.table_id }
        requires at { (number : ℕ) × IsAtWork self.now.table.shared.key number seat.old.me }
        requires place { (file : Closed) × HasPlace node (Some file) seat.old.me }
        ensures table { seat.new.table_id ≡ seat.old.table_id }
        ensures file { (file : Closed) → HasPlace node (Some file) seat.old.me → result ≡ file }
        ensures rests { Does seat.old.me [] (rested seat.old.me.0.work) 1 seat.new.me }
        ensures empty { seat.new.me.1 ≡ [] }
    {
        let shared = &self.table.shared;
        let Some(file) = shared.exchange(seat, node as usize, None) else {
            unreachable!()
        };
        shared.store::<Resting>(seat, self.node_place(node), 0);
        file
    }
}
