//! Putting an open file into the place of its number, and taking it out, while the seat's pass has
//! the place.
ghost use Rattle.std.specs.Prelude.{◌≡◌};
ghost use Rattle.fx_counted.specs.Words.{[], Some, no_use, Between, Placing, Idle};
ghost use Rattle.fx_base.specs.declared.open_file.Closed.{Closed};
ghost use Rattle.fx_counted.specs.Moves.{HasPlace, MayPlace};
ghost use Rattle.fx_counted.specs.Effects.{Stepped};

use crate::kinds::{Birth, Rest};
use crate::layout::{home_place, node_place};
use crate::table::CountedTable;
use crate::view::View;
use atomic_table::Seat;
use fx_base::OpenFile;

// The node word of a number before the first release of its file.
pub(crate) const BORN: u64 = 1 << 32;

impl CountedTable {
    // Takes the place of the pass's next number, and puts the file into it.
    pub(crate) fn put_in(
        &self,
        seat: &mut Seat<Option<OpenFile>, View>,
        number: u32,
        file: OpenFile,
    )
        requires table { seat.old.table_id ≡ self.now.table.shared.table_id }
        requires next { MayPlace self.now.table.shared.key number seat.old.me }
        ensures table { seat.new.table_id ≡ seat.old.table_id }
        ensures born { Stepped seat.old.me [] no_use (Placing number) seat.old.me.0.change
            seat.new.me }
        ensures place { HasPlace self.now.table.shared.key number (Some file) seat.new.me }
    {
        let shared = &self.table.shared;
        shared.store::<Birth>(seat, node_place(self.size, number), BORN);
        let place = home_place(self.size, number);
        let before = shared.exchange(seat, place, Some(file));
        let None = before else { unreachable!() };
    }

    // Takes the file out of the place of its number, and returns the place.
    pub(crate) fn take_out(&self, seat: &mut Seat<Option<OpenFile>, View>, number: u32) -> OpenFile
        requires table { seat.old.table_id ≡ self.now.table.shared.table_id }
        requires place { let k = self.now.table.shared.key in
            (file : Closed) × HasPlace k number (Some file) seat.old.me }
        ensures table { seat.new.table_id ≡ seat.old.table_id }
        ensures file { let k = self.now.table.shared.key in
            (file : Closed) → HasPlace k number (Some file) seat.old.me → result ≡ file }
        ensures rests { Stepped seat.old.me [] no_use (Between Idle) seat.old.me.0.change seat.new.me }
        ensures empty { seat.new.me.1 ≡ [] }
    {
        let shared = &self.table.shared;
        let place = home_place(self.size, number);
        let Some(file) = shared.exchange(seat, place, None) else {
            unreachable!()
        };
        shared.store::<Rest>(seat, node_place(self.size, number), 0);
        file
    }
}
