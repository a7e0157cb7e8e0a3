//! The round of a retirement through the other passes: each announcement of the removed file is
//! charged. A pass that isn't listed announces nothing, and isn't visited.
ghost use Rattle.std.specs.Prelude.{◌≡◌, ◌+◌, ◌*◌, ◌≤◌, ◌⊎◌};
ghost use Rattle.fx_lasting.specs.Words.{ℕ, File};
ghost use Rattle.fx_lasting.specs.AtWork.{IsAtWork};
ghost use Rattle.fx_lasting.specs.Passes.{Sat};
ghost use Rattle.fx_lasting.specs.Effects.{new_round};
ghost use Rattle.fx_lasting.specs.holds.Visits.{HasVisited, HasCharged};
ghost use Rattle.fx_lasting.specs.declared.view.Work.TheVariants.{Retiring};

use crate::fields::{announced, charged};
use crate::kinds::{Charging, Skimming, Visiting};
use crate::life::layout::list_place;
use crate::table::LastingTable;
use crate::view::View;
use atomic_table::Seat;
use fx_base::OpenFile;

impl LastingTable {
    // Charges the announcements of the node by other passes, from `first` on, in at most two steps
    // for each, and one for each 64 passes. Returns the number of charges.
    #[inline(always)]
    pub(crate) fn charge_all(
        &self,
        seat: &mut Seat<Option<OpenFile>, View>,
        number: u32,
        node: u32,
        first: u32,
    ) -> u32
        requires table { seat.old.table_id ≡ self.now.table.shared.table_id }
        requires at { IsAtWork self.now.table.shared.key number seat.old.me }
        requires retiring { (f : File) × (takes : ℕ)
            × (seat.old.me.0.work ≡ Retiring f node takes (new_round first) 0) }
        requires first { (first ≡ 1) ⊎ (first ≡ self.now.passes + 1) }
        ensures table { seat.new.table_id ≡ seat.old.table_id }
        ensures places { seat.new.me.1 ≡ seat.old.me.1 }
        ensures few { result ≤ self.now.passes + 63 }
        ensures charged { (f : File) (takes : ℕ)
            → seat.old.me.0.work ≡ Retiring f node takes (new_round first) 0
            → HasCharged self.now.passes number f node takes seat.old.me result seat.new.me }
    {
        let mut charges = 0;
        let mut pass = first;
        while pass <= self.passes {
            charges += self.charge_listed(seat, number, node, pass);
            pass += 64;
        }
        charges
    }

    // Visits the listed ones of the 64 passes from `first` on, in at most two steps for each, and
    // one. Returns the number of charges that it made.
    #[inline(always)]
    fn charge_listed(
        &self,
        seat: &mut Seat<Option<OpenFile>, View>,
        number: u32,
        node: u32,
        first: u32,
    ) -> u32
        requires table { seat.old.table_id ≡ self.now.table.shared.table_id }
        requires at { IsAtWork self.now.table.shared.key number seat.old.me }
        requires low { first ≤ self.now.passes }
        requires visited { (m : Sat) × (f : File) × (takes : ℕ) × (begin : ℕ) × (words : ℕ)
            × (last : ℕ) × (charges : ℕ) × (first ≡ 64 * words + 1)
            × HasVisited self.now.passes number node f takes begin words last first charges m
            seat.old.me }
        ensures table { seat.new.table_id ≡ seat.old.table_id }
        ensures places { seat.new.me.1 ≡ seat.old.me.1 }
        ensures few { result ≤ 64 }
        ensures visited { (found : ℕ) × ((m : Sat) (f : File) (takes begin words last charges : ℕ)
            → first ≡ 64 * words + 1
            → HasVisited self.now.passes number node f takes begin words last first charges m
            seat.old.me
            → HasVisited self.now.passes number node f takes begin (words + 1) found (first + 64)
            (charges + result) m seat.new.me) }
    {
        let mut rest = self.table.shared.load::<Skimming>(seat, list_place(first));
        let mut pass = first;
        let mut charges = 0;
        while rest != 0 {
            let idle = rest.trailing_zeros();
            pass += idle;
            charges += self.visit(seat, number, node, pass);
            rest = rest >> idle >> 1;
            pass += 1;
        }
        charges
    }

    // Visits the pass, unless it is this one, and charges its announcement if it announces the
    // node, in at most two steps. Returns the number of charges that it made.
    fn visit(
        &self,
        seat: &mut Seat<Option<OpenFile>, View>,
        number: u32,
        node: u32,
        pass: u32,
    ) -> u32
        requires table { seat.old.table_id ≡ self.now.table.shared.table_id }
        requires at { IsAtWork self.now.table.shared.key number seat.old.me }
        requires pass { pass ≤ self.now.passes }
        requires visited { (m : Sat) × (f : File) × (takes : ℕ) × (first : ℕ) × (words : ℕ)
            × (last : ℕ) × (charges : ℕ)
            × HasVisited self.now.passes number node f takes first words last pass charges m
            seat.old.me }
        ensures table { seat.new.table_id ≡ seat.old.table_id }
        ensures places { seat.new.me.1 ≡ seat.old.me.1 }
        ensures one { result ≤ 1 }
        ensures visited { (m : Sat) (f : File) (takes first words last charges : ℕ)
            → HasVisited self.now.passes number node f takes first words last pass charges m
            seat.old.me
            → HasVisited self.now.passes number node f takes first words last (pass + 1)
            (charges + result) m seat.new.me }
    {
        if pass == number {
            return 0;
        }
        let shared = &self.table.shared;
        let place = self.hold_place(pass);
        let named = announced(node);
        let word = shared.load::<Visiting>(seat, place);
        if word != named {
            return 0;
        }
        let found = shared.compare_exchange::<Charging>(seat, place, named, charged(node));
        if found == named { 1 } else { 0 }
    }
}
