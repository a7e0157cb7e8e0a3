//! The steps that change a slot only while its word names the node of the file that the pass holds.
//! A file that is held keeps its node (`held_nodes_name_files`): so they change the slot of that
//! file, and never that of one that took its place.
//!
//! The pass loads the slot's word. If the word names the node, the pass exchanges it for another
//! one. A look-up in between changes the word: the pass tries again with the word that it found,
//! four times in all. It returns `Again` only if the slot's word changed meanwhile.
//! While a file stays at its slot, look-ups change the word at most 16 times, and twice for each
//! pass (`words_are_bounded`).
ghost use Rattle.std.specs.Prelude.{◌≡◌, ◌+◌, ◌<◌};
ghost use Rattle.fx_lasting.specs.Words.{ℕ, entry_in};
ghost use Rattle.fx_lasting.specs.AtWork.{IsAtWork};
ghost use Rattle.fx_lasting.specs.slots.ByNode.{SawIf, SaysIf, MayExchange, SeesIfLost, TriedExchange, word_put};
ghost use Rattle.fx_lasting.specs.Fields.{count_in, full_name_in};

use crate::answers::Miss;
use crate::fields::{count_of, file_node_of, without_file};
use crate::kinds::Seeing;
use crate::life::layout::slot_place;
use crate::table::LastingTable;
use crate::view::View;
use atomic_table::{Play, Seat};
use fx_base::OpenFile;
use fx_table::Retired;
use fx_words::entry_of;

impl LastingTable {
    // Reads which file is at the slot, in one step. Returns the slot's word if that file is on the
    // node.
    #[inline(always)]
    pub(crate) fn see(
        &self,
        seat: &mut Seat<Option<OpenFile>, View>,
        slot: u32,
        node: u32,
    ) -> Result<u64, Miss>
        requires table { seat.old.table_id ≡ self.now.table.shared.table_id }
        requires at { (number : ℕ) × IsAtWork self.now.table.shared.key number seat.old.me }
        requires slot { slot < self.now.size }
        ensures table { seat.new.table_id ≡ seat.old.table_id }
        ensures places { seat.new.me.1 ≡ seat.old.me.1 }
        ensures saw { SawIf self.now.table.shared.key slot node seat.old.me result seat.new.me }
    {
        let word = self.table.shared.load::<Seeing>(seat, slot_place(slot));
        named_by(word, node)
    }

    // Exchanges the slot's word for another one, or else for the same one without its file, while
    // it names the node, in at most four steps. Returns the word that it found.
    #[inline(always)]
    pub(crate) fn try_exchange<M: Play<Option<OpenFile>, View>>(
        &self,
        seat: &mut Seat<Option<OpenFile>, View>,
        slot: u32,
        node: u32,
        word: u64,
        to: Option<u64>,
    ) -> Result<u64, Miss>
        requires table { seat.old.table_id ≡ self.now.table.shared.table_id }
        requires at { (number : ℕ) × IsAtWork self.now.table.shared.key number seat.old.me }
        requires slot { slot < self.now.size }
        requires named { full_name_in word ≡ node + 1 }
        requires may { MayExchange M.then self.now.table.shared.key slot node to seat.old.me }
        requires loses { SeesIfLost M.then }
        ensures table { seat.new.table_id ≡ seat.old.table_id }
        ensures tried { TriedExchange M.then self.now.table.shared.key slot node to seat.old.me
            result seat.new.me }
    {
        let shared = &self.table.shared;
        let place = slot_place(slot);
        let mut expected = word;
        for _ in 0..4u32 {
            let found = shared.compare_exchange::<M>(seat, place, expected, word_put(to, expected));
            if found == expected {
                return Ok(found);
            }
            match named_by(found, node) {
                Ok(again) => expected = again,
                Err(miss) => return Err(miss),
            }
        }
        Err(Miss::Again)
    }
}

// Returns the word that an exchange puts at a slot: the new one, or else the old one without its
// file.
fn word_put(new: Option<u64>, old: u64) -> u64
    ensures { result ≡ word_put new old }
{
    match new {
        Some(word) => word,
        None => without_file(old),
    }
}

// Returns the slot's word if it names the node.
pub(crate) fn named_by(word: u64, node: u32) -> Result<u64, Miss>
    ensures { SaysIf word node result }
{
    match file_node_of(word) {
        None => Err(Miss::Empty),
        Some(named) => {
            if named == node {
                Ok(word)
            } else {
                Err(Miss::Stale)
            }
        }
    }
}

// Returns the removal of the file of a node, from the word that named it.
pub(crate) fn removed_by(word: u64, node: u32) -> Retired
    ensures node { result.node ≡ node }
    ensures entry { result.entry ≡ entry_in word }
    ensures takes { result.takes ≡ count_in word }
{
    Retired {
        node,
        entry: entry_of(word),
        takes: count_of(word),
    }
}
