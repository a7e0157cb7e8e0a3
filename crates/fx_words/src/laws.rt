//! Laws of slot words: reading undoes packing, and one more take changes only the takes. Each is
//! the contract of a function with an empty body.
ghost use Rattle.fx_words.specs.Laws.{ReadersUndoMaker, MakerUndoesReaders};
ghost use Rattle.fx_words.specs.Laws.{OneMoreTakeChangesTakes};

/// States that a slot word yields the number and the entry that it was packed from, and that it has
/// no takes.
#[tactic(auto, using(crate::proofs::Parts::reads_back))]
pub fn readers_undo_maker()
    ensures { ReadersUndoMaker }
{}

/// States that a slot word that names a file is the word packed from its number and entry, plus its
/// takes.
#[tactic(auto, using(crate::proofs::Parts::made_back))]
pub fn maker_undoes_readers()
    ensures { MakerUndoesReaders }
{}

/// States that while the takes are below 2^32 - 1, adding 1 to a slot word neither overflows nor
/// changes the number or the entry.
#[tactic(auto, using(crate::proofs::Parts::takes_one))]
pub fn one_more_take_changes_takes()
    ensures { OneMoreTakeChangesTakes }
{}
