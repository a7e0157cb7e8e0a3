//! The laws of calls that are made again, since another pass changed the slot. Each is a clause of
//! a function with an empty body.
ghost use Rattle.fx_lasting.specs.Retries.{EachHasItsChange, LostCallsAreOvertaken, RemovalsAreOvertaken, ReplacementsAreOvertaken};
ghost use Rattle.fx_lasting.specs.Retries.{EachSearchHasItsChange, InstallationsAreOvertaken, SearchesAreOvertaken};

/// States that a pass's calls that were overtaken at one slot are at most as many as the changes of
/// other passes there that the pass has learned of. Such a change is a file that another pass put
/// there or removed, or a word that the pass found changed since it had seen it. So a loop that
/// repeats such a call ends, unless others change the slot again and again.
///
/// A `LastingTable::put_empty` that answers `PutEmpty::Again` was overtaken. So was a `take_key` or
/// `put_over_key` that answers `KeyFault::Again`: each of these has found the word changed. A
/// look-up of a hot slot changes no word. While one file is at a slot, look-ups change its word at
/// most 16 times, and twice for each pass (`laws::words_are_bounded`).
///
/// The same holds of the calls that go over the allocation range: a `try_put_any` that answers
/// `TriedPut::Again`, and a `find` that answers `FoundSlot::Again`. Each has a change at a slot of
/// the range for itself, or met another pass in the middle of a call.
pub fn overtaken_calls_end()
    ensures each { EachHasItsChange }
    ensures lost { LostCallsAreOvertaken }
    ensures removal { RemovalsAreOvertaken }
    ensures replacement { ReplacementsAreOvertaken }
    ensures each_in_range { EachSearchHasItsChange }
    ensures installation { InstallationsAreOvertaken }
    ensures search { SearchesAreOvertaken }
{}
