//! Lists of numbers, one for each slot, and their tags.
ghost use Rattle.std.specs.Prelude.{◌≡◌, ◌+◌, ◌<◌, ◌≤◌, ℕ, ℤ, pos, List, OnErr, OnOk, false};
ghost use Rattle.std.specs.Prelude.{true, length, slice_index_or};
ghost use Rattle.std.specs.List.{list_any, zip};
ghost use Rattle.fx_plain.specs.State.{IsSettled};
ghost use Rattle.fx_plain.specs.Contents.{state_of};
ghost use Rattle.fx_plain.specs.declared.table.TheConstants.{MOST_SLOTS};
ghost use Rattle.fx_base.specs.declared.catalogue.TheConstants.{MOST_ENTRIES};
ghost use Rattle.fx_chain.specs.Answers.{is_bad_entry};
ghost use Rattle.fx_ring.specs.Registration.{is_bad_file, removed_by_number, removed_from};
ghost use Rattle.fx_ring.specs.Tags.{are_bad_tags, is_bad_tag, tag_at, tags_for};
ghost use Rattle.fx_ring.specs.Slots.{SetsList, SetsNumber, files_at};

use crate::slots::{clear_slot, fill_slot};
use fx_base::{Catalogue, CloseList, MOST_ENTRIES, Mark, NoMemory};
use fx_plain::{MOST_SLOTS, PlainTable};

// Checks whether a number is neither an empty slot nor an entry of the catalogue.
fn is_bad_file(entries: u32, number: i32) -> bool
    ensures { result ≡ is_bad_file entries number }
{
    if number < 0 {
        return number < -1;
    }
    number as u32 >= entries
}

/// Checks whether `list` has a number that is neither -1, an empty slot, nor one of the catalogue's
/// `entries` entries (io_uring_register(2), "EBADF").
pub fn has_bad_file(entries: u32, list: &[i32]) -> bool
    ensures { result ≡ list_any (is_bad_file entries) list.now }
{
    list.iter().any(|number| is_bad_file(entries, *number))
}

// Checks whether a number below 0, which opens no file, has a tag.
fn is_bad_tag(number: i32, tag: u64) -> bool
    ensures { result ≡ is_bad_tag number tag }
{
    number < 0 && tag != 0
}

// Checks whether a number below 0 has a tag other than 0 at its place.
fn has_bad_tag(list: &[i32], tags: &[u64]) -> bool
    requires { length list.now ≡ length tags.now }
    ensures { result ≡ list_any (λ pair. is_bad_tag pair.0 pair.1) (zip list.now tags.now) }
{
    let mut pairs = list.iter().zip(tags);
    pairs.any(|(number, tag)| is_bad_tag(*number, *tag))
}

/// Checks whether `tags` and `list` differ in length, or a number below 0, which opens no file, has
/// a tag other than 0. `None` stands for tag 0 at each number.
#[tactic(auto, using(crate::proofs::ListSteps::no_bad_tags))]
pub fn are_bad_tags(list: &[i32], tags: Option<&[u64]>) -> bool
    ensures { result ≡ are_bad_tags list.now (tags_for list.now tags.entry) }
{
    let Some(tags) = tags else {
        return false;
    };
    list.len() != tags.len() || has_bad_tag(list, tags)
}

/// Returns the tag at a place of a list, counted from 0: 0 if `tags` is `None` or has no such place
///.
#[tactic(auto, using(crate::proofs::ListSteps::no_tag_at))]
pub fn tag_at(tags: Option<&[u64]>, place: usize) -> u64
    ensures { (list : List ℤ) → result ≡ tag_at (tags_for list tags.entry) place }
{
    let Some(tags) = tags else {
        return 0;
    };
    tags.get(place).copied().unwrap_or(0)
}

/// The list of registration or update number `k`, for the slots from `off` on. Its files have tag 0
/// if `tags` is `None`.
#[derive(Drop)]
pub(crate) struct NumberList<'a> {
    pub(crate) catalogue: &'a Catalogue,
    pub(crate) k: u32,
    pub(crate) off: u32,
    pub(crate) list: &'a [i32],
    pub(crate) tags: Option<&'a [u64]>,
    pub ghost entries: { length catalogue.now ≤ MOST_ENTRIES },
    pub ghost good: { list_any (is_bad_entry (length catalogue.now)) list.now ≡ false },
}

// Applies the number at place `i`: -1 empties its slot, -2 leaves it, and every other one opens
// that catalogue entry there, under number `first + i` of the table.
fn apply_number(
    table: &mut PlainTable,
    numbers: &NumberList<'_>,
    first: u32,
    i: usize,
    closes: &mut CloseList,
)
    requires place { i < length numbers.now.list.now }
    requires settled { IsSettled (state_of table.old) }
    requires slots { numbers.now.off + length numbers.now.list.now ≤ (state_of table.old).size }
    requires few_slots { (state_of table.old).size ≤ MOST_SLOTS }
    requires few { first ≤ MOST_SLOTS }
    requires fresh { (state_of table.old).fresh (first + i) ≡ true }
    requires room { length (removed_by_number (slice_index_or numbers.now.list.now i (pos 0))
        (files_at (state_of table.old) (numbers.now.off + i))) ≤ closes.old.room }
    ensures files { SetsNumber numbers.now.k numbers.now.off i
        (tag_at (tags_for numbers.now.list.now numbers.now.tags) i)
        (slice_index_or numbers.now.list.now i (pos 0))
        (state_of table.old) (state_of table.new) closes.old closes.new }
    ensures fresh { (other : ℕ) → first + i < other
        → (state_of table.new).fresh other ≡ (state_of table.old).fresh other }
{
    let number = numbers.list[i];
    let place = i as u32;
    let slot = numbers.off + place;
    if number >= 0 {
        let mark = Mark::Registered {
            k: numbers.k,
            i: place,
        };
        let tag = tag_at(numbers.tags, i);
        let file = numbers.catalogue.open(number as u8, mark, tag);
        fill_slot(table, slot, first + place, file, closes);
        return;
    }
    if number > -2 {
        clear_slot(table, slot, closes);
    }
}

/// Applies a list to a settled table.
///
/// # Errors
/// `NoMemory` if an allocation fails. The table and the closes are then as before.
pub(crate) fn apply_list(
    table: &mut PlainTable,
    numbers: &NumberList<'_>,
    closes: &mut CloseList,
) -> Result<(), NoMemory>
    requires settled { IsSettled (state_of table.old) }
    requires slots { numbers.now.off + length numbers.now.list.now ≤ (state_of table.old).size }
    requires room { length (removed_from (files_at (state_of table.old)) numbers.now.off
        numbers.now.list.now) ≤ closes.old.room }
    ensures ok { OnOk result (SetsList numbers.now.k numbers.now.off numbers.now.list.now
        (tags_for numbers.now.list.now numbers.now.tags)
        (state_of table.old) (state_of table.new) closes.old closes.new) }
    ensures err { OnErr result (table.new ≡ table.old) }
{
    let first = table.size();
    let Ok(()) = table.prepare(first + numbers.list.len() as u32) else {
        return Err(NoMemory);
    };
    for i in 0..numbers.list.len() {
        apply_number(table, numbers, first, i, closes);
    }
    Ok(())
}
