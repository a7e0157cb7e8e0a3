//! Updates of one slot of a settled table: the old file is closed.
ghost use Rattle.std.specs.Prelude.{◌≡◌, ◌+◌, ◌<◌, ◌≤◌, ◌++◌, ℕ, true, length, Some, None};
ghost use Rattle.std.specs.Option.{option_to_list};
ghost use Rattle.fx_plain.specs.State.{IsSettled};
ghost use Rattle.fx_plain.specs.History.{Leads};
ghost use Rattle.fx_plain.specs.Contents.{state_of, leaving};
ghost use Rattle.fx_ring.specs.Slots.{SetsSlot, CanRetire, closes_of_removed, file_removed};
ghost use Rattle.fx_ring.specs.Slots.{files_at};

use fx_base::{CloseList, OpenFile};
use fx_plain::PlainTable;

// Retires a removed file that nobody holds, and closes it.
fn close_removed(table: &mut PlainTable, removed: Option<u32>, closes: &mut CloseList)
    requires removed { CanRetire (leaving table.old) (state_of table.old) removed }
    requires room { length (option_to_list (file_removed (state_of table.old) removed))
        ≤ closes.old.room }
    ensures steps { Leads (state_of table.old) (closes_of_removed (state_of table.old) removed)
        (state_of table.new) }
    ensures files { closes.new.files
        ≡ closes.old.files ++ option_to_list (file_removed (state_of table.old) removed) }
    ensures room { closes.new.room
        + length (option_to_list (file_removed (state_of table.old) removed)) ≡ closes.old.room }
{
    let Some(number) = removed else {
        return;
    };
    if let Some(file) = table.retire(number) {
        closes.close(file);
    }
}

/// Empties a slot and closes its file.
pub(crate) fn clear_slot(table: &mut PlainTable, slot: u32, closes: &mut CloseList)
    requires settled { IsSettled (state_of table.old) }
    requires slot { slot < (state_of table.old).size }
    requires room { length (option_to_list (files_at (state_of table.old) slot)) ≤ closes.old.room }
    ensures set { SetsSlot (state_of table.old) (state_of table.new) slot None
        closes.old closes.new }
    ensures fresh { (other : ℕ) → (state_of table.new).fresh other ≡ (state_of table.old).fresh other }
{
    let removed = table.clear(slot);
    close_removed(table, removed, closes);
}

/// Puts a file at a slot, under a fresh number, and closes the file that it replaces.
pub(crate) fn fill_slot(
    table: &mut PlainTable,
    slot: u32,
    number: u32,
    file: OpenFile,
    closes: &mut CloseList,
)
    requires settled { IsSettled (state_of table.old) }
    requires slot { slot < (state_of table.old).size }
    requires fresh { (state_of table.old).fresh number ≡ true }
    requires room { length (option_to_list (files_at (state_of table.old) slot)) ≤ closes.old.room }
    ensures set { SetsSlot (state_of table.old) (state_of table.new) slot (Some file)
        closes.old closes.new }
    ensures fresh { (other : ℕ) → number < other
        → (state_of table.new).fresh other ≡ (state_of table.old).fresh other }
{
    let replaced = table.put(slot, number, file);
    close_removed(table, replaced, closes);
}
