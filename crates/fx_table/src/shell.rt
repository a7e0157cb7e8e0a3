//! The table of one thread that a shared table is opened from: its files move to the places of the
//! shared table, and come back if the opening is refused.
ghost use Rattle.std.specs.Prelude.{◌≡◌, ◌+◌, ◌<◌, ◌≤◌, ℕ, length, IfOk, OnOk, OnErr, None};
ghost use Rattle.std.specs.Prelude.{vec_len, vec_capacity};
ghost use Rattle.fx_plain.specs.State.{IsSettled};
ghost use Rattle.fx_plain.specs.Contents.{Contents, state_of, IsPrepared};
ghost use Rattle.fx_plain.specs.declared.table.TheConstants.{MOST_SLOTS};
ghost use Rattle.fx_table.specs.FullSlots.{full_in, first_at};
ghost use Rattle.fx_table.specs.Opening.{IsGivenBack};
ghost use Rattle.fx_table.specs.Shells.{HasMovedOut};

use fx_base::{NoMemory, OpenFile};
use fx_plain::PlainTable;
use std::alloc::Global;

/// Returns the number of slots of the allocation range that have a file.
pub fn full_in_range(plain: &PlainTable) -> u32
    ensures full { let st = state_of plain.now in
        result ≡ full_in (first_at st) st.range.0 st.range.1 }
    ensures few { result ≤ (state_of plain.now).range.1 }
{
    let size = plain.size();
    let (start, len) = plain.range();
    if len == size {
        return plain.full();
    }
    let mut full = 0;
    for slot in start..start + len {
        if plain.entry_at(slot).is_some() {
            full += 1;
        }
    }
    full
}

/// Moves the files of a settled table ([`PlainTable::is_settled`]) to a new list of `count` places,
/// at least as many as there are slots: the file at slot `s` to place `s`. The other places are
/// empty. Size and range of the table stay the same, and it has room for the files, so that
/// [`put_all`] and [`PlainTable::put_back`] can't run out of memory.
///
/// # Errors
/// `NoMemory` if an allocation fails. The table then stays as it was.
pub fn move_out(
    alloc: Global,
    plain: &mut PlainTable,
    count: usize,
) -> Result<Vec<Option<OpenFile>>, NoMemory>
    requires settled { IsSettled (state_of plain.old) }
    requires count { (state_of plain.old).size ≤ count }
    ensures ok { IfOk result (λ homes. HasMovedOut plain.old count plain.new homes.items) }
    ensures err { OnErr result (plain.new ≡ plain.old) }
{
    let mut homes = Vec::with_capacity(alloc, count)?;
    let Ok(()) = make_room(plain) else {
        homes.destroy_empty();
        return Err(NoMemory);
    };
    plain.take_files(&mut homes);
    for _ in homes.len()..count {
        homes.push_reserved(None);
    }
    Ok(homes)
}

// Allocates the memory that the files come back to, unless it is there.
fn make_room(plain: &mut PlainTable) -> Result<(), NoMemory>
    requires { IsSettled (state_of plain.old) }
    ensures prepared { OnOk result (IsPrepared plain.new) }
    ensures same { OnOk result (IsGivenBack plain.old plain.new) }
    ensures few { (state_of plain.new).size ≤ MOST_SLOTS }
    ensures err { OnErr result (plain.new ≡ plain.old) }
{
    let size = plain.size();
    if plain.is_prepared() {
        return Ok(());
    }
    plain.prepare(size)?;
    Ok(())
}

/// Puts all files that [`move_out`] took out back at their slots. Requires the table and the places
/// as it left them. Afterwards the table is settled and has its files, size and range again.
pub fn put_all(plain: &mut PlainTable, mut homes: Vec<Option<OpenFile>>)
    requires { (before : Contents) × (count : ℕ)
        × HasMovedOut before count plain.old homes.items }
    ensures { (before : Contents) (count : ℕ) → HasMovedOut before count plain.old homes.items
        → IsGivenBack before plain.new }
{
    while let Some(file) = homes.pop() {
        let slot = homes.len();
        if let Some(file) = file {
            plain.put_back(slot as u32, file);
        }
    }
    homes.destroy_empty();
}
