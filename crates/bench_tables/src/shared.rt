//! The calls of a shared table as the work makes them: an installation and a removal each retire
//! the file that was there. A call returns 1, or 0 if it did nothing: it found no file, the table
//! doesn't have the slot, or the pass has no file number left.
ghost use Rattle.std.specs.Prelude.{◌<◌, ◌≤◌, IsTrue, vec_capacity};
ghost use Rattle.fx_table.specs.Pass.{IsIdle};

use fx_base::{Catalogue, OpenFile};
use fx_table::FileTable;
use std::sync::Wait;

/// The number of bytes of a read.
pub(crate) const READ_LEN: u32 = 64;

// Discards a file that a call returned, if any.
fn discard(file: Option<OpenFile>) {
    if let Some(file) = file {
        file.discard();
    }
}

// Checks whether the pass can install a file, after a draw if its last chain has no number left.
fn can_install<T: FileTable>(table: &T, pass: &mut T::Pass) -> bool
    requires { T.fits table.now pass.old × IsIdle (T.view pass.old) }
    ensures ready { T.fits table.now pass.new × IsIdle (T.view pass.new) }
    ensures numbers { IsTrue result → 0 < (T.view pass.new).numbers_left }
{
    if table.numbers_left(pass) == 0 {
        table.draw(pass);
    }
    table.numbers_left(pass) > 0
}

/// Looks a slot up and releases the file there.
pub(crate) fn look<T: FileTable, R: Wait>(rt: &R, table: &T, pass: &mut T::Pass, slot: u32) -> u32
    requires { T.fits table.now pass.old × IsIdle (T.view pass.old) }
    ensures { T.fits table.now pass.new × IsIdle (T.view pass.new) }
{
    if slot < table.size() {
        if let Ok(hold) = table.look(rt, pass, slot) {
            discard(table.release(rt, pass, hold));
            return 1;
        }
    }
    0
}

/// Looks a slot up, reads from the file there, and releases it.
pub(crate) fn read<T: FileTable, R: Wait>(
    rt: &R,
    table: &T,
    pass: &mut T::Pass,
    catalogue: &Catalogue,
    slot: u32,
    into: &mut Vec<u8>,
) -> u32
    requires ready { T.fits table.now pass.old × IsIdle (T.view pass.old) }
    requires room { READ_LEN ≤ vec_capacity into.old }
    ensures ready { T.fits table.now pass.new × IsIdle (T.view pass.new) }
    ensures room { READ_LEN ≤ vec_capacity into.new }
{
    if slot < table.size() {
        if let Ok(hold) = table.look(rt, pass, slot) {
            into.clear();
            catalogue.read_into(hold.entry, 0, READ_LEN, into);
            discard(table.release(rt, pass, hold));
            return u32::from(into.len() == READ_LEN as usize);
        }
    }
    0
}

/// Installs a file at a slot and retires the one that was there.
pub(crate) fn put<T: FileTable, R: Wait>(
    rt: &R,
    table: &T,
    pass: &mut T::Pass,
    slot: u32,
    file: OpenFile,
) -> u32
    requires { T.fits table.now pass.old × IsIdle (T.view pass.old) }
    ensures { T.fits table.now pass.new × IsIdle (T.view pass.new) }
{
    if slot >= table.size() || !can_install(table, pass) {
        file.discard();
        return 0;
    }
    if let Some(retired) = table.put(rt, pass, slot, file) {
        discard(table.retire(rt, pass, retired));
    }
    1
}

/// Installs a file at an empty slot of the allocation range, and returns the slot.
pub(crate) fn put_any<T: FileTable, R: Wait>(
    rt: &R,
    table: &T,
    pass: &mut T::Pass,
    file: OpenFile,
) -> Option<u32>
    requires { T.fits table.now pass.old × IsIdle (T.view pass.old) }
    ensures { T.fits table.now pass.new × IsIdle (T.view pass.new) }
{
    if !can_install(table, pass) {
        file.discard();
        return None;
    }
    match table.put_any(rt, pass, file) {
        Ok(slot) => Some(slot),
        Err(file) => {
            file.discard();
            None
        }
    }
}

/// Empties a slot and retires the file that was there.
pub(crate) fn take<T: FileTable, R: Wait>(rt: &R, table: &T, pass: &mut T::Pass, slot: u32) -> u32
    requires { T.fits table.now pass.old × IsIdle (T.view pass.old) }
    ensures { T.fits table.now pass.new × IsIdle (T.view pass.new) }
{
    if slot < table.size() {
        if let Ok(retired) = table.take(rt, pass, slot) {
            discard(table.retire(rt, pass, retired));
            return 1;
        }
    }
    0
}
