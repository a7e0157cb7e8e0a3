//! Closes the files that the calls of a table return, into a list.
ghost use Rattle.std.specs.Prelude.{◌<◌, ◌≤◌, ◌+◌, vec_len};

use fx_base::{CloseList, OpenFile};

/// Closes the file that a call returned, if it returned one.
pub(crate) fn close_returned(file: Option<OpenFile>, closes: &mut CloseList)
    requires { 0 < closes.old.room }
    ensures { closes.old.room ≤ closes.new.room + 1 }
{
    if let Some(file) = file {
        closes.close(file);
    }
}

/// Closes the files that the closed table had.
pub(crate) fn close_all(mut left: Vec<(u32, OpenFile)>, closes: &mut CloseList)
    requires { vec_len left ≤ closes.old.room }
{
    while let Some((_slot, file)) = left.pop() {
        closes.close(file);
    }
    left.destroy_empty();
}
