//! The vocabulary of every crate of the file table: error numbers, marks of installations, open
//! files, the catalogue of files that can be opened, lists of closes, and completions of resource
//! tags.
//!
//! The contract that others rely on: an [`OpenFile`] can't be lost. A program must consume it, by
//! [`CloseList::close`], which appends its identity to a list, or by [`OpenFile::discard`]. Begin
//! reading at `open_file.rt`, then `catalogue.rt` and `close_list.rt`.
#![tactic(auto)]

mod catalogue;
mod close_list;
mod errno;
pub mod laws;
mod mark;
mod name;
mod no_memory;
mod open_file;
mod tag_completion;

pub use catalogue::{AddFault, Catalogue, LONGEST_ENTRY, MOST_ENTRIES};
pub use close_list::CloseList;
pub use errno::Errno;
pub use mark::Mark;
pub use name::{LONGEST_NAME, is_name};
pub use no_memory::NoMemory;
pub use open_file::{Closed, OpenFile};
pub use tag_completion::TagCompletion;
