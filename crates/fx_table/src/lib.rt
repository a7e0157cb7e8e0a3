//! The contract of a file table that threads share, each thread by a pass of its own.
//!
//! [`FileTable`] is that contract: all that other crates know of a shared table. Each call's clause
//! names the events that it adds to its pass, and [`FileTable::close`] says that the events of all
//! passes are one legal history. [`RealTime`] adds the order between the calls of two threads.
//! [`move_out`] and [`put_all`] move the files of a table of one thread to the places of a shared
//! table and back. Begin reading at `specs/Pass.antt` and `file_table.rt`.
#![tactic(auto)]

mod file_table;
pub mod laws;
mod limits;
mod real_time;
mod shell;
mod values;

pub use file_table::FileTable;
pub use limits::{
    CHAIN_NUMBERS, FIRST_CHAIN_NUMBER, MAX_CHAINS, MAX_PASSES, PASS_LOOKS, numbers_for,
};
pub use real_time::RealTime;
pub use shell::{full_in_range, move_out, put_all};
pub use values::{Doing, Empty, Hold, LookFault, LookUp, Retired, Task};
