//! The commands of a script.
use fx_chain::Request;

/// A command of a script. Numbers other than tags are at most 2,147,483,647.
#[derive(Drop)]
pub enum Command {
    /// Registers a table of this number of empty slots (io_uring_register_files(3),
    /// "io_uring_register_files_sparse").
    Sparse(u32),
    /// Registers a table of the files of a list (io_uring_register_files(3)), with tags if the line
    /// has tags after the list (io_uring_register(2), "IORING_REGISTER_FILES2").
    Register(Vec<i32>, Option<Vec<u64>>),
    /// Unregisters the table (io_uring_register_files(3), "io_uring_unregister_files").
    Unregister,
    /// Sets the allocation range: its first slot, and its number of slots (io_uring_register(2),
    /// "IORING_REGISTER_FILE_ALLOC_RANGE").
    Range(u32, u32),
    /// Updates the table from a slot on by a list (io_uring_register_files(3),
    /// "io_uring_register_files_update"). The new files have tags if the line has tags after the
    /// list (io_uring_register(2), "IORING_REGISTER_FILES_UPDATE2").
    Update(u32, Vec<i32>, Option<Vec<u64>>),
    /// Submits requests (io_uring_enter(2)).
    Submit(Vec<Request>),
}
