//! The error numbers that requests and calls return, as errno(3) lists them.
ghost use Rattle.std.specs.Prelude.{◌≡◌, pos};
ghost use Rattle.fx_base.specs.Errno.{code_of};

/// An error of io_uring_enter(2) or io_uring_register(2), by its name in errno(3).
#[derive(Clone, Copy, Debug, PartialEq, Eq)]
pub enum Errno {
    /// No such file: the name is not in the catalogue.
    ENOENT,
    /// No table is registered.
    ENXIO,
    /// A slot has no file, or a list names a file that isn't in the catalogue.
    EBADF,
    /// A counter of the ring is exhausted.
    EAGAIN,
    /// An allocation failed.
    ENOMEM,
    /// A table is registered already.
    EBUSY,
    /// A slot, a list or a range isn't within the table.
    EINVAL,
    /// No slot of the allocation range is empty.
    ENFILE,
    /// A registration asks for more slots than a table may have.
    EMFILE,
    /// An earlier member severed the chain.
    ECANCELED,
}

impl Errno {
    /// Returns the positive number that Linux assigns to the error. Results carry it negated
    /// (io_uring_enter(2), "CQE ERRORS").
    pub fn code(self) -> i32
        ensures { result ≡ pos (code_of self) }
    {
        match self {
            Errno::ENOENT => 2,
            Errno::ENXIO => 6,
            Errno::EBADF => 9,
            Errno::EAGAIN => 11,
            Errno::ENOMEM => 12,
            Errno::EBUSY => 16,
            Errno::EINVAL => 22,
            Errno::ENFILE => 23,
            Errno::EMFILE => 24,
            Errno::ECANCELED => 125,
        }
    }
}
