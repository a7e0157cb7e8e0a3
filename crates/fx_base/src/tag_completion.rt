//! Completions of resource tags.
ghost use Rattle.std.specs.Prelude.{◌≡◌};
ghost use Rattle.fx_base.specs.Tags.{tag_completion};

/// The completion that reports the close of a file with a resource tag. No request asks for it
/// (io_uring_register(2), "IORING_REGISTER_FILES2"; `struct io_uring_cqe` there).
#[derive(Clone, Copy, Debug, PartialEq, Eq)]
pub struct TagCompletion {
    /// The tag, never 0.
    pub user_data: u64,
    /// Always 0.
    pub res: i32,
    /// Always 0.
    pub flags: u32,
}

impl TagCompletion {
    // Creates the completion of a tag.
    pub(crate) fn of(tag: u64) -> TagCompletion
        ensures { result ≡ tag_completion tag }
    {
        TagCompletion {
            user_data: tag,
            res: 0,
            flags: 0,
        }
    }
}
