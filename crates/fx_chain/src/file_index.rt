//! The file index of an open.
ghost use Rattle.std.specs.Prelude.{◌≡◌};
ghost use Rattle.fx_chain.specs.Target.{target_of};

use crate::request::Target;

/// The file index that asks for any free slot (io_uring_prep_openat(3), "IORING_FILE_INDEX_ALLOC").
const ANY_FREE: u32 = 4_294_967_295;

/// Returns the target of an open with this file index (io_uring_prep_openat(3), "file_index"):
/// `None` for 0, which asks for a descriptor of the process and no slot, any free slot for
/// 4,294,967,295, and for every other number the slot numbered one less.
pub fn target(file_index: u32) -> Option<Target>
    ensures { result ≡ target_of file_index }
{
    match file_index {
        0 => None,
        ANY_FREE => Some(Target::Any),
        _ => Some(Target::Slot(file_index - 1)),
    }
}
