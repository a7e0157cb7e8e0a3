//! The allocation range: the counts of its groups, the question whether it is full, and the search
//! of an empty slot.

pub(crate) mod finding;
pub(crate) mod put_any;
pub(crate) mod question;
pub(crate) mod range_count;
pub(crate) mod recent;
