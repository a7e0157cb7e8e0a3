//! The holds: takes at cold slots, announcements at hot ones, and how a removed file is released.

pub(crate) mod look;
pub(crate) mod release;
pub(crate) mod visit;
