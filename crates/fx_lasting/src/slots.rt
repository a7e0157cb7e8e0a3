//! The words of slots: what empties, fills or replaces a slot.

pub(crate) mod at_empty;
pub(crate) mod by_key;
pub(crate) mod by_node;
pub(crate) mod current;
pub(crate) mod remove_by_key;
pub(crate) mod replace_by_key;
pub(crate) mod swap;
