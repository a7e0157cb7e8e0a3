//! The life of a table: the places of its words, its opening, its end, and what threads show.

pub(crate) mod close;
pub(crate) mod layout;
pub(crate) mod open;
pub(crate) mod shown;
