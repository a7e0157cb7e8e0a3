//! The nodes: the stocks of passes, the nodes that they keep, the files in their places and their
//! labels.

pub(crate) mod kept;
pub(crate) mod labels;
pub(crate) mod moves;
pub(crate) mod seek;
