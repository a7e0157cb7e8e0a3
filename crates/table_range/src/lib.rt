//! The allocation range of a table that threads share: words that count the full slots of its
//! groups, and a word of questions, by which a pass decides whether the range is full.
//!
//! The slots of the range are in groups, and each group has a word. A pass takes a slot off its
//! group's count before it empties the slot, and adds a slot after it has filled it, or if it
//! emptied a slot that was empty. So a word never counts more full slots than its group has, and a
//! word that counts them all says that the group is full. Between the two steps of a removal the
//! pass clears the question word, if another pass asks whether all groups are full.
//!
//! The table makes the steps. Begin reading at `specs/Counts.antt` (the rule that every step
//! keeps), and then `proofs/Steps.antt` (a lemma for each kind of step).
#![tactic(auto)]

mod groups;
mod questions;
mod views;

pub use groups::{
    MOST_GROUPS, MOST_IN_RANGE, QUESTION, RANGE_END, counts_all, group_bits, group_len,
    group_place, group_size, groups_in,
};
pub use questions::{MOST_ASKING, asks, pass_bit};
pub use views::{Change, Survey};
