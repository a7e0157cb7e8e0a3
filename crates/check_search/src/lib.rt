//! A search for an order of claims, one claim for each reported access. Nothing is proved of the
//! search; proved code checks what it found.
#![tactic(auto)]

mod cell;
mod certificate;
mod claim;
mod component;
mod dead;
mod node;
mod plans;
mod search;
mod state;
mod steps;
mod tally;
mod tracks;
mod walk;

pub use cell::{Cell, apply, cell_at};
pub use certificate::{Web, shows_no_end};
pub use claim::{Claim, Condition, Leaves, Resident, Strand, has_slot, resident_for};
pub use component::components;
pub use dead::{is_dead_by, is_uneven};
pub use node::{claim_of, start_of};
pub use search::{Doubt, FEW_STATES, Found, Limits, explore};
pub use steps::Steps;
