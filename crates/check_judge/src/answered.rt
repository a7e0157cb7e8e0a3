//! A request and its completion, of which claims are derived, and a table with its claims.
ghost use Rattle.std.specs.Prelude.{◌≡◌, ◌+◌, ◌<◌, ◌^◌};
ghost use Rattle.check_judge.specs.Words.{None, length, IsWithinLimits, asked_of, operation_of};
ghost use Rattle.fx_chain.specs.Refusal.{refusal_of};

use check_search::Claim;
use fx_base::{Catalogue, Closed};
use fx_chain::{Completion, Place, Request};
use fx_order::Slots;
use std::alloc::Global;

/// The values that are known when claims are derived.
#[derive(Clone, Copy)]
pub(crate) struct ClaimSetting<'a> {
    pub alloc: Global,
    pub catalogue: &'a Catalogue,
    /// The number of slots.
    pub size: u32,
    /// The first slot of the allocation range, and its number of slots.
    pub range: (u32, u32),
    /// The closed files of the report.
    pub closes: &'a [Closed],
}

/// A request that isn't refused, its place, the catalogue entry that it opens, and its completion.
#[derive(Drop)]
pub(crate) struct AnsweredRequest<'a> {
    pub setting: ClaimSetting<'a>,
    pub place: Place,
    pub entry: u8,
    pub request: &'a Request,
    pub c: &'a Completion,
    pub ghost limits: { IsWithinLimits (asked_of request.now) },
    pub ghost accepted: { refusal_of setting.catalogue.now setting.size (operation_of request.now.op)
        ≡ None },
}

/// A table, the files that were closed, and the claims of each chain.
#[derive(Clone, Copy)]
pub(crate) struct TableRecorded<'a> {
    pub slots: &'a Slots,
    pub closes: &'a [Closed],
    pub chains: &'a [Vec<Claim>],
    pub ghost small: { length slots.now.at.items < 2 ^ 32 },
    pub ghost few: { length chains.now + 1 < 2 ^ 32 },
}
