//! The beginning of a log that is to be refuted.
ghost use Rattle.check_certificate.specs.Words.{length, map, IsCatalogue};
ghost use Rattle.std.specs.Prelude.{◌≡◌};

use crate::certificate::PointOrder;
use fx_base::Catalogue;
use fx_flight::LogEvent;
use fx_order::Slots;

/// The beginning of a log, and what was before it.
#[derive(Clone, Copy)]
pub(crate) struct LogBeginning<'a> {
    /// The catalogue.
    pub(crate) catalogue: &'a Catalogue,
    /// The slots before the first event.
    pub(crate) slots: &'a Slots,
    /// The number of slots.
    pub(crate) size: u32,
    /// The events of the beginning.
    pub(crate) events: &'a [LogEvent],
    /// The bytes of each entry of the catalogue.
    pub(crate) contents: &'a [Vec<u8>],
    /// The order that is supposed of its flights, if one is.
    pub(crate) supposed: Option<PointOrder>,
    ghost is_catalogue: { IsCatalogue catalogue.now },
    ghost is_size: { size ≡ length slots.now.at.items },
    ghost are_contents: { map (λ own. own.items) contents.now
        ≡ map (λ file. file.bytes) catalogue.now },
}
