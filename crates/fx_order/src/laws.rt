//! Laws that relate orders of requests to histories of a table, over definitions alone. Each is the
//! contract of a function with an empty body.

ghost use Rattle.fx_order.specs.Laws.{EachClosedFileIsKnown, EachHistoryIsAnOrder, EachOrderIsAHistory, EachReportLeadsToOneRing};
ghost use Rattle.fx_order.specs.Laws.{NoFileThatStaysIsClosed};

/// States that what one history of its table leads to for a submission, one order of its requests,
/// done one at a time, leads to as well: the completions, the closes and the files at the slots
/// afterwards. The report's closes are exactly the files that the requests of the order took from
/// their slots.
#[tactic(auto, using(crate::proofs::Ordered::each_history_is_an_order))]
pub fn each_history_is_an_order()
    ensures { EachHistoryIsAnOrder }
{}

/// States that what one order of a submission's requests leads to, one history of its table leads
/// to as well. So no behaviour is lost by thinking of a submission as an order.
#[tactic(auto, using(crate::proofs::Histories::each_order_is_a_history))]
pub fn each_order_is_a_history()
    ensures { EachOrderIsAHistory }
{}

/// States that all orders of the requests that lead to a report lead to one ring: the same file is
/// at each slot. So whoever continues from the report needn't know the order.
pub fn each_report_leads_to_one_ring()
    ensures { EachReportLeadsToOneRing }
{}

/// States that each file that a submission closed was at a slot before it, or the submission
/// installed it, without a tag, and that no two of these files have the same mark.
pub fn each_closed_file_is_known()
    ensures { EachClosedFileIsKnown }
{}

/// States that no file that a submission leaves at a slot is among those that it closed.
pub fn no_file_that_stays_is_closed()
    ensures { NoFileThatStaysIsClosed }
{}
