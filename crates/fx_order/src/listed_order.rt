//! Orders of a submission's requests, as lists.
use crate::access::ChainAccess;

/// The place of the request that makes an access of an order.
#[derive(Clone, Copy, Debug, PartialEq, Eq)]
pub struct AccessPlace {
    /// The number of the chain in the submission, from 1.
    pub chain: u32,
    /// The number of the request in the chain, from 1.
    pub member: u32,
    /// The position in the list of an update, from 0; `None` for another request.
    pub entry: Option<usize>,
}

/// An order of an accepted submission's requests, done one at a time.
#[derive(Debug, Drop)]
pub struct Order {
    /// The number of the submission among the accepted ones, from 1.
    pub submission: u32,
    /// The accesses that the requests make, in order. A request that doesn't reach the table makes
    /// none.
    pub accesses: Vec<ChainAccess>,
    /// The places of their requests, in the same order.
    pub places: Vec<AccessPlace>,
}
