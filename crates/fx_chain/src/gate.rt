//! The calls that a test can stop a player at.
use crate::completion::Place;

/// The calls that a player makes before each request that it starts and after that request's
/// completion, so that a test can stop threads at chosen points. A player makes no call for a
/// request that is canceled.
pub trait Gate: Sync {
    /// Runs before the request at this place starts.
    fn before(&self, place: Place);

    /// Runs after the request at this place has completed.
    fn after(&self, place: Place);
}

/// A gate that stops no thread.
#[derive(Clone, Copy, Debug)]
pub struct OpenGate;

impl Gate for OpenGate {
    fn before(&self, _place: Place) {}

    fn after(&self, _place: Place) {}
}
