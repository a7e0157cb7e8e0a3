//! Laws of the states that flights reach, over definitions alone. Each is the contract of a
//! function with an empty body.

ghost use Rattle.check_flight.specs.Refutations.{EachRefutationIsRight};

/// States that a log has no flight in which each request finds memory, if all states that flights
/// reach are followed from event to event, and none is left.
pub fn each_refutation_is_right()
    ensures { EachRefutationIsRight }
{}
