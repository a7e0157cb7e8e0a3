//! Certificates by cases: an order is supposed and refuted, and then the opposite one is known.
//! Orders that followed from it are no longer known then. While an order is supposed, nothing ends
//! a certificate.
use crate::certificates::{begins, empties, ends, events, installs, refutes, stale_log, then};
use crate::setting::Host;
use check_certificate::{Point, PointOrder, Step};
use fx_base::NoMemory;

// Returns the step that supposes that one event comes before another one.
fn supposes(first: usize, second: usize) -> Step {
    Step::Suppose(PointOrder {
        from: Point::Event(first),
        to: Point::Event(second),
        strict: true,
    })
}

// Checks whether these steps, and then those that follow from the first file's installation before
// event 2 and from the look, refute the log. The order that event 1 doesn't follow event 2 has a
// number.
fn refutes_from<H: Host>(rt: &H, first: &[Step], order: usize) -> Result<bool, NoMemory> {
    let mut steps = Vec::new(rt.alloc());
    for step in first {
        steps.push(*step)?;
    }
    let base = first.len();
    for step in [
        installs(0, 1),
        begins(2, 3, 0),
        then(base, order),
        then(base + 2, base + 1),
        empties(2, 3, base + 3),
        ends(2, 3),
        events(3, 4),
        begins(4, 5, 0),
        Step::Finds { call: 4, answer: 5 },
        then(base + 4, base + 5),
        then(base + 9, base + 6),
        then(base + 10, base + 7),
        then(base + 11, base + 8),
    ] {
        steps.push(step)?;
    }
    refutes(rt, &stale_log(rt, true)?, 6, &steps)
}

#[test]
fn refuted_order_leaves_the_opposite_one(rt: HostRuntime) {
    let case = [supposes(2, 1), events(1, 2), then(0, 1), Step::Otherwise];
    for order in 0..4 {
        assert!(rt; refutes_from(&rt, &case, order) == Ok(true));
    }
}

#[test]
fn cases_are_whole(rt: HostRuntime) {
    let (supposed, next, last) = (supposes(2, 1), events(1, 2), Step::Otherwise);
    let log = stale_log(&rt, true).expect(&rt, "memory");
    let case = [supposed, next, then(0, 1), last, then(0, 1)];
    // the contradiction is one of the supposition, and what followed from that isn't known later
    for count in [3, 5] {
        assert!(rt; refutes(&rt, &log, 6, &case[..count]) == Ok(false));
    }
    // a case ends by a contradiction, nothing else ends, and one order is supposed at a time
    let twice = [supposed, supposed, next, then(1, 2), last];
    assert!(rt; refutes_from(&rt, &[supposed, next, last], 1) == Ok(false));
    assert!(rt; refutes_from(&rt, &[next, last], 0) == Ok(false));
    assert!(rt; refutes_from(&rt, &twice, 4) == Ok(false));
}
