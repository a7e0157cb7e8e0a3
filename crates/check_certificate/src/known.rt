//! Points that are at different times by a known order.
ghost use Rattle.check_certificate.specs.Words.{All, IsTrue, true};
ghost use Rattle.std.specs.Prelude.{◌≡◌};
ghost use Rattle.check_certificate.specs.Absent.{IsInEach};
ghost use Rattle.check_certificate.specs.Forced.{IsForced};
ghost use Rattle.check_certificate.specs.declared.beginning.LogBeginning.{LogBeginning as In};
ghost use Rattle.check_certificate.specs.Leaves as leave;

use crate::certificate::{Point, PointOrder};

// Checks whether an order says that a point comes before another one, at another time.
fn says(order: &PointOrder, from: Point, to: Point) -> bool
    ensures sound { IsTrue result
        → order.now ≡ record { from = from; to = to; strict = true } }
    ensures exact { result ≡ leave.says order.now from to }
{
    if !order.strict || order.from != from || order.to != to {
        return false;
    }
    true
}

/// Checks whether an order says that two points are at different times.
#[tactic(auto, using(crate::proofs::Takers::strict_apart, crate::proofs::Takers::strict_apart_back))]
pub(crate) fn is_apart(order: &PointOrder, one: Point, other: Point) -> bool
    ensures sound { IsTrue result → (b : In) → IsForced b order.now
        → IsInEach b (λ at. at one ≡ at other → ⊥) }
    ensures exact { result ≡ leave.is_apart order.now one other }
{
    if says(order, one, other) {
        return true;
    }
    says(order, other, one)
}

/// Checks whether one of the orders says so.
pub(crate) fn are_apart(known: &[PointOrder], one: Point, other: Point) -> bool
    ensures sound { IsTrue result → (b : In) → All (IsForced b) known.now
        → IsInEach b (λ at. at one ≡ at other → ⊥) }
    ensures exact { result ≡ leave.are_apart known.now one other }
{
    for order in known {
        if is_apart(order, one, other) {
            return true;
        }
    }
    false
}

/// Checks whether a strict order is one of the known ones.
pub(crate) fn is_known(known: &[PointOrder], from: Point, to: Point) -> bool
    ensures sound { IsTrue result → (b : In) → All (IsForced b) known.now
        → IsForced b (record { from = from; to = to; strict = true }) }
    ensures exact { result ≡ leave.is_known known.now from to }
{
    for order in known {
        if says(order, from, to) {
            return true;
        }
    }
    false
}
