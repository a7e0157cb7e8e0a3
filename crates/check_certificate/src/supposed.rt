//! The steps of a certificate, one after another, and the order that some of them suppose.
ghost use Rattle.check_certificate.specs.Words.{All, IfOk, IfSome, IsTrue, None, option_map, PointOrder as Order};
ghost use Rattle.std.specs.Prelude.{◌≡◌};
ghost use Rattle.check_certificate.specs.Forced.{IsContradicted, IsForced};
ghost use Rattle.check_certificate.specs.Said.{given_of};
ghost use Rattle.check_certificate.specs.Supposed.{AreKnownOrders, IsKeptByNone, under};
ghost use Rattle.check_certificate.specs.declared.beginning.LogBeginning.{LogBeginning as In};
ghost use Rattle.check_certificate.specs.Right as right;

use crate::beginning::LogBeginning;
use crate::certificate::{PointOrder, Step};
use fx_base::NoMemory;
use std::alloc::Global;

/// The orders that are known after some steps.
#[derive(Drop)]
pub(crate) struct KnownOrders {
    /// The orders, by the numbers of the steps. With a supposition they are those of the flights
    /// that keep it.
    pub(crate) orders: Vec<PointOrder>,
    /// The order that is supposed, if one is.
    pub(crate) supposed: Option<PointOrder>,
    /// The orders that were known before it was.
    pub(crate) before: Vec<PointOrder>,
}

// Returns the order that a step supposes.
fn supposition(step: &Step) -> Option<PointOrder>
    ensures { result ≡ right.supposition step.now }
{
    match *step {
        Step::Suppose(order) => Some(order),
        _ => None,
    }
}

// Checks whether a step ends a supposition.
fn is_otherwise(step: &Step) -> bool
    ensures { result ≡ right.is_otherwise step.now }
{
    matches!(step, Step::Otherwise)
}

// Returns the order that all other flights keep.
fn opposite(order: PointOrder) -> PointOrder
    ensures { result ≡ right.opposite order }
{
    PointOrder {
        from: order.to,
        to: order.from,
        strict: !order.strict,
    }
}

// Checks whether an order says that a point comes before itself.
fn is_contradiction(order: &PointOrder) -> bool
    ensures sound { IsTrue result → (b : In) → IsForced b order.now → IsKeptByNone b }
    ensures exact { result ≡ right.is_contradiction order.now }
{
    order.strict && order.from == order.to
}

// Checks whether the last order does.
fn are_contradicted(orders: &[PointOrder]) -> bool
    ensures sound { IsTrue result → (b : In) → All (IsForced b) orders.now → IsKeptByNone b }
    ensures exact { result ≡ right.are_contradicted orders.now }
{
    match orders.last() {
        Some(order) => is_contradiction(order),
        None => false,
    }
}

impl KnownOrders {
    // Checks whether the steps led to a contradiction.
    fn is_end(&self) -> bool
        ensures sound { IsTrue result → (b : In) → AreKnownOrders b self.now
            → IsKeptByNone (under b None) }
        ensures exact { result ≡ right.is_end (right.known_of self.now) }
    {
        self.supposed.is_none() && are_contradicted(self.orders.as_slice())
    }
}

impl LogBeginning<'_> {
    // Returns the beginning, of which an order is supposed or none.
    fn under(&self, supposed: Option<PointOrder>) -> LogBeginning<'_>
        ensures given { given_of result ≡ given_of self.now }
        ensures there { (order : Order) → IsForced (under self.now supposed) order
            → IsForced result order }
        ensures back { (order : Order) → IsForced result order
            → IsForced (under self.now supposed) order }
    {
        let mut own = *self;
        own.supposed = supposed;
        own
    }

    // Returns what is known after an order is supposed. Returns `None` if one is.
    fn suppose(
        &self,
        alloc: Global,
        known: KnownOrders,
        order: PointOrder,
    ) -> Result<Option<KnownOrders>, NoMemory>
        requires { AreKnownOrders self.now known }
        ensures sound { IfOk result (λ found. IfSome found (AreKnownOrders self.now)) }
        ensures exact { IfOk result (λ found. option_map right.known_of found
            ≡ right.suppose (right.known_of known) order) }
    {
        if known.supposed.is_some() {
            return Ok(None);
        }
        let mut orders = Vec::from_slice(alloc, known.orders.as_slice())?;
        orders.push(order)?;
        Ok(Some(KnownOrders {
            orders,
            supposed: Some(order),
            before: known.orders,
        }))
    }

    // Returns what is known after the order that is supposed is refuted. Returns `None` if the last
    // step doesn't refute it.
    fn otherwise(&self, alloc: Global, known: KnownOrders) -> Result<Option<KnownOrders>, NoMemory>
        requires { AreKnownOrders self.now known }
        ensures sound { IfOk result (λ found. IfSome found (AreKnownOrders self.now)) }
        ensures exact { IfOk result (λ found. option_map right.known_of found
            ≡ right.otherwise (right.known_of known)) }
    {
        let Some(order) = known.supposed else {
            return Ok(None);
        };
        if !are_contradicted(known.orders.as_slice()) {
            return Ok(None);
        }
        let count = known.orders.len() + 1;
        let mut orders = known.before;
        orders.resize(count, opposite(order))?;
        Ok(Some(KnownOrders {
            orders,
            supposed: None,
            before: Vec::new(alloc),
        }))
    }

    // Returns what is known after a step that adds an order by a rule. Returns `None` for a wrong
    // step.
    fn added(&self, known: KnownOrders, step: &Step) -> Result<Option<KnownOrders>, NoMemory>
        requires { AreKnownOrders self.now known }
        ensures sound { IfOk result (λ found. IfSome found (AreKnownOrders self.now)) }
        ensures exact { IfOk result (λ found. option_map right.known_of found
            ≡ right.known_with (given_of self.now) (right.known_of known) step.now) }
    {
        let own = self.under(known.supposed);
        let Some(order) = own.order_of(step, known.orders.as_slice()) else {
            return Ok(None);
        };
        let mut orders = known.orders;
        orders.push(order)?;
        Ok(Some(KnownOrders {
            orders,
            supposed: known.supposed,
            before: known.before,
        }))
    }

    // Returns what is known after a step. Returns `None` for a wrong step.
    fn after(
        &self,
        alloc: Global,
        known: KnownOrders,
        step: &Step,
    ) -> Result<Option<KnownOrders>, NoMemory>
        requires { AreKnownOrders self.now known }
        ensures sound { IfOk result (λ found. IfSome found (AreKnownOrders self.now)) }
        ensures exact { IfOk result (λ found. option_map right.known_of found
            ≡ right.known_after (given_of self.now) (right.known_of known) step.now) }
    {
        if let Some(order) = supposition(step) {
            return self.suppose(alloc, known, order);
        }
        if is_otherwise(step) {
            return self.otherwise(alloc, known);
        }
        self.added(known, step)
    }

    /// Checks whether the steps lead to a point that comes before itself.
    pub(crate) fn refutes(&self, alloc: Global, certificate: &[Step]) -> Result<bool, NoMemory>
        ensures sound { IfOk result (λ yes. IsTrue yes → IsContradicted self.now) }
        ensures exact { IfOk result (λ yes. yes
            ≡ right.leads_on (given_of self.now) right.nothing certificate.now) }
    {
        let mut known = KnownOrders {
            orders: Vec::new(alloc),
            supposed: None,
            before: Vec::new(alloc),
        };
        for step in certificate {
            let Some(next) = self.after(alloc, known, step)? else {
                return Ok(false);
            };
            known = next;
            if known.is_end() {
                return Ok(true);
            }
        }
        Ok(false)
    }
}
