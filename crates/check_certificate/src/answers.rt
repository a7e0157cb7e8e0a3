//! Answers that a request can't have, whatever its accesses find.
ghost use Rattle.check_certificate.specs.Words.{IsTrue, IsCatalogue, completed_of, asked_of, operation_of};
ghost use Rattle.std.specs.Prelude.{◌≡◌};
ghost use Rattle.check_certificate.specs.Answers.{IsImpossible, fits_refusal, is_impossible, is_possible, is_severed};

use fx_base::{Catalogue, Errno};
use fx_chain::{Completion, Request, refusal_of};

// Checks whether a request fits an answer: one that is refused has the answer of its error.
fn fits_refusal(refused: Option<Errno>, request: &Request, c: &Completion) -> bool
    ensures { result ≡ fits_refusal refused (operation_of request.now.op) (completed_of c.now) }
{
    match refused {
        Some(errno) => c.is_error(errno),
        None => (request.is_read() || c.got.is_empty()) && request.may_answer(c),
    }
}

// Checks whether an answer says that the request found no memory or was canceled.
fn is_severed(c: &Completion) -> bool
    ensures { result ≡ is_severed (completed_of c.now) }
{
    c.is_error(Errno::ENOMEM) || (c.place.member > 1 && c.is_error(Errno::ECANCELED))
}

// Checks whether a request of a chain may have an answer, by what it says of itself.
fn is_possible(catalogue: &Catalogue, size: u32, request: &Request, c: &Completion) -> bool
    ensures { result ≡ is_possible catalogue.now size (completed_of c.now) (asked_of request.now) }
{
    is_severed(c) || fits_refusal(refusal_of(catalogue, size, request), request, c)
}

/// Checks whether a request of a chain at a table of `size` slots can't have an answer, whatever
/// its accesses find. False says nothing: it is returned for ENOMEM, and for ECANCELED unless the
/// request is its chain's first one.
pub fn is_impossible(catalogue: &Catalogue, size: u32, request: &Request, c: &Completion) -> bool
    ensures sound { IsTrue result → IsCatalogue catalogue.now
        → IsImpossible catalogue.now size (completed_of c.now) (asked_of request.now) }
    ensures exact { result ≡ is_impossible catalogue.now size (completed_of c.now)
        (asked_of request.now) }
{
    !is_possible(catalogue, size, request, c)
}
