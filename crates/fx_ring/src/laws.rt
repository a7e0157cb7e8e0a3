//! Laws: the limits of a ring as numbers, and what each submission does to files. They follow from
//! the clause `one_history` of `Ring::submit` alone. Each law is the contract of a function that
//! does nothing.

ghost use Rattle.std.specs.Prelude.{◌≡◌};
ghost use Rattle.fx_ring.specs.Laws.{NoHeldFileCloses, NoFileClosesTwice, NoFileIsLost};
ghost use Rattle.fx_ring.specs.Laws.{SameRingsDoTheSame};
ghost use Rattle.fx_ring.specs.OpenRings.{PartIsOneHistory};
ghost use Rattle.fx_ring.specs.declared.ring.TheConstants.{MOST_SUBMISSIONS, MOST_REGISTRATIONS};

/// States that a ring accepts at most 65,535 submissions, and at most 65,535 registrations and
/// updates together.
pub fn limits_are_numbers()
    ensures most_submissions { MOST_SUBMISSIONS ≡ 65535 }
    ensures most_registrations { MOST_REGISTRATIONS ≡ 65535 }
{}

/// States that in the history of a submission, a file that a request looked up is not closed before
/// the request releases it.
pub fn no_held_file_closes()
    ensures { NoHeldFileCloses }
{}

/// States that no file is closed twice in the history of a submission.
pub fn no_file_closes_twice()
    ensures { NoFileClosesTwice }
{}

/// States that no submission loses a file. Each file that was at a slot before, or that the
/// submission installed, is afterwards either at a slot and was never closed, or at no slot and was
/// closed once.
pub fn no_file_is_lost()
    ensures { NoFileIsLost }
{}

/// States that a single pass which plays a submission on a table that stays open makes one legal
/// history.
pub fn what_a_pass_alone_does_is_one_history()
    ensures { PartIsOneHistory }
{}

/// States that a submission can have the same results on two rings that contracts see as equal: the
/// numbers of their files make no difference.
#[tactic(auto, using(crate::proofs::Rings::same_history))]
pub fn rings_that_show_the_same_may_do_the_same()
    ensures { SameRingsDoTheSame }
{}
