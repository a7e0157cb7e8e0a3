//! A limit of runs, as the contract of a function with an empty body.

ghost use Rattle.std.specs.Prelude.{◌≡◌};
ghost use Rattle.fx_script.specs.declared.runner.TheConstants.{MOST_TURNS};

/// States that a run reads at most 8,388,608 times.
pub fn limits_are_numbers()
    ensures most_turns { MOST_TURNS ≡ 8388608 }
{}
