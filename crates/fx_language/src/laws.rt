//! The limits of scripts, and laws of them, over bytes alone. Each is the contract of a function
//! with an empty body
//!.

ghost use Rattle.std.specs.Prelude.{◌≡◌, ℕ, List};
ghost use Rattle.fx_language.specs.Laws.{EachScriptHasFiles, IsScriptOrFaulty};
ghost use Rattle.fx_language.specs.declared.limits.TheConstants.{LONGEST_SCRIPT, LONGEST_LINE, LARGEST_NUMBER, LARGEST_TAG};

/// States that a script has at most 4,194,304 bytes, each line at most 10,000, no number above
/// 2,147,483,647, and no tag above 18,446,744,073,709,551,615.
pub fn limits_are_numbers()
    ensures longest_script { LONGEST_SCRIPT ≡ 4194304 }
    ensures longest_line { LONGEST_LINE ≡ 10000 }
    ensures largest_number { LARGEST_NUMBER ≡ 2147483647 }
    ensures largest_tag { LARGEST_TAG ≡ 18446744073709551615 }
{}

/// States that every byte string either is a script, which says one thing, or has one fault on one
/// line.
#[tactic(auto, using(crate::proofs::FilesOfScripts::decided))]
pub fn every_byte_string_is_a_script_or_has_one_fault()
    ensures { (bytes : List ℕ) → IsScriptOrFaulty bytes }
{}

/// States that the files of each script are a catalogue, no two with the same name, and that they
/// consist of bytes.
pub fn each_script_has_files()
    ensures { EachScriptHasFiles }
{}
