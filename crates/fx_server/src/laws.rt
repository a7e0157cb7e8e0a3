//! Laws of the numbers that workers draw, and of the keys that have them.
ghost use Rattle.fx_server.specs.EndsOfKeys.{DoneRemovalsEndKeys, DoneReplacementsEndKeys, KeysEndOnce};
ghost use Rattle.fx_server.specs.FileNumbers.{NumbersAreDrawnOnce, NumbersLast};
ghost use Rattle.fx_server.specs.FilesNumbers.{FilesHaveTheirOwnNumbers, OpenedWorkersDrawTheirNumbers};
ghost use Rattle.fx_server.specs.KeysFindFiles.{AKeyFindsItsFile, ExportsKeepNumbers, FilesInUseHaveTheirNumbers};
ghost use Rattle.fx_server.specs.StaleKeys.{StaleKeysHadAnother};

/// States that no number but 0 is drawn twice by the workers of a table, so that no key names two
/// values, and how many numbers a worker has.
#[tactic(auto, using(crate::proofs::FileNumbers::numbers_once, crate::proofs::FileNumbers::numbers_last))]
pub fn numbers_are_drawn_once()
    ensures once { NumbersAreDrawnOnce }
    ensures last { NumbersLast }
{}

/// States that of two calls which remove or replace one key, by whichever workers, one does. In the
/// history of all passes (`fx_lasting::laws::has_one_history`) a key is ended by one event at most,
/// if no two of its files have one number; and a call by key that is done has made such an event.
pub fn a_key_ends_once()
    ensures once { KeysEndOnce }
    ensures removals { DoneRemovalsEndKeys }
    ensures replacements { DoneReplacementsEndKeys }
{}

/// States that a call by key answers `STALE` only if the slot had another file than that of the key
/// at a moment of the call: after what a pass of the worker had seen before it, and within what a
/// pass of the worker has seen after it.
#[tactic(auto, using(crate::proofs::StaleKeys::stale_keys))]
pub fn a_stale_key_had_another_file()
    ensures { StaleKeysHadAnother }
{}

/// States that no two files of a history have one number but 0, if each pass installs files with
/// numbers that the worker at its place draws, each for one file; and that each export of
/// `fx_server_c` keeps this of its worker, of which it holds when the table was opened.
pub fn files_have_their_own_numbers()
    ensures numbers { FilesHaveTheirOwnNumbers }
    ensures opened { OpenedWorkersDrawTheirNumbers }
    ensures exports { ExportsKeepNumbers }
{}

/// States that a look-up by a key that finds a file finds the one whose installation returned the
/// key, with its tag, whichever workers made the two calls. And that no two files of a table have
/// one number but 0, whatever calls of exports its workers made since it was opened.
pub fn a_key_finds_its_file()
    ensures numbers { FilesInUseHaveTheirNumbers }
    ensures finds { AKeyFindsItsFile }
{}
