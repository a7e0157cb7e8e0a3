//! The command line of `fixfiles`.
ghost use Rattle.std.specs.Prelude.{◌≤◌, IfOk};
ghost use Rattle.fx_table.specs.declared.limits.TheConstants.{MAX_PASSES};

use crate::{Refusal, number_option, option, words};
use clap::error::ErrorKind;
use clap::{Arg, ArgMatches, Command, Error};
use std::alloc::{AllocError, Global};
use std::convert::AsStr;
use std::str::FromStr;

const ABOUT: &str =
    "Plays a script on a table of fixed files like io_uring's, in memory: reads it from standard \
                     input, and prints the result of each request and the files that were closed";

const TABLES: &[&str] = &["words", "baton"];

const SCRIPTS_AND_STATUSES: &str = "\
A script has a command on each line. `file` lines name files and their bytes; `sparse` and
`register` make a table; `open`, `read`, `close` and `update` are requests, and the next
`submit` submits them. A request that ends in `link` must succeed before the next one starts;
one that ends in `hardlink` need only complete.
This is a script:

    file a.txt 68656c6c6f
    sparse 2
    open a.txt at 0 link
    read 0 0 5 link
    close 0
    submit

Exit status:
  0  the script was played and all its text written, or help was asked for
  2  an argument is wrong
  3  the script has a fault, whose line and name are told
  4  the script couldn't be read, or the text couldn't be written
  5  memory was refused";

/// The table that the workers share.
#[derive(Clone, Copy)]
pub enum Table {
    /// The lock-free table, of packed words.
    Words,
    /// The table guarded by one word.
    Baton,
}

/// The error that no table has this name.
#[derive(Clone, Copy)]
pub struct NoTable;

impl FromStr for Table {
    type Err = NoTable;

    fn from_str(name: &str) -> Result<Table, NoTable> {
        match name {
            "words" => Ok(Table::Words),
            "baton" => Ok(Table::Baton),
            _ => Err(NoTable),
        }
    }
}

/// The settings of a run.
#[derive(Clone, Copy)]
pub struct Settings {
    /// The number of workers that play a submission, 1 to 16.
    pub workers: u32,
    /// The table that they share.
    pub table: Table,
}

fn workers_option<'a>(alloc: Global) -> Arg<'a> {
    let help = "How many threads play a submission, 1 to 16";
    number_option(alloc, "workers", "N", 16, help).default_value("1")
}

fn table_option<'a>(alloc: Global) -> Arg<'a> {
    let help = "Which table they share: `words` has no lock, `baton` is guarded by one word";
    option(alloc, "table", "NAME", help)
        .value_parser(TABLES)
        .default_value("words")
}

// Returns the command line, whose only arguments are options.
fn options<'a>(alloc: Global) -> Result<Command<'a>, AllocError> {
    Command::new(alloc, "fixfiles")
        .about(ABOUT)
        .after_help(SCRIPTS_AND_STATUSES)
        .override_usage("fixfiles [OPTIONS] < SCRIPT")
        .arg(workers_option(alloc))?
        .arg(table_option(alloc))
}

// Returns the command line with a script as an argument, which is refused with a tip.
fn with_script<'a>(alloc: Global) -> Result<Command<'a>, AllocError> {
    options(alloc)?.arg(Arg::new(alloc, "script").hide(true))
}

// Returns the error of a script that is given as an argument.
fn script_given(alloc: Global, path: &str) -> Result<Error, AllocError> {
    let message = format!(in alloc;
        "unexpected argument '{path}' found\n\n  tip: the script is read from standard input, as in 'fixfiles < {path}'"
    )?;
    options(alloc)?.error(ErrorKind::UnknownArgument, message.as_str())
}

// Checks whether the words have an argument that there isn't.
fn is_unknown(found: &Result<ArgMatches<'_>, Error>) -> bool {
    match found {
        Err(error) => error.kind() == ErrorKind::UnknownArgument,
        Ok(_) => false,
    }
}

// Returns the arguments of a command line. Where a script may follow, clap advises to pass an
// unknown option as one: that is left out.
fn matches_of<'a, S: AsStr>(alloc: Global, words: &'a [S]) -> Result<ArgMatches<'a>, Error> {
    let found = with_script(alloc)?.try_get_matches_from(words);
    if is_unknown(&found) {
        return options(alloc)?.try_get_matches_from(words);
    }
    found
}

// Returns the number of workers, which has a default and was checked to be in its range.
fn workers_of(matches: &ArgMatches<'_>) -> u32
    ensures { (1 ≤ result) × (result ≤ MAX_PASSES) }
{
    match matches.get_one::<u32>("workers") {
        Some(workers @ 1..=16) => workers,
        _ => 1,
    }
}

/// Parses the words of a command line.
///
/// # Errors
/// Returns clap's error if the words ask for help or aren't the program's, or if an allocation
/// fails.
pub fn settings_in<S: AsStr>(alloc: Global, words: &[S]) -> Result<Settings, Error>
    ensures { IfOk result (λ asked. (1 ≤ asked.workers) × (asked.workers ≤ MAX_PASSES)) }
{
    let matches = matches_of(alloc, words)?;
    if let Some(path) = matches.get_str("script") {
        return Err(script_given(alloc, path)?);
    }
    Ok(Settings {
        workers: workers_of(&matches),
        table: matches.get_one("table").unwrap_or(Table::Words),
    })
}

/// Parses the arguments of the program.
///
/// # Errors
/// Returns the reason why no script is played; a request for help is one.
pub fn asked_settings(rt: &HostRuntime) -> Result<Settings, Refusal>
    ensures { IfOk result (λ asked. (1 ≤ asked.workers) × (asked.workers ≤ MAX_PASSES)) }
{
    let words = words(rt)?;
    Ok(settings_in(rt.alloc(), words.as_slice())?)
}
