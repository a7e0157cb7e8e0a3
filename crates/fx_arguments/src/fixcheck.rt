//! The command line of `fixcheck`.
use crate::{Refusal, number_option, option, with};
use clap::{Arg, ArgAction, ArgMatches, Command, value_parser};
use std::alloc::{AllocError, Global};
use std::convert::AsStr;

const ABOUT: &str =
    "Judges whether the rules of io_uring's fixed file table allow a text for a script, \
                     for instance what a kernel printed for it";

/// The version, as the file VERSION has it.
const VERSION: &str = "6.0.0";

const STATUSES: &str = "\
It prints `legal` and an order of requests for each accepted submission that gives the text;
`not legal` and the command at which the text breaks; or `undecided`, if no order was found or
ruled out within the limits. The exit status is then 0, 1 or 6.
With --keep-going it goes on after a break from the ring that the text shows there, if it shows
one, and prints every break.
With --history it prints, for a legal text, every event of the table on a line: the request,
the event, and the files then at the slots. scripts/draw-history draws it.
With --may it lists the answers of the request at a place, as 1.1.2, if no allocation fails.
With --all it counts the texts that the rules allow if no allocation fails, and lists the first
N of them. Each answer or text comes with orders that give it.
A script is what `fixfiles` plays, and a text is what `fixfiles`, or a kernel, prints for it.

An order is a line `order S: 1.1.1 1.2.1.0 1.1.2`: the requests of submission S, done one at a
time in this order, give the text. Each is named by its submission, its chain and its member,
from 1, and an update's by the entry of its list too, from 0.

Exit status:
  0  the text is legal, all answers or texts are counted, or help or the version was printed
  1  the text is not legal
  2  an argument is invalid
  3  the script is invalid; its first fault is printed on standard error
  4  the script or the text couldn't be read, or the verdict couldn't be written
  5  an allocation failed
  6  the text is undecided, or there may be more answers or texts";

/// The largest `--memory`: a TiB.
const MOST_MEMORY: i64 = 1_048_576;

/// The question that is asked about a script.
#[derive(Clone, Copy)]
pub enum Asked<'a> {
    /// The verdict on the text at this path, or on standard input for `-`.
    Verdict(&'a str),
    /// The answers of the request at the place that this word names.
    Answers(&'a str),
    /// A list of at most this many texts.
    Texts(u32),
}

/// The settings of a command line.
#[derive(Clone, Copy)]
pub struct Settings<'a> {
    /// The largest number of states of a part of a submission.
    pub states: u32,
    /// The largest number of MiB of these states.
    pub memory: u32,
    /// True if a whole history is printed instead of the orders.
    pub history: bool,
    /// True if the text is judged after its first break, too.
    pub keep_going: bool,
    /// The script's path, or `-` for standard input.
    pub script: &'a str,
    /// The question.
    pub asked: Asked<'a>,
}

fn flag<'a>(alloc: Global, name: &'a str, help: &'a str) -> Arg<'a> {
    Arg::new(alloc, name)
        .long(name)
        .action(ArgAction::SetTrue)
        .help(help)
}

fn states<'a>(alloc: Global) -> Arg<'a> {
    let help = "Largest number of states of a part of a submission; with more it is undecided";
    option(alloc, "states", "N", help)
        .value_parser(value_parser!(u32))
        .default_value("1000000")
}

fn memory<'a>(alloc: Global) -> Arg<'a> {
    let help =
        "Largest number of MiB of TEXT, and of these states; --all may hold almost twice as much";
    number_option(alloc, "memory", "MIB", MOST_MEMORY, help).default_value("1024")
}

fn history<'a>(alloc: Global) -> Result<Arg<'a>, AllocError> {
    let help = "Prints instead of the orders a whole legal history that gives the text";
    flag(alloc, "history", help).conflicts_with("may")
}

fn keep_going<'a>(alloc: Global) -> Result<Arg<'a>, AllocError> {
    let help = "Goes on after a break from the ring that the text shows, and prints every break";
    flag(alloc, "keep-going", help)
        .conflicts_with("may")?
        .conflicts_with("all")
}

fn may<'a>(alloc: Global) -> Arg<'a> {
    let help = "Lists the answers of the request whose place, as 1.1.2, follows instead of TEXT";
    flag(alloc, "may", help)
}

fn all<'a>(alloc: Global) -> Result<Arg<'a>, AllocError> {
    let help = "Lists every text of the script, the first N of them; by default 100";
    option(alloc, "all", "N", help)
        .value_parser(value_parser!(u32))
        .num_args(0..=1)
        .require_equals(true)
        .default_missing_value("100")
        .conflicts_with("history")
}

fn script<'a>(alloc: Global) -> Arg<'a> {
    Arg::new(alloc, "script")
        .value_name("SCRIPT")
        .required(true)
        .help("The script, or - for standard input")
}

fn text<'a>(alloc: Global) -> Result<Arg<'a>, AllocError> {
    Arg::new(alloc, "text")
        .value_name("TEXT")
        .help("The text, or - for standard input; with --may the place of a request")
        .required_unless_present("all")?
        .required_unless_present("may")
}

fn command<'a>(alloc: Global) -> Result<Command<'a>, AllocError> {
    let command = Command::new(alloc, "fixcheck")
        .version(VERSION)
        .about(ABOUT)
        .after_help(STATUSES)
        .arg(states(alloc))?
        .arg(memory(alloc))?;
    let command = with(command, history(alloc))?;
    let command = with(command, keep_going(alloc))?.arg(may(alloc))?;
    let command = with(command, all(alloc))?.arg(script(alloc))?;
    with(command, text(alloc))
}

// Returns the question, by the words after the options, which must be those that the options take.
fn asked_in<'a>(
    alloc: Global,
    matches: &ArgMatches<'a>,
    script: &'a str,
) -> Result<Asked<'a>, Refusal> {
    match (matches.get_one::<u32>("all"), matches.get_str("text")) {
        (Some(_), _) if matches.get_flag("may") => {
            Err(Refusal::Because("--all and --may are two questions: give one of them"))
        }
        (Some(most), None) => Ok(Asked::Texts(most)),
        (Some(_), Some(_)) if script.parse::<u32>().is_ok() => {
            Err(Refusal::NumberWithAll(script.to_owned(alloc)?))
        }
        (Some(_), Some(_)) => Err(Refusal::Because("--all takes no TEXT")),
        (None, None) => Err(Refusal::Because(
            "--may needs the place of a request after SCRIPT, as 1.1.2",
        )),
        (None, Some(text)) if script == "-" && text == "-" => Err(Refusal::Because(
            "the script and the text can't both be standard input",
        )),
        (None, Some(place)) if matches.get_flag("may") => Ok(Asked::Answers(place)),
        (None, Some(text)) => Ok(Asked::Verdict(text)),
    }
}

// Returns the settings that the words gave.
fn settings_of<'a>(alloc: Global, matches: &ArgMatches<'a>) -> Result<Settings<'a>, Refusal> {
    let script = matches.get_str("script").unwrap_or("-");
    // the numbers have defaults
    Ok(Settings {
        states: matches.get_one("states").unwrap_or_default(),
        memory: matches.get_one("memory").unwrap_or_default(),
        history: matches.get_flag("history"),
        keep_going: matches.get_flag("keep-going"),
        script,
        asked: asked_in(alloc, matches, script)?,
    })
}

/// Returns what the words of a command line ask for.
///
/// # Errors
/// Those of clap: help or the version is requested, an argument is unknown, missing or invalid, or
/// an allocation fails. Of this program's own: `--all` and `--may` are both given, a text follows
/// the script of `--all`, no place follows that of `--may`, or both the script and the text are
/// `-`.
pub fn settings_in<'a, S: AsStr>(alloc: Global, words: &'a [S]) -> Result<Settings<'a>, Refusal> {
    let matches = command(alloc)?.try_get_matches_from(words)?;
    settings_of(alloc, &matches)
}
