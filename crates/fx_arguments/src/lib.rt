//! The command lines of the programs `fixfiles` and `fixcheck`: their options, their help, and the
//! words that are refused.
#![tactic(auto)]

pub mod fixcheck;
pub mod fixfiles;

use clap::error::ErrorKind;
use clap::{Arg, Command, value_parser};
use std::alloc::{AllocError, Global};
use std::{env, io};

/// The exit status of a failed write.
const WRITE: u8 = 4;

/// The reason why the words of a command line are refused.
#[derive(Drop)]
pub enum Refusal {
    /// Help or the version was requested, or the arguments are invalid.
    Arguments(clap::Error),
    /// A text follows the script of `--all`; the number in the script's place, which may be meant
    /// as that of `--all`.
    NumberWithAll(String),
    /// Another reason, in words.
    Because(&'static str),
    /// An allocation for the arguments failed.
    NoMemory,
}

impl From<clap::Error> for Refusal {
    fn from(error: clap::Error) -> Refusal {
        match error.kind() {
            ErrorKind::OutOfMemory => Refusal::NoMemory,
            _ => Refusal::Arguments(error),
        }
    }
}

impl From<AllocError> for Refusal {
    fn from(_refused: AllocError) -> Refusal {
        Refusal::NoMemory
    }
}

impl Refusal {
    /// Returns the exit status: 0 after help or the version, 2 for wrong arguments, 5 if an
    /// allocation failed.
    pub fn status(&self) -> u8 {
        match self {
            Refusal::Arguments(error) if !error.use_stderr() => 0,
            Refusal::NoMemory => 5,
            _ => 2,
        }
    }

    /// Prints the reason for a program: help and the version on standard output, and the others on
    /// standard error.
    ///
    /// # Errors
    /// Returns the error of a write that fails.
    pub fn print(&self, rt: &HostRuntime, program: &str) -> io::Result<()> {
        match self {
            Refusal::Arguments(error) => error.print(rt),
            Refusal::NumberWithAll(number) => eprintln!(rt;
                "{program}: --all takes no TEXT; its number is written as --all={number}"
            ),
            Refusal::Because(words) => eprintln!(rt; "{program}: {words}"),
            Refusal::NoMemory => eprintln!(rt; "{program}: out of memory"),
        }
    }

    /// Prints the reason for a program as [`Refusal::print`] does. Returns the exit status: that of
    /// [`Refusal::status`], or 4 if help or the version couldn't be written, which it says on
    /// standard error.
    pub fn end(&self, rt: &HostRuntime, program: &str) -> u8 {
        let (is_printed, status) = (self.print(rt, program).is_ok(), self.status());
        if is_printed || status != 0 {
            return status;
        }
        // Nothing more can be done if standard error fails.
        let _ = eprintln!(rt; "{program}: write failed");
        WRITE
    }
}

// Returns an option that takes a value, which the help calls `value`.
fn option<'a>(alloc: Global, name: &'a str, value: &'a str, help: &'a str) -> Arg<'a> {
    Arg::new(alloc, name)
        .long(name)
        .value_name(value)
        .help(help)
}

// Returns an option that takes a number from 1 to `most`.
fn number_option<'a>(
    alloc: Global,
    name: &'a str,
    value: &'a str,
    most: i64,
    help: &'a str,
) -> Arg<'a> {
    option(alloc, name, value, help).value_parser(value_parser!(u32).range(1..=most))
}

// Adds an argument to a command, unless an allocation for the argument failed.
fn with<'a>(
    command: Command<'a>,
    arg: Result<Arg<'a>, AllocError>,
) -> Result<Command<'a>, AllocError> {
    match arg {
        Ok(arg) => command.arg(arg),
        Err(refused) => Err(refused),
    }
}

/// Returns the words of the command line, the program's name first.
///
/// # Errors
/// `NoMemory` if an allocation fails, and `Because` if an argument isn't UTF-8.
pub fn words(rt: &HostRuntime) -> Result<Vec<String>, Refusal> {
    match env::args(rt) {
        Ok(args) => Ok(args.collect(rt.alloc())?),
        Err(error) if error.kind() == io::ErrorKind::OutOfMemory => Err(Refusal::NoMemory),
        Err(_) => Err(Refusal::Because("an argument is no text")),
    }
}
