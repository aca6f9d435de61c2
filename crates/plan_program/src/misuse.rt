//! The reasons why no command starts.

use crate::hints::print_error;
use crate::status::Status;
use clap::Error;
use clap::error::ErrorKind;
use plan_errors::{CliFault, Context};
use plan_orders::BadOption;
use std::alloc::{AllocError, Global};
use std::io;

/// The reason why no command starts.
#[derive(Drop)]
pub enum Misuse {
    NoMemory,
    /// clap refuses the command line, or prints a help text.
    Usage(Error),
    /// An argument isn't UTF-8.
    NoText,
    NoCommand,
    /// The program has no commands on offices.
    NoOffice,
    /// Two arguments with these names are standard input.
    OneInput(&'static str, &'static str),
    /// A text that gives no capacity.
    BadCapacity(String),
    /// A text that gives no header and word.
    BadMap(String),
    /// A text that gives no header.
    BadIgnore(String),
    /// A text that gives no unit.
    BadUnit(String),
    /// A text that gives no instant and no date.
    BadNow(String),
    /// The option with this name is given, and the output isn't a calendar file.
    NeedsCalendarFile(&'static str),
    /// Dates of units that aren't days, without the units of a working day.
    NeedsPerDay,
}

impl From<AllocError> for Misuse {
    fn from(_: AllocError) -> Misuse {
        Misuse::NoMemory
    }
}

impl Misuse {
    /// Returns the reason why the arguments can't be read: memory ran out, or one isn't UTF-8.
    pub(crate) fn of_arguments(error: &io::Error) -> Misuse {
        if error.kind() == io::ErrorKind::OutOfMemory {
            Misuse::NoMemory
        } else {
            Misuse::NoText
        }
    }

    /// Returns the misuse of a text that gives no capacity.
    pub(crate) fn of_capacity(alloc: Global, text: &str) -> Misuse {
        text.to_string(alloc)
            .map_or(Misuse::NoMemory, Misuse::BadCapacity)
    }

    /// Returns the misuse of an option of a list.
    pub(crate) fn of_option(alloc: Global, bad: BadOption<'_>) -> Misuse {
        let made = match bad {
            BadOption::Map(text) => text.to_string(alloc).map(Misuse::BadMap),
            BadOption::Ignore(text) => text.to_string(alloc).map(Misuse::BadIgnore),
            BadOption::Unit(text) => text.to_string(alloc).map(Misuse::BadUnit),
            BadOption::Now(text) => text.to_string(alloc).map(Misuse::BadNow),
        };
        made.unwrap_or(Misuse::NoMemory)
    }

    /// Prints the reason, and returns the status.
    pub(crate) fn print(&self, rt: &HostRuntime) -> Status {
        match self {
            Misuse::NoMemory => print_error(rt, Context::NONE, &CliFault::Memory),
            Misuse::Usage(error) => print_usage(rt, error),
            Misuse::NoText => print_misuse(rt, "a word of the command line isn't UTF-8"),
            Misuse::NoCommand => print_misuse(rt, "no command"),
            Misuse::NoOffice => {
                print_misuse(rt, "the commands of an office need the program itself")
            }
            Misuse::BadCapacity(text) => print_bad_value(
                rt,
                text,
                "--capacity <NAME=N>",
                "N is a number from 0 to 10000",
            ),
            Misuse::BadMap(text) => print_bad_value(
                rt,
                text,
                "--map <HEADER=WORD>",
                "it needs a header and a word",
            ),
            Misuse::BadIgnore(text) => {
                print_bad_value(rt, text, "--ignore <HEADER>", "it needs a header")
            }
            Misuse::BadUnit(text) => print_bad_value(
                rt,
                text,
                "--unit <U>",
                "U is a number of days above 0, for example 0.5",
            ),
            Misuse::BadNow(text) => print_bad_value(
                rt,
                text,
                "--now <T>",
                "T is a number from 0 to 10000000, or a date such as 2026-11-30",
            ),
            Misuse::NeedsCalendarFile(option) => print_misplaced(rt, option),
            Misuse::NeedsPerDay => print_misuse(
                rt,
                "--unit with dates requires --per-day, for example --unit 0.125 --per-day 8",
            ),
            Misuse::OneInput(first, second) => print_one_input(rt, first, second),
        }
    }
}

// Prints clap's help or usage. The status is that of usage even if the usage can't be printed.
fn print_usage(rt: &HostRuntime, error: &Error) -> Status {
    if error.kind() == ErrorKind::OutOfMemory {
        return print_error(rt, Context::NONE, &CliFault::Memory);
    }
    let printed = error.print(rt);
    if error.use_stderr() {
        return Status::Misused;
    }
    match printed {
        Ok(()) => Status::Done,
        Err(_) => print_error(rt, Context::NONE, &CliFault::Output),
    }
}

/// Prints an error of the command line as clap does, and returns the status of usage.
pub(crate) fn print_misuse<R: Eprint>(rt: &R, what: &str) -> Status {
    let _ = eprintln!(rt; "error: {what}\n\nFor more information, try '--help'.");
    Status::Misused
}

// Prints the error of two arguments that are standard input, and returns the status of usage.
fn print_one_input<R: Eprint>(rt: &R, first: &str, second: &str) -> Status {
    let _ = eprintln!(rt;
        "error: {first} and {second} can't both be standard input\n\n\
        For more information, try '--help'."
    );
    Status::Misused
}

// Prints the error of a text that is no value of an option, and returns the status of usage.
fn print_bad_value(rt: &HostRuntime, text: &str, option: &str, rule: &str) -> Status {
    let _ = eprintln!(rt;
        "error: invalid value '{text}' for '{option}': {rule}\n\n\
        For more information, try '--help'."
    );
    Status::Misused
}

// Prints the error of an option for calendar files, and returns the status of usage.
fn print_misplaced<R: Eprint>(rt: &R, option: &str) -> Status {
    let _ = eprintln!(rt;
        "error: --{option} requires --format ics\n\nFor more information, try '--help'."
    );
    Status::Misused
}
