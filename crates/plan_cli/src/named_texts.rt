//! Texts that a task reads from files of their own.

ghost use Rattle.std.specs.Prelude.{◌≡◌};
ghost use Rattle.plan_cli.specs.NamedTexts as spec;

use crate::calendars::Dates;
use crate::comparisons::Pair;
use crate::origins::Origin;
use crate::tasks::Task;
use plan_errors::About;

/// The use of a text in a task.
#[derive(Clone, Copy, Debug, PartialEq, Eq)]
pub enum Role {
    /// The starts of a schedule. A task that otherwise schedules by a rule shows them.
    Starts,
    /// The starts of schedule A in a comparison.
    StartsA,
    /// The starts of schedule B in a comparison.
    StartsB,
    /// The holidays of a calendar.
    Holidays,
    /// The old file of a comparison of two lists.
    Old,
}

impl Role {
    // Returns the argument with the text.
    pub(crate) fn about(self) -> About
        ensures { result ≡ spec.about_of self }
    {
        match self {
            Role::Starts => About::Starts,
            Role::StartsA => About::StartsA,
            Role::StartsB => About::StartsB,
            Role::Holidays => About::Holidays,
            Role::Old => About::Other,
        }
    }
}

/// A text in the file with this name, or in standard input if the name is `-`.
#[derive(Clone, Copy, Debug, Drop)]
pub struct NamedText<'a> {
    pub role: Role,
    pub name: &'a str,
}

// Returns the task with these starts. A task without starts stays as it is.
fn with_starts<'a>(task: Task<'a>, text: &'a [u8]) -> Task<'a>
    ensures { result ≡ spec.with_starts task.entry text.entry }
{
    let origin = Origin::Starts(text);
    match task {
        Task::Check { subject, .. } => Task::Check {
            starts: text,
            subject,
        },
        Task::Slack { capacities, .. } => Task::Slack {
            starts: text,
            capacities,
        },
        Task::Chart { subject, .. } => Task::Chart { origin, subject },
        Task::Days {
            dates,
            style,
            subject,
            ..
        } => Task::Days {
            origin,
            dates,
            style,
            subject,
        },
        Task::List {
            dates,
            subject,
            options,
            ..
        } => Task::List {
            origin,
            dates,
            subject,
            options,
        },
        _ => task,
    }
}

// Returns the pair with these starts of A.
fn pair_with_a<'a>(pair: Pair<'a>, text: &'a [u8]) -> Pair<'a>
    ensures { result ≡ spec.pair_with_a pair.entry text.entry }
{
    Pair { a: text, b: pair.b }
}

// Returns the pair with these starts of B.
fn pair_with_b<'a>(pair: Pair<'a>, text: &'a [u8]) -> Pair<'a>
    ensures { result ≡ spec.pair_with_b pair.entry text.entry }
{
    Pair { a: pair.a, b: text }
}

// Returns the comparison with these starts of A. Another task stays as it is.
fn with_starts_a<'a>(task: Task<'a>, text: &'a [u8]) -> Task<'a>
    ensures { result ≡ spec.with_starts_a task.entry text.entry }
{
    match task {
        Task::Compare { starts, subject } => Task::Compare {
            starts: pair_with_a(starts, text),
            subject,
        },
        Task::CompareLists {
            old,
            starts,
            subject,
        } => Task::CompareLists {
            old,
            starts: pair_with_a(starts, text),
            subject,
        },
        _ => task,
    }
}

// Returns the comparison with these starts of B. Another task stays as it is.
fn with_starts_b<'a>(task: Task<'a>, text: &'a [u8]) -> Task<'a>
    ensures { result ≡ spec.with_starts_b task.entry text.entry }
{
    match task {
        Task::Compare { starts, subject } => Task::Compare {
            starts: pair_with_b(starts, text),
            subject,
        },
        Task::CompareLists {
            old,
            starts,
            subject,
        } => Task::CompareLists {
            old,
            starts: pair_with_b(starts, text),
            subject,
        },
        _ => task,
    }
}

// Returns the dates with these holidays.
fn dates_with<'a>(dates: Dates<'a>, holidays: &'a [u8]) -> Dates<'a>
    ensures { result ≡ spec.dates_with dates.entry holidays.entry }
{
    Dates {
        start: dates.start,
        marks: dates.marks,
        holidays,
    }
}

// Returns the dates with these holidays, if there are dates.
fn dates_if<'a>(dates: Option<Dates<'a>>, holidays: &'a [u8]) -> Option<Dates<'a>>
    ensures { result ≡ spec.dates_if dates.entry holidays.entry }
{
    match dates {
        Some(dates) => Some(dates_with(dates, holidays)),
        None => None,
    }
}

// Returns the task with these holidays. A task without a calendar stays as it is.
fn with_holidays<'a>(task: Task<'a>, holidays: &'a [u8]) -> Task<'a>
    ensures { result ≡ spec.with_holidays task.entry holidays.entry }
{
    match task {
        Task::Days {
            origin,
            dates,
            style,
            subject,
        } => Task::Days {
            origin,
            dates: dates_with(dates, holidays),
            style,
            subject,
        },
        Task::List {
            origin,
            dates,
            subject,
            options,
        } => Task::List {
            origin,
            dates: dates_if(dates, holidays),
            subject,
            options,
        },
        _ => task,
    }
}

// Returns the comparison of lists with this old file. Another task stays as it is.
fn with_old<'a>(task: Task<'a>, text: &'a [u8]) -> Task<'a>
    ensures { result ≡ spec.with_old task.entry text.entry }
{
    match task {
        Task::CompareLists {
            starts,
            subject,
            ..
        } => Task::CompareLists {
            old: text,
            starts,
            subject,
        },
        _ => task,
    }
}

/// Returns the task with a text in place of its text with this role.
pub(crate) fn with_text<'a>(task: Task<'a>, role: Role, text: &'a [u8]) -> Task<'a>
    ensures { result ≡ spec.with_text task.entry role text.entry }
{
    match role {
        Role::Starts => with_starts(task, text),
        Role::StartsA => with_starts_a(task, text),
        Role::StartsB => with_starts_b(task, text),
        Role::Holidays => with_holidays(task, text),
        Role::Old => with_old(task, text),
    }
}
