//! The arguments of a command that its errors are about.

ghost use Rattle.std.specs.Prelude.{◌≡◌};
ghost use Rattle.plan_errors.specs.Subjects as spec;

use crate::codes::Code;

/// The kind of contents of a command's file.
#[derive(Clone, Copy, Debug, PartialEq, Eq)]
pub enum Contents {
    /// Perhaps the contents that the command requires.
    Unknown,
    /// A list of activities.
    ActivityList,
    /// A list of orders.
    OrderList,
}

/// The arguments of a command that an error can be about, as on the command line: `-` is the name of
/// standard input.
#[derive(Clone, Copy, Debug, Drop)]
pub struct Context<'a> {
    /// The file of the project, of the job shop or of the list.
    pub file: Option<&'a str>,
    /// The file of the starts.
    pub starts: Option<&'a str>,
    /// The files of the starts of two schedules.
    pub starts_a: Option<&'a str>,
    pub starts_b: Option<&'a str>,
    /// The file of the holidays.
    pub holidays: Option<&'a str>,
    /// The priority rule.
    pub rule: Option<&'a str>,
    /// The budget or the number of nodes.
    pub limit: Option<&'a str>,
    /// The first date.
    pub first_date: Option<&'a str>,
    /// The weekday marks.
    pub weekdays: Option<&'a str>,
    /// The option with the capacities.
    pub capacity: Option<&'a str>,
    /// The database of an office.
    pub office: Option<&'a str>,
    /// The file of the log of a search.
    pub log: Option<&'a str>,
}

/// The argument that an error is about.
#[derive(Clone, Copy, Debug, PartialEq, Eq)]
pub enum About {
    /// The file of a project or of a job shop.
    Plan,
    /// The file of a list.
    List,
    /// The file of the starts.
    Starts,
    /// The file of the starts of schedule A.
    StartsA,
    /// The file of the starts of schedule B.
    StartsB,
    /// The file of the holidays.
    Holidays,
    /// The priority rule.
    Rule,
    /// The budget or the number of nodes.
    Limit,
    /// The first date.
    FirstDate,
    /// The weekday marks.
    Weekdays,
    /// The option with the capacities.
    Capacity,
    /// The database of an office.
    Office,
    /// The file of the log of a search.
    Log,
    /// No argument.
    Other,
}

impl About {
    /// Whether it is a file.
    pub fn is_file(self) -> bool
        ensures { result ≡ spec.is_file self }
    {
        match self {
            About::Plan
            | About::List
            | About::Starts
            | About::StartsA
            | About::StartsB
            | About::Holidays
            | About::Office
            | About::Log => true,
            About::Rule
            | About::Limit
            | About::FirstDate
            | About::Weekdays
            | About::Capacity
            | About::Other => false,
        }
    }

    /// Returns an argument as hints print it: a file with the name `-` is standard input.
    pub(crate) fn shown(self, argument: &str) -> &str
        ensures { result.now ≡ spec.shown_as self argument.now }
    {
        if self.is_file() && argument == "-" {
            "standard input"
        } else {
            argument
        }
    }
}

impl<'a> Context<'a> {
    /// A command without any of these arguments.
    pub const NONE: Context<'static> = Context {
        file: None,
        starts: None,
        starts_a: None,
        starts_b: None,
        holidays: None,
        rule: None,
        limit: None,
        first_date: None,
        weekdays: None,
        capacity: None,
        office: None,
        log: None,
    };

    /// Returns the argument that is this subject, if the command has it.
    pub fn argument(self, subject: About) -> Option<&'a str>
        ensures { result ≡ spec.argument_of self.entry subject }
    {
        match subject {
            About::Plan | About::List => self.file,
            About::Starts => self.starts,
            About::StartsA => self.starts_a,
            About::StartsB => self.starts_b,
            About::Holidays => self.holidays,
            About::Rule => self.rule,
            About::Limit => self.limit,
            About::FirstDate => self.first_date,
            About::Weekdays => self.weekdays,
            About::Capacity => self.capacity,
            About::Office => self.office,
            About::Log => self.log,
            About::Other => None,
        }
    }
}

// Returns the cause of an error of a project or a job shop with these contents.
fn plan_cause(contents: Contents, code: Code) -> &'static str
    ensures { result.now ≡ spec.plan_cause contents code }
{
    match contents {
        Contents::ActivityList => "this is a list of activities; plan import converts it",
        Contents::OrderList => "this is a list of orders; plan import --shop converts it",
        Contents::Unknown => code.cause(),
    }
}

// Returns the cause of an error of a list with these contents.
fn list_cause(contents: Contents, code: Code) -> &'static str
    ensures { result.now ≡ spec.list_cause contents code }
{
    match (contents, code) {
        (Contents::ActivityList, Code::NoDurations) =>
            "this is a list of activities; leave out --shop",
        _ => code.cause(),
    }
}

// Returns the cause of an error of starts.
fn starts_cause(code: Code) -> &'static str
    ensures { result.now ≡ spec.starts_cause code }
{
    match code {
        Code::MissingHead => "the columns aren't those of a table of start times",
        _ => code.cause(),
    }
}

/// Returns the likely cause of an error about this subject, in a file with these contents.
pub(crate) fn cause_in(contents: Contents, subject: About, code: Code) -> &'static str
    ensures { result.now ≡ spec.cause_in contents subject code }
{
    match subject {
        About::Plan => plan_cause(contents, code),
        About::List => list_cause(contents, code),
        About::Starts | About::StartsA | About::StartsB => starts_cause(code),
        _ => code.cause(),
    }
}
