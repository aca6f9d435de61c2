//! The exit status of the program.

use plan_sgs::Verdict;
use plan_weekverdict::WeekVerdict;

/// The outcome of a command, which decides the exit status.
#[derive(Clone, Copy, Debug, PartialEq, Eq)]
pub enum Status {
    /// The command has printed its result.
    Done,
    /// The command has printed an error.
    Failed,
    /// The command line is wrong.
    Misused,
    /// The schedule that `plan check --status` has tested isn't active, or isn't feasible for a list
    /// with dates.
    NotActive,
}

impl Status {
    ghost use Rattle.std.specs.Prelude.{◌≡◌};
    ghost use Rattle.plan_program.specs.Statuses.{code_of, status_of, week_status_of};

    /// Returns the outcome of `plan check --status` for its verdict.
    pub fn of(verdict: Verdict) -> Status
        ensures { result ≡ status_of verdict }
    {
        match verdict {
            Verdict::Active => Status::Done,
            Verdict::Arc(_, _) | Verdict::Over(_, _) | Verdict::Shift(_) => Status::NotActive,
        }
    }

    /// Returns the outcome of `plan check --status` for its verdict on a list with dates.
    pub fn of_week(verdict: WeekVerdict) -> Status
        ensures { result ≡ week_status_of verdict }
    {
        match verdict {
            WeekVerdict::Feasible => Status::Done,
            WeekVerdict::Misplaced { .. } | WeekVerdict::Broken { .. } | WeekVerdict::Over(_) => {
                Status::NotActive
            }
        }
    }

    /// Returns the exit status as a number.
    pub fn code(self) -> u8
        ensures { result ≡ code_of self }
    {
        match self {
            Status::Done => 0,
            Status::Failed => 1,
            Status::Misused => 2,
            Status::NotActive => 3,
        }
    }
}
