//! The hours of a working day, as a command gives them.

ghost use Rattle.std.specs.Prelude.{◌≡◌, IfErr, IfOk};
ghost use Rattle.plan_errors.specs.Output.{Refuses};
ghost use Rattle.plan_print.specs.Hours as spec;

use plan_calendar::Hours;
use plan_cli::CliFault;
use plan_errors::{About, Code, refuse_words};
use std::alloc::Global;

// Returns hours, or none for a working day of one time unit.
fn choice_of(per_day: u32, hours: Hours) -> Option<Hours>
    ensures { result ≡ spec.choice_of per_day hours }
{
    if per_day == 1 { None } else { Some(hours) }
}

/// Returns the hours of a working day with `per_day` time units, an hour each, whose first one
/// begins at `opens`: five bytes `HH:MM`. With one time unit there are no hours: each time unit is a
/// working day. The error is `G7 hours` if a working day has no time unit or more than 24, if
/// `opens` isn't a time from 00:00 to 23:59, or if the last hour would end after midnight.
pub fn hours_of(alloc: Global, per_day: u32, opens: &str) -> Result<Option<Hours>, CliFault>
    ensures made { IfOk result (spec.AreHours per_day opens.now) }
    ensures refused { IfErr result (Refuses (spec.TellsNoHours per_day opens.now)) }
{
    match Hours::new(per_day, opens) {
        Ok(hours) => Ok(choice_of(per_day, hours)),
        Err(_) => Err(refuse_words(alloc, Code::BadHours, About::Other, "hours")),
    }
}
