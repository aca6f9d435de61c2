//! A list with calendar dates, with instants in their place.

ghost use Rattle.std.specs.Prelude.{◌≡◌, [], IfErr, IfOk};
ghost use Rattle.plan_errors.specs.Output.{Refuses};
ghost use Rattle.plan_weekdates.specs.DatedLists.{IsDatedList};
ghost use Rattle.plan_weeklist.specs.Faults.{fault_of};
ghost use Rattle.plan_weekview.specs.DatedLines as spec;

use plan_errors::{About, CliFault, Code, refuse_words};
use plan_weekdates::{CellCode, CellFault, DateError, DatedList, InstantCalendar, dated_list};
use plan_weekfile::dates_refusal;
use plan_weeklist::{WeekCode, WeekFault};
use std::alloc::Global;

// Returns the code of a list with dates for that of a cell with a date.
fn code_of_cell(code: CellCode) -> WeekCode
    ensures { result ≡ spec.code_of_cell code }
{
    match code {
        CellCode::NoDate => WeekCode::BadNumber,
        CellCode::TooEarly => WeekCode::Contradiction,
    }
}

// Returns the error of a list with dates for that of a cell with a date.
fn week_fault(fault: CellFault) -> WeekFault
    ensures { fault_of result ≡ spec.fault_of_cell fault }
{
    WeekFault {
        code: code_of_cell(fault.code),
        line: fault.line,
        word: fault.word,
    }
}

// Returns the error of calendar dates.
fn date_refusal(alloc: Global, error: DateError) -> CliFault
    ensures { Refuses (spec.TellsDateError error) result }
{
    match error {
        DateError::Memory => CliFault::Memory,
        DateError::TooLong => refuse_words(alloc, Code::LongTable, About::List, "too long"),
        DateError::Cell(fault) => dates_refusal(alloc, &week_fault(fault)),
    }
}

/// Returns a list with the instants of a calendar in place of its dates. Errors: `T20` (no date),
/// `T21` (begun or done before the first date), `T1`.
pub fn list_of_instants(
    alloc: Global,
    calendar: &InstantCalendar,
    text: &[u8],
) -> Result<DatedList, CliFault>
    ensures list { IfOk result (IsDatedList calendar.now [] text.now) }
    ensures refused { IfErr result (Refuses (spec.TellsNoInstants calendar.now text.now)) }
{
    match dated_list(alloc, calendar, &[], text) {
        Ok(list) => Ok(list),
        Err(error) => Err(date_refusal(alloc, error)),
    }
}
