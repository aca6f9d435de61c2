//! The errors of calendars as values.

ghost use Rattle.std.specs.Prelude.{◌≡◌, ◌++◌, IfOk, codes};
ghost use Rattle.std.specs.Fmt.{decimal};
ghost use Rattle.plan_errors.specs.Faults.{IsAbout};
ghost use Rattle.plan_errors.specs.Output.{Refuses};
ghost use Rattle.plan_errors.specs.Parts.{parts_text};
ghost use Rattle.plan_cli.specs.Calendars.{TellsCalendarFault, TellsHolidayFault};
ghost use Rattle.plan_cli.specs.DaysRun.{TellsDaysFault};

use plan_errors::{About, CliFault, Code, Key, Part, refuse, refuse_words};
use plan_gantt::{CalendarFault, DaysFault};
use plan_holidays::HolidayFault;
use std::alloc::{AllocError, Global};

/// Returns the error of a calendar.
pub(crate) fn calendar_refusal(alloc: Global, fault: CalendarFault) -> CliFault
    ensures { Refuses (TellsCalendarFault fault) result }
{
    match fault {
        CalendarFault::BadDate => refuse_words(alloc, Code::BadDate, About::FirstDate, "date"),
        CalendarFault::BadDays => refuse_words(alloc, Code::BadDays, About::Weekdays, "days"),
        CalendarFault::BeyondCalendar => {
            refuse_words(alloc, Code::BeyondCalendar, About::Plan, "beyond calendar")
        }
    }
}

// Returns the line of holidays without a date.
fn date_parts(alloc: Global, line: u64) -> Result<Vec<Part>, AllocError>
    ensures { IfOk result (λ list. codes "G5" ++ parts_text list.items
        ≡ codes "G5 line " ++ decimal line ++ codes " date") }
{
    Ok(Vec::from_array(alloc, [Part::Number(Key::Line, line), Part::Words("date")])?)
}

/// Returns the error of a text of holidays.
pub(crate) fn holiday_refusal(alloc: Global, fault: HolidayFault) -> CliFault
    ensures told { Refuses (TellsHolidayFault fault) result }
    ensures about { IsAbout About.Holidays result }
{
    match fault {
        HolidayFault::BadLine(line) => {
            refuse(Code::BadHoliday, About::Holidays, date_parts(alloc, line))
        }
        HolidayFault::TooMany => {
            refuse_words(alloc, Code::ManyHolidays, About::Holidays, "holidays")
        }
        HolidayFault::Memory => CliFault::Memory,
    }
}

/// Returns the error of a table of working days.
pub fn days_refusal(alloc: Global, fault: DaysFault) -> CliFault
    ensures { Refuses (TellsDaysFault fault) result }
{
    match fault {
        DaysFault::NoMemory => CliFault::Memory,
        DaysFault::BeyondCalendar => calendar_refusal(alloc, CalendarFault::BeyondCalendar),
    }
}
