//! Error lines of calendars and working days.

ghost use Rattle.std.specs.Prelude.{◌≡◌};
ghost use Rattle.plan_gantt.specs.CalendarFaultText.{calendar_fault_text_of, missing_calendar_text};

use plan_calendar::CalendarFault;

/// Returns the error line of a calendar or of a working day, such as `G1 date`, without a line
/// feed. Allocates nothing.
pub fn calendar_fault_text(fault: CalendarFault) -> &'static str
    ensures text { result.now ≡ calendar_fault_text_of fault }
{
    match fault {
        CalendarFault::BadDate => "G1 date",
        CalendarFault::BadDays => "G2 days",
        CalendarFault::BeyondCalendar => "G3 beyond calendar",
    }
}

/// Returns the error line of a request for working days without a calendar, without a line feed.
/// Allocates nothing.
pub fn missing_calendar() -> &'static str
    ensures text { result.now ≡ missing_calendar_text }
{
    "G4 no calendar"
}
