//! The reading of a file as a list with a week.

ghost use Rattle.std.specs.Prelude.{◌≡◌, IfErr, IfOk};
ghost use Rattle.plan_errors.specs.Output.{Refuses};
ghost use Rattle.plan_weekback.specs.Readings as spec;

use plan_errors::CliFault;
use plan_spreadsheet::Options;
use plan_weekdates::{DatedList, InstantCalendar};
use plan_weekfile::{WeekFile, WeekOrder, listed_week, week_file};
use plan_weeklist::ListedWeek;
use plan_weekview::list_of_instants;
use std::alloc::Global;

/// The options and the calendar with which a file is read as a list with a week.
#[derive(Clone, Copy, Drop)]
pub struct WeekReading<'a> {
    /// The options of lists (`--map`, `--ignore`, `--unit`), if there are any.
    pub options: Option<Options<'a>>,
    /// The calendar of the dates in the list, if they are read.
    pub calendar: Option<&'a InstantCalendar>,
}

/// The text that is read in place of a file: the list that its options make of it, with instants in
/// place of its dates.
#[derive(Drop)]
pub struct WeekText {
    pub read: WeekFile,
    pub dated: Option<DatedList>,
}

impl WeekText {
    /// Returns the text that is read. `file` holds the bytes of the file.
    pub fn text<'b>(&'b self, file: &'b [u8]) -> &'b [u8]
        ensures { result.now ≡ spec.text_of self.now file.now }
    {
        let own = self.read.text(file);
        match &self.dated {
            Some(list) => list.utf8(own),
            None => own,
        }
    }
}

// Returns the list with instants that a calendar makes of a text.
fn dated_by(
    alloc: Global,
    calendar: Option<&InstantCalendar>,
    own: &[u8],
) -> Result<Option<DatedList>, CliFault>
    ensures list { IfOk result (spec.IsDatedBy calendar.entry own.now) }
    ensures refused { IfErr result (Refuses (spec.TellsUndated calendar.entry own.now)) }
{
    match calendar {
        Some(calendar) => {
            let list = list_of_instants(alloc, calendar, own)?;
            Ok(Some(list))
        }
        None => Ok(None),
    }
}

/// Returns the text that is read in place of a file. Errors: `T3` (no column has the header of an
/// option), `T20` (not a date), `T21` (begun or done before the first date), `T1` (too long).
#[tactic(auto, using(crate::proofs::ReadingLemmas::text_read, crate::proofs::ReadingLemmas::file_refused, crate::proofs::ReadingLemmas::dates_refused))]
pub fn week_text(
    alloc: Global,
    reading: &WeekReading<'_>,
    file: &[u8],
) -> Result<WeekText, CliFault>
    ensures text { IfOk result (spec.IsWeekText reading.now file.now) }
    ensures refused { IfErr result (Refuses (spec.TellsNoText reading.now file.now)) }
{
    let read = week_file(alloc, reading.options, file)?;
    let dated = dated_by(alloc, reading.calendar, read.text(file))?;
    Ok(WeekText { read, dated })
}

/// Returns the table and the week that a file is read as.
#[tactic(auto, using(crate::proofs::ReadingLemmas::week_read, crate::proofs::ReadingLemmas::text_unread, crate::proofs::ReadingLemmas::week_unread))]
pub(crate) fn week_in(
    alloc: Global,
    order: &WeekOrder<'_>,
    reading: &WeekReading<'_>,
    file: &[u8],
) -> Result<ListedWeek, CliFault>
    ensures week { IfOk result (spec.IsWeekIn order.now.capacities.now order.now.today
        reading.now file.now) }
    ensures refused { IfErr result (Refuses (spec.TellsNoWeekIn order.now.capacities.now
        order.now.today reading.now file.now)) }
{
    let read = week_text(alloc, reading, file)?;
    let listed = listed_week(alloc, order.capacities, order.today, read.text(file))?;
    Ok(listed)
}
