//! The comparison of two lists with dates.

ghost use Rattle.std.specs.Prelude.{◌≡◌, IfErr, IfOk};
ghost use Rattle.plan_errors.specs.Output.{Refuses};
ghost use Rattle.plan_weekcompare.specs.Outputs as spec;
ghost use Rattle.plan_weekcompare.specs.Shown as rows;

use crate::faults::Side;
use crate::reading::{ScheduledList, ScheduledWeek, scheduled_week};
use crate::schedules::WeekSchedule;
use crate::shown::week_schedule;
use plan_errors::CliFault;
use plan_formats::{Format, format_table, table_text};
use plan_views::id_comparison_view;
use plan_weekfile::WeekOrder;
use std::alloc::{AllocError, Global};

// Returns the text of the comparison of two schedules, as CSV or JSON if a format is given.
fn rows_text(
    alloc: Global,
    format: Option<Format>,
    old: &WeekSchedule<'_>,
    new: &WeekSchedule<'_>,
) -> Result<Vec<u8>, AllocError>
    ensures { IfOk result (λ text. text.items
        ≡ spec.comparison_text format (rows.rows_of old.now) (rows.rows_of new.now)) }
{
    let table = id_comparison_view(alloc, old.by_ids(), new.by_ids())?;
    match format {
        Some(format) => format_table(alloc, format, &table),
        None => table_text(alloc, &table),
    }
}

// Returns the text of the comparison of two weeks.
fn weeks_text(
    alloc: Global,
    format: Option<Format>,
    old: &ScheduledWeek,
    new: &ScheduledWeek,
) -> Result<Vec<u8>, AllocError>
    requires old { rows.AreInTime old.now.listed.week old.now.starts.items }
    requires new { rows.AreInTime new.now.listed.week new.now.starts.items }
    ensures { IfOk result (λ text. text.items ≡ spec.comparison_text format
        (rows.shown_starts old.now.listed old.now.starts.items)
        (rows.shown_starts new.now.listed new.now.starts.items)) }
{
    let before = week_schedule(alloc, &old.listed, &old.starts)?;
    let after = week_schedule(alloc, &new.listed, &new.starts)?;
    rows_text(alloc, format, &before, &after)
}

/// Returns the text of the comparison of two lists with dates by the ids of their activities. A row
/// has the id, the old start, the new start and the shift. Begun work has the instant at which it
/// began. Done work counts as missing, so work done since the old list is removed. The number of
/// activities that moved, and the ids that were added and removed, follow the rows. Both lists are
/// read with the capacities of the order, from its `today` on.
///
/// Errors of the old list, in this order: those of the list, `T3` (no ids), `T12` (durations above
/// a limit), and those of its starts. The same errors of the new list follow. An error of the old
/// list ends with `of the old list`, one of starts with `A` or `B`.
#[tactic(auto, using(crate::proofs::OutputLemmas::no_old, crate::proofs::OutputLemmas::no_new))]
pub fn compared_weeks(
    alloc: Global,
    order: &WeekOrder<'_>,
    old: ScheduledList<'_>,
    new: ScheduledList<'_>,
) -> Result<Vec<u8>, CliFault>
    ensures shown { IfOk result (λ output.
        spec.ShowsComparison order.now old.entry new.entry output.items) }
    ensures refused { IfErr result
        (Refuses (spec.RefusesComparison order.now old.entry new.entry)) }
{
    let before = scheduled_week(alloc, order, Side::Old, old)?;
    let after = scheduled_week(alloc, order, Side::New, new)?;
    Ok(weeks_text(alloc, order.format, &before, &after)?)
}
