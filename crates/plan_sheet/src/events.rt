//! The calendar files of projects and job shops.

ghost use Rattle.std.specs.Prelude.{◌≡◌, ◌≤◌, true, length, map, slice_index, EachIndex};
ghost use Rattle.std.specs.Prelude.{IfOk, IsErrOf, string_bytes};
ghost use Rattle.plan_net.specs.Network.{IsActivity};
ghost use Rattle.plan_gantt.specs.Limits.{latest_start};
ghost use Rattle.plan_sheet.specs.Feed.{events_of};
ghost use Rattle.plan_sheet.specs.Ics.{are_short};
ghost use Rattle.plan_sheet.specs.Layouts.{count_of, layout_of};
ghost use Rattle.plan_sheet.specs.Parts.{event_names_of};
ghost use Rattle.plan_sheet.specs.PlanEvents as spec;

use crate::calendar_file::{Events, Work, bars_ics};
use crate::layouts::{Layout, bars_of};
use crate::parts::EventNames;
use plan_calendar::Calendar;
use plan_gantt::DaysFault;
use plan_sgs::Instance;
use std::alloc::{AllocError, Global};

// Returns the amounts that an activity needs.
fn needs_of<'a>(instance: &'a Instance<'_>, j: u32) -> &'a [u64]
    requires { IsActivity instance.now.project.network j }
    ensures { result.now ≡ spec.needs_of instance.now j }
{
    instance.needs(j)
}

// Returns the amounts that all activities need, a row for each.
fn all_needs<'a>(alloc: Global, instance: &'a Instance<'_>) -> Result<Vec<&'a [u64]>, AllocError>
    ensures { IfOk result (λ needs.
        map (λ row. row.now) needs.items ≡ spec.all_needs instance.now) }
{
    let mut needs = Vec::new(alloc);
    for k in 0..instance.network().len() {
        let row = needs_of(instance, k as u32 + 1);
        needs.push(row)?;
    }
    Ok(needs)
}

// Returns the same for a project; a job shop has none.
fn layout_needs<'a>(alloc: Global, layout: Layout<'a>) -> Result<Vec<&'a [u64]>, AllocError>
    ensures { IfOk result (λ needs.
        map (λ row. row.now) needs.items ≡ spec.layout_needs (layout_of layout.entry)) }
{
    match layout {
        Layout::Activities(instance) => all_needs(alloc, instance),
        Layout::Steps { .. } => Ok(Vec::new(alloc)),
    }
}

/// Returns a calendar file (RFC 5545) with an event for each wanted bar that takes time. The digest
/// is that of the file of the plan. The identifier of an event is `DIGEST-NUMBER@plan`, or
/// `WORD-ID@plan` by the word of `events`. Behind the number or the id of an order it has the
/// number of the step. The instant of the file is its first working day. No line has more than 75
/// bytes.
///
/// Fails with [`DaysFault::BeyondCalendar`] if a day before the greatest end, or the day after it,
/// would be after 9999-12-31.
pub fn ics_file(
    alloc: Global,
    digest: &str,
    names: &EventNames<'_>,
    layout: Layout<'_>,
    starts: &[u64],
    events: &Events<'_>,
    calendar: &Calendar,
) -> Result<String, DaysFault>
    requires starts { length starts.now ≡ count_of (layout_of layout) }
    requires limit { EachIndex starts.now (λ k. slice_index starts.now k ≤ latest_start) }
    ensures text { IfOk result (λ text. spec.IsIcs digest.now (event_names_of names.now)
        (layout_of layout.entry) starts.now (events_of events.now) calendar.now
        (string_bytes text)) }
    ensures short { IfOk result (λ text. are_short 0 (string_bytes text) ≡ true) }
    ensures beyond { IsErrOf result DaysFault.BeyondCalendar → spec.IsIcsBeyond
        (layout_of layout.entry) starts.now (events_of events.now) calendar.now }
{
    let bars = bars_of(alloc, layout, starts)?;
    let needs = layout_needs(alloc, layout)?;
    let work = Work {
        digest,
        names: *names,
        needs: &needs,
    };
    bars_ics(alloc, &work, events, &bars, calendar)
}
