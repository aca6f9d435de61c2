//! The texts of a plan for all activities of a week.

ghost use Rattle.std.specs.Prelude.{◌≡◌, ◌++◌, ◌∷◌, [], map, slice_index, string_bytes};
ghost use Rattle.std.specs.Prelude.{IfOk, IsErrOf, OnOk};
ghost use Rattle.std.specs.List.{find, slice_get};
ghost use Rattle.plan_table.specs.Table.{activity_of};
ghost use Rattle.plan_weekback.specs.Entries as spec;
ghost use Rattle.plan_weekdates.specs.Sequences.{Become, FirstFails};
ghost use Rattle.plan_weeklist.specs.Rows.{dated_of};
ghost use Rattle.plan_weekview.specs.WeekDays as week_days;

use crate::entries::Entry;
use crate::texts::{finish_text, start_text};
use plan_calendar::Calendar;
use plan_gantt::DaysFault;
use plan_table::{Activity, same};
use plan_week::{State, Week, end_of, state_of, tardiness_of};
use plan_weeklist::{Beginning, DatedRow, ListedWeek};
use plan_weeks::{WeekPlan, planned};
use std::alloc::{AllocError, Global};

// Returns the number at a place, 0 if there is none.
fn at(list: &[u32], place: usize) -> u32
    ensures { result ≡ slice_index list.now place }
{
    if place < list.len() { list[place] } else { 0 }
}

// Returns the instant at which an activity with this start begins or began, if it is known.
fn begin_of(state: State, start: u32) -> Option<u32>
    ensures { result ≡ week_days.begin_of state start }
{
    match state {
        State::Open { .. } => Some(start),
        State::Begun { began, .. } => Some(began),
        State::Done { .. } => None,
    }
}

// Returns the instant at which an activity began, if its row gives it.
fn began_in(begun: Beginning) -> Option<u32>
    ensures { result ≡ spec.began_in begun }
{
    match begun {
        Beginning::At(began) => Some(began),
        Beginning::Missing | Beginning::Interrupted => None,
    }
}

// Whether a row has an id.
fn has_id(id: &[u8], row: &DatedRow) -> bool
    ensures { result ≡ spec.has_id id.now (dated_of row.now) }
{
    same(&row.id, id)
}

// Returns the instant at which the activity with an id began, if its row gives it.
fn began_by(id: &[u8], rows: &[DatedRow]) -> Option<u32>
    ensures { result ≡ spec.began_if (find (spec.has_id id.now) (map dated_of rows.now)) }
{
    for row in rows {
        if has_id(id, row) {
            return began_in(row.dates.begun);
        }
    }
    None
}

// Returns the instant at which the activity of row `k` began, if the row gives it.
#[tactic(auto, using(crate::proofs::EntryLemmas::began_inside, crate::proofs::EntryLemmas::began_outside))]
fn began_at(rows: &[DatedRow], k: usize) -> Option<u32>
    ensures { result ≡ spec.began_if (slice_get (map dated_of rows.now) k) }
{
    if k < rows.len() {
        began_in(rows[k].dates.begun)
    } else {
        None
    }
}

// Returns the instant at which activity `k` began, if its row gives it. If `own`, the list has ids.
fn began_of(own: bool, rows: &[DatedRow], k: usize, id: &[u8]) -> Option<u32>
    ensures { result ≡ spec.began_if (spec.row_for own (map dated_of rows.now) k id.now) }
{
    if own {
        began_by(id, rows)
    } else {
        began_at(rows, k)
    }
}

// Returns the first of two instants that is known.
fn known_or(begin: Option<u32>, in_row: Option<u32>) -> Option<u32>
    ensures { result ≡ spec.known_or begin in_row }
{
    match begin {
        Some(begin) => Some(begin),
        None => in_row,
    }
}

// Returns the id of an activity, or an empty text for a list without ids.
fn id_of(alloc: Global, own: bool, activity: &Activity) -> Result<String, AllocError>
    ensures { IfOk result (λ id. string_bytes id ≡ spec.id_if own (activity_of activity.now).id) }
{
    if own {
        activity.id.as_str().to_string(alloc)
    } else {
        Ok(String::new(alloc))
    }
}

// Returns the texts of activity `k`.
fn entry_for(
    alloc: Global,
    calendar: Option<&Calendar>,
    own: bool,
    rows: &[DatedRow],
    week: &Week,
    starts: &[u32],
    k: usize,
    activity: &Activity,
) -> Result<Entry, DaysFault>
    ensures texts { IfOk result (λ e. spec.IsEntry (spec.days_in calendar.entry)
        own (map dated_of rows.now) week.now starts.now k
        (activity_of activity.now) (spec.entry_of e)) }
    ensures beyond { IsErrOf result DaysFault.BeyondCalendar →
        spec.IsEntryBeyond (spec.days_in calendar.entry) own
        (map dated_of rows.now) week.now starts.now k (activity_of activity.now) }
{
    let begin = begin_of(state_of(week, k), at(starts, k));
    let known = known_or(begin, began_of(own, rows, k, activity.id.as_bytes()));
    let ends = end_of(week, starts, k);
    let id = id_of(alloc, own, activity)?;
    let start = start_text(alloc, calendar, known, ends)?;
    let finish = finish_text(alloc, calendar, begin, ends)?;
    let late = tardiness_of(week, starts, k).to_string(alloc)?;
    Ok(Entry {
        line: activity.line,
        id,
        start,
        finish,
        late,
    })
}

// Appends the texts of an activity.
fn push_entry(entries: &mut Vec<Entry>, texts: Entry) -> Result<(), AllocError>
    ensures { OnOk result (entries.new.items ≡ entries.old.items ++ texts ∷ []) }
{
    entries.push(texts)?;
    Ok(())
}

// Returns the texts of activities, which are the first ones of a list with these rows.
#[tactic(auto, using(crate::proofs::EntryLemmas::entry_more, crate::proofs::EntryLemmas::entry_beyond))]
fn entries_of(
    alloc: Global,
    calendar: Option<&Calendar>,
    own: bool,
    rows: &[DatedRow],
    week: &Week,
    starts: &[u32],
    activities: &[Activity],
) -> Result<Vec<Entry>, DaysFault>
    ensures entries { IfOk result (λ v. Become (spec.IsEntry (spec.days_in calendar.entry)
        own (map dated_of rows.now) week.now starts.now) 0
        (map activity_of activities.now) (map spec.entry_of v.items)) }
    ensures beyond { IsErrOf result DaysFault.BeyondCalendar →
        FirstFails (spec.IsEntry (spec.days_in calendar.entry) own
        (map dated_of rows.now) week.now starts.now)
        (spec.IsEntryBeyond (spec.days_in calendar.entry) own
        (map dated_of rows.now) week.now starts.now) 0
        (map activity_of activities.now) }
{
    let mut entries = Vec::new(alloc);
    for (k, activity) in activities.iter().enumerate() {
        let new = entry_for(alloc, calendar, own, rows, week, starts, k, activity)?;
        push_entry(&mut entries, new)?;
    }
    Ok(entries)
}

/// Returns the texts of all activities of a week, whose list has these rows: instants, or with a
/// calendar days. Fails with [`DaysFault::BeyondCalendar`] if a day would be after 9999-12-31.
#[tactic(auto, using(crate::proofs::EntryLemmas::all_entries, crate::proofs::EntryLemmas::all_beyond))]
pub fn plan_entries(
    alloc: Global,
    calendar: Option<&Calendar>,
    rows: &[DatedRow],
    listed: &ListedWeek,
    plan: &WeekPlan,
) -> Result<Vec<Entry>, DaysFault>
    ensures entries { IfOk result (λ v. spec.AreEntries (spec.days_in calendar.entry)
        listed.now.table (map dated_of rows.now) listed.now.week plan.now.starts.items
        (map spec.entry_of v.items)) }
    ensures beyond { IsErrOf result DaysFault.BeyondCalendar →
        spec.HasEntryBeyond (spec.days_in calendar.entry) listed.now.table
        (map dated_of rows.now) listed.now.week plan.now.starts.items }
{
    let own = listed.table.own_ids;
    let ones = planned(listed);
    let entries = entries_of(alloc, calendar, own, rows, &listed.week, &plan.starts, ones)?;
    Ok(entries)
}
