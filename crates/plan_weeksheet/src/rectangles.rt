//! The rectangles of a plan of a week.

ghost use Rattle.std.specs.Prelude.{◌≡◌, ◌++◌, IfOk, OnOk, length, map, slice_index};
ghost use Rattle.plan_views.specs.LinkColumns.{links_of};
ghost use Rattle.plan_weekview.specs.WeekDays as days;
ghost use Rattle.plan_weeksheet.specs.Rectangles.{rectangle_of};
ghost use Rattle.plan_weeksheet.specs.WeekRectangles as spec;

use crate::amounts::{missing_amounts, needs_at};
use crate::rectangle::Rectangle;
use plan_kernel::Absence;
use plan_views::ActivityLinks;
use plan_week::{State, Week, end_of, state_of};
use plan_weeklist::ListedWeek;
use plan_weeks::WeekPlan;
use std::alloc::{AllocError, Global};

// Returns the number at a place, 0 if there is none.
fn at(list: &[u32], place: usize) -> u32
    ensures { result ≡ slice_index list.now place }
{
    if place < list.len() { list[place] } else { 0 }
}

// Returns the begin of activity `k` in a plan, if it is known.
fn begins_at(week: &Week, starts: &[u32], k: usize) -> Option<u32>
    ensures { result ≡ days.begins_at week.now starts.now k }
{
    match state_of(week, k) {
        State::Open { .. } => Some(at(starts, k)),
        State::Begun { began, .. } => Some(began),
        State::Done { .. } => None,
    }
}

// Returns the id of activity `k`.
fn id_at(listed: &ListedWeek, k: usize) -> &[u8]
    ensures { result.now ≡ (spec.activity_at listed.now k).id }
{
    match listed.table.activities.get(k) {
        Some(activity) => activity.id.as_bytes(),
        None => b"",
    }
}

// Returns the name of activity `k`.
fn name_at(listed: &ListedWeek, k: usize) -> &[u8]
    ensures { result.now ≡ (spec.activity_at listed.now k).name }
{
    match listed.table.activities.get(k) {
        Some(activity) => activity.name.as_bytes(),
        None => b"",
    }
}

// Returns the ids of the predecessors of activity `k`.
fn predecessors_at(links: &[ActivityLinks], k: usize) -> &[u8]
    ensures { result.now ≡ spec.predecessors_at (map links_of links.now) k }
{
    match links.get(k) {
        Some(links) => &links.predecessors,
        None => b"",
    }
}

// Returns the rectangle of activity `k` from its begin to its end.
fn rectangle_at<'a>(
    alloc: Global,
    listed: &'a ListedWeek,
    links: &'a [ActivityLinks],
    k: usize,
    begin: u32,
    ends: u64,
) -> Result<Rectangle<'a>, AllocError>
    ensures { IfOk result (λ r. rectangle_of r
        ≡ spec.rectangle_at listed.now (map links_of links.now) k begin ends) }
{
    let needs = needs_at(alloc, &listed.week, k)?;
    Ok(Rectangle {
        id: id_at(listed, k),
        name: name_at(listed, k),
        predecessors: predecessors_at(links, k),
        from: begin as u64,
        lasts: ends.saturating_sub(begin as u64),
        needs,
    })
}

// Appends the rectangle of activity `k` in a plan, unless it is done.
fn push_activity<'a>(
    alloc: Global,
    rectangles: &mut Vec<Rectangle<'a>>,
    listed: &'a ListedWeek,
    links: &'a [ActivityLinks],
    starts: &[u32],
    k: usize,
) -> Result<(), AllocError>
    ensures { OnOk result (map rectangle_of rectangles.new.items
        ≡ map rectangle_of rectangles.old.items
        ++ spec.activity_rectangle listed.now (map links_of links.now) starts.now k) }
{
    let ends = end_of(&listed.week, starts, k);
    if let Some(begin) = begins_at(&listed.week, starts, k) {
        let from = begin.min(at(starts, k));
        let rectangle = rectangle_at(alloc, listed, links, k, from, ends)?;
        rectangles.push(rectangle)?;
    }
    Ok(())
}

// Returns the rectangles of the activities in a plan.
fn activity_rectangles<'a>(
    alloc: Global,
    listed: &'a ListedWeek,
    links: &'a [ActivityLinks],
    starts: &[u32],
) -> Result<Vec<Rectangle<'a>>, AllocError>
    ensures { IfOk result (λ v. map rectangle_of v.items
        ≡ spec.activity_rectangles listed.now (map links_of links.now) starts.now) }
{
    let mut rectangles = Vec::new(alloc);
    for k in 0..listed.week.durations.len() {
        push_activity(alloc, &mut rectangles, listed, links, starts, k)?;
    }
    Ok(rectangles)
}

// Returns the rectangle of an absence of one of `count` resources, up to the end of a plan.
fn absence_part<'a>(
    alloc: Global,
    count: usize,
    makespan: u64,
    absence: &Absence,
) -> Result<Rectangle<'a>, AllocError>
    ensures { IfOk result (λ r. rectangle_of r ≡ spec.absence_part count makespan absence.now) }
{
    let needs = missing_amounts(alloc, count, absence)?;
    let until = (absence.until as u64).min(makespan);
    Ok(Rectangle {
        id: b"absence",
        name: b"",
        predecessors: b"",
        from: absence.from as u64,
        lasts: until.saturating_sub(absence.from as u64),
        needs,
    })
}

// Appends the rectangle of an absence, if it begins before the end of a plan.
fn push_absence(
    alloc: Global,
    rectangles: &mut Vec<Rectangle<'_>>,
    count: usize,
    makespan: u64,
    absence: &Absence,
) -> Result<(), AllocError>
    ensures { OnOk result (map rectangle_of rectangles.new.items
        ≡ map rectangle_of rectangles.old.items
        ++ spec.absence_rectangle count makespan absence.now) }
{
    if (absence.from as u64) < makespan {
        let rectangle = absence_part(alloc, count, makespan, absence)?;
        rectangles.push(rectangle)?;
    }
    Ok(())
}

// Appends the rectangles of the absences.
fn push_absences(
    alloc: Global,
    rectangles: &mut Vec<Rectangle<'_>>,
    listed: &ListedWeek,
    makespan: u64,
) -> Result<(), AllocError>
    ensures { OnOk result (map rectangle_of rectangles.new.items
        ≡ map rectangle_of rectangles.old.items ++ spec.absence_rectangles listed.now makespan) }
{
    let count = listed.week.capacities.len();
    for absence in &listed.week.absences {
        push_absence(alloc, rectangles, count, makespan, absence)?;
    }
    Ok(())
}

/// Returns the rectangles of a plan of a week. `links` holds the predecessors of its activities.
pub(crate) fn week_rectangles<'a>(
    alloc: Global,
    listed: &'a ListedWeek,
    links: &'a [ActivityLinks],
    plan: &WeekPlan,
) -> Result<Vec<Rectangle<'a>>, AllocError>
    ensures { IfOk result (λ v. map rectangle_of v.items
        ≡ spec.week_rectangles listed.now (map links_of links.now) plan.now) }
{
    let mut rectangles = activity_rectangles(alloc, listed, links, &plan.starts)?;
    push_absences(alloc, &mut rectangles, listed, plan.makespan)?;
    Ok(rectangles)
}
