//! The verdict on starts of a week, as a sentence with the ids and the names of the list.

ghost use Rattle.std.specs.Prelude.{◌≡◌, ◌++◌, IfOk, OnOk, codes, map, option_map};
ghost use Rattle.std.specs.Prelude.{string_bytes};
ghost use Rattle.std.specs.Fmt.{decimal};
ghost use Rattle.plan_documents.specs.Labels as labels;
ghost use Rattle.plan_documents.specs.NamedVerdicts as named;
ghost use Rattle.plan_table.specs.Table.{activity_of, resource_of};
ghost use Rattle.plan_weekcheck.specs.Sentences as spec;

use plan_table::{Activity, Resource};
use plan_week::Overload;
use plan_weeklist::ListedWeek;
use plan_weekverdict::{Miss, WeekVerdict};
use std::alloc::{AllocError, Global};
use std::fmt::Write;

// Returns the id of an activity, and its name if it has one.
fn called(alloc: Global, activity: &Activity) -> Result<String, AllocError>
    ensures { IfOk result (λ text.
        string_bytes text ≡ spec.called (activity_of activity.now)) }
{
    let mut text = activity.id.as_str().to_string(alloc)?;
    if !activity.name.is_empty() {
        text.push_str(" ")?;
        text.push_str(activity.name.as_str())?;
    }
    Ok(text)
}

// Returns the id and the name of the activity at a place, if there is one.
fn label_at(
    alloc: Global,
    activities: &[Activity],
    place: usize,
) -> Result<Option<String>, AllocError>
    ensures { IfOk result (λ made. option_map string_bytes made
        ≡ spec.label_at (map activity_of activities.now) place) }
{
    match activities.get(place) {
        Some(activity) => Ok(Some(called(alloc, activity)?)),
        None => Ok(None),
    }
}

// Appends an activity by its label, or else by its number.
fn push_activity(text: &mut String, n: u64, label: &Option<String>) -> Result<(), AllocError>
    ensures { OnOk result (string_bytes text.new ≡ string_bytes text.old
        ++ labels.activity_called n (option_map string_bytes label.now)) }
{
    match label {
        Some(label) => text.push_str(label.as_str()),
        None => write!(text, "activity {n}"),
    }
}

// Appends the number of a predecessor without a label, behind an activity with this label.
fn push_number(text: &mut String, activity: &Option<String>, n: u64) -> Result<(), AllocError>
    ensures { OnOk result (string_bytes text.new ≡ string_bytes text.old
        ++ named.number_behind (option_map string_bytes activity.now) n) }
{
    match activity {
        Some(_) => write!(text, "activity {n}"),
        None => write!(text, "{n}"),
    }
}

// Appends a predecessor by its label, or else by its number, behind an activity with this label.
fn push_predecessor(
    text: &mut String,
    activity: &Option<String>,
    n: u64,
    label: &Option<String>,
) -> Result<(), AllocError>
    ensures { OnOk result (string_bytes text.new ≡ string_bytes text.old
        ++ named.predecessor_called (option_map string_bytes activity.now) n
        (option_map string_bytes label.now)) }
{
    match label {
        Some(label) => text.push_str(label.as_str()),
        None => push_number(text, activity, n),
    }
}

// Appends the way in which an activity misses its dates.
fn push_miss(text: &mut String, miss: Miss) -> Result<(), AllocError>
    ensures { OnOk result (string_bytes text.new ≡ string_bytes text.old ++ spec.miss_text miss) }
{
    match miss {
        Miss::Past { day } => write!(text, " starts before --now {day}"),
        Miss::Early { date } => write!(text, " starts before its earliest start {date}"),
        Miss::Moved { instant, date } => {
            write!(text, " starts at {instant}, not at its appointment {date}")
        }
    }
}

// Returns the sentence for an activity that misses its dates.
fn misplaced(
    alloc: Global,
    activities: &[Activity],
    activity: u32,
    miss: Miss,
) -> Result<String, AllocError>
    ensures { IfOk result (λ text. string_bytes text
        ≡ spec.misplaced_text (map activity_of activities.now) activity miss) }
{
    let label = label_at(alloc, activities, activity as usize)?;
    let mut text = String::new(alloc);
    push_activity(&mut text, activity as u64 + 2, &label)?;
    push_miss(&mut text, miss)?;
    Ok(text)
}

// Returns the sentence for an activity that starts before its predecessor ends, by their labels.
fn labelled_broken(
    alloc: Global,
    activity: u64,
    label: &Option<String>,
    predecessor: u64,
    before: &Option<String>,
) -> Result<String, AllocError>
    ensures { IfOk result (λ text. string_bytes text
        ≡ named.labelled_broken_text activity (option_map string_bytes label.now)
        predecessor (option_map string_bytes before.now)) }
{
    let mut text = String::new(alloc);
    push_activity(&mut text, activity, label)?;
    text.push_str(" starts before ")?;
    push_predecessor(&mut text, label, predecessor, before)?;
    text.push_str(" ends")?;
    Ok(text)
}

// Returns the sentence for an activity that starts before a predecessor ends.
fn broken(
    alloc: Global,
    activities: &[Activity],
    activity: u32,
    predecessor: u32,
) -> Result<String, AllocError>
    ensures { IfOk result (λ text. string_bytes text
        ≡ spec.broken_text (map activity_of activities.now) activity predecessor) }
{
    let label = label_at(alloc, activities, activity as usize)?;
    let before = label_at(alloc, activities, predecessor as usize)?;
    labelled_broken(
        alloc,
        activity as u64 + 2,
        &label,
        predecessor as u64 + 2,
        &before,
    )
}

// Returns the name of the resource at a place, or an empty name if there is none.
fn resource_name(resources: &[Resource], place: usize) -> &str
    ensures { result.now ≡ spec.name_at (map resource_of resources.now) place }
{
    match resources.get(place) {
        Some(resource) => resource.name.as_str(),
        None => "",
    }
}

// Returns the sentence for an overload.
fn overloaded(
    alloc: Global,
    resources: &[Resource],
    overload: Overload,
) -> Result<String, AllocError>
    ensures { IfOk result (λ text. string_bytes text
        ≡ spec.over_text (map resource_of resources.now) overload) }
{
    let instant = overload.instant;
    let mut text = String::new(alloc);
    write!(text, "at time {instant} more of ")?;
    text.push_str(resource_name(resources, overload.resource as usize))?;
    text.push_str(" is needed than there is")?;
    Ok(text)
}

/// Returns the sentence of a verdict on starts of the week of a list. It contains the ids and names
/// of activities, and the names of resources.
pub(crate) fn sentence_of(
    alloc: Global,
    listed: &ListedWeek,
    verdict: WeekVerdict,
) -> Result<String, AllocError>
    ensures { IfOk result (λ text. string_bytes text ≡ spec.sentence_of listed.now verdict) }
{
    let table = &listed.table;
    match verdict {
        WeekVerdict::Misplaced { activity, miss } => {
            misplaced(alloc, &table.activities, activity, miss)
        }
        WeekVerdict::Broken {
            activity,
            predecessor,
        } => broken(alloc, &table.activities, activity, predecessor),
        WeekVerdict::Over(overload) => overloaded(alloc, &table.resources, overload),
        WeekVerdict::Feasible => "feasible".to_string(alloc),
    }
}
