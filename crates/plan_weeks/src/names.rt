//! The ids and the names of the activities in the table of a plan.

ghost use Rattle.std.specs.Prelude.{◌≡◌, ◌≤◌, map, length, IfOk};
ghost use Rattle.plan_formats.specs.Tables.{table_of};
ghost use Rattle.plan_table.specs.Names.{name_of};
ghost use Rattle.plan_table.specs.Table.{activity_of};
ghost use Rattle.plan_weeks.specs.WeekTables as tables;

use crate::planning::WeekPlan;
use crate::view::week_view;
use plan_formats::{Table, with_ids, with_names};
use plan_table::{Activity, NameLine};
use plan_weeklist::ListedWeek;
use std::alloc::{AllocError, Global};

/// Returns the ids of activities, of which the first one has the number 2.
pub fn ids_of<'a>(
    alloc: Global,
    activities: &'a [Activity],
) -> Result<Vec<NameLine<'a>>, AllocError>
    requires { length activities.now ≤ 500 }
    ensures { IfOk result (λ v. map name_of v.items
        ≡ tables.ids_from 2 (map activity_of activities.now)) }
{
    let mut ids = Vec::new(alloc);
    for (k, activity) in activities.iter().enumerate() {
        ids.push(NameLine {
            number: k as u64 + 2,
            name: activity.id.as_bytes(),
        })?;
    }
    Ok(ids)
}

// Returns the names of activities, of which the first one has the number 2.
fn names_of<'a>(alloc: Global, activities: &'a [Activity]) -> Result<Vec<NameLine<'a>>, AllocError>
    requires { length activities.now ≤ 500 }
    ensures { IfOk result (λ v. map name_of v.items
        ≡ tables.names_from 2 (map activity_of activities.now)) }
{
    let mut names = Vec::new(alloc);
    for (k, activity) in activities.iter().enumerate() {
        names.push(NameLine {
            number: k as u64 + 2,
            name: activity.name.as_bytes(),
        })?;
    }
    Ok(names)
}

// Whether no activity has a name.
fn are_nameless(activities: &[Activity]) -> bool
    ensures { result ≡ tables.are_nameless (map activity_of activities.now) }
{
    for activity in activities {
        if !activity.name.is_empty() {
            return false;
        }
    }
    true
}

/// Returns a table with the names of activities, if there are any.
pub fn named<'a>(
    alloc: Global,
    activities: &'a [Activity],
    table: Table<'a>,
) -> Result<Table<'a>, AllocError>
    requires { length activities.now ≤ 500 }
    ensures { IfOk result (λ made. table_of made
        ≡ tables.named (map activity_of activities.now) (table_of table.entry)) }
{
    if are_nameless(activities) {
        return Ok(table);
    }
    let names = names_of(alloc, activities)?;
    with_names(alloc, table, &names)
}

/// Returns the activities of a week, which are the first ones of its list. The others are waits.
#[tactic(auto, using(crate::proofs::NameLemmas::those_planned, crate::proofs::NameLemmas::all_planned, crate::proofs::NameLemmas::few_planned))]
pub fn planned(listed: &ListedWeek) -> &[Activity]
    ensures activities { map activity_of result.now
        ≡ tables.planned listed.now.week listed.now.table.activities }
    ensures few { length result.now ≤ 500 }
{
    let count = listed.week.durations.len();
    if count < listed.table.activities.len() {
        &listed.table.activities[..count]
    } else {
        &listed.table.activities
    }
}

/// Returns the table of a plan of a week, with the ids and the names of the activities.
pub fn listed_view<'a>(
    alloc: Global,
    listed: &'a ListedWeek,
    plan: &WeekPlan,
) -> Result<Table<'a>, AllocError>
    ensures { IfOk result (λ made. table_of made
        ≡ tables.listed_view listed.now.table.activities listed.now.week plan.now) }
{
    let activities = planned(listed);
    let view = week_view(alloc, &listed.week, plan)?;
    let named = named(alloc, activities, view)?;
    let ids = ids_of(alloc, activities)?;
    with_ids(alloc, named, &ids)
}
