//! The `.sm` text of a table.

ghost use Rattle.std.specs.Prelude.{◌≡◌, ◌≤◌, ◌<◌, ◌++◌, All, length, map, IfOk, IsErrOf, OnOk, string_bytes};
ghost use Rattle.plan_net.specs.Limits.{longest_sum};
ghost use Rattle.plan_psplib.specs.Plain.{longest_text};
ghost use Rattle.plan_psplib.specs.Project.{SaysProject};
ghost use Rattle.plan_table.specs.Limits.{IsTable, most_rows};
ghost use Rattle.plan_table.specs.Names.{SaysIds, SaysNames};
ghost use Rattle.plan_table.specs.Numbered.{numbered};
ghost use Rattle.plan_table.specs.Table as table;
ghost use Rattle.plan_table.specs.Jobs.{job_in, project_of};
ghost use Rattle.plan_table.specs.ProjectText as spec;

use crate::columns::{push_columns, push_number, push_spaced};
use crate::fault::TextFault;
use crate::jobs::{Job, capacities, jobs};
use crate::table::{Activity, Resource, Table};
use plan_psplib::LONGEST_TEXT;
use std::alloc::{AllocError, Global};
use std::fmt::Write;

// The line between two sections.
fn push_rule(text: &mut String) -> Result<(), AllocError>
    ensures { OnOk result (string_bytes text.new ≡ string_bytes text.old ++ spec.rule_line) }
{
    text.push_str("************************************************************************\n")
}

// A number behind a text and before another.
fn push_counted(text: &mut String, before: &str, n: u32, behind: &str) -> Result<(), AllocError>
    ensures { OnOk result (string_bytes text.new ≡ string_bytes text.old
        ++ spec.counted before.now n behind.now) }
{
    text.push_str(before)?;
    write!(text, "{n}")?;
    text.push_str(behind)
}

// A number in its places behind a text.
fn push_placed(
    alloc: Global,
    text: &mut String,
    before: &str,
    places: usize,
    n: u32,
) -> Result<(), AllocError>
    ensures { OnOk result (string_bytes text.new ≡ string_bytes text.old
        ++ spec.placed before.now places n) }
{
    text.push_str(before)?;
    push_spaced(alloc, text, places, n)
}

// The first lines of the head.
fn push_opening(text: &mut String) -> Result<(), AllocError>
    ensures { OnOk result (string_bytes text.new ≡ string_bytes text.old ++ spec.opening) }
{
    push_rule(text)?;
    text.push_str("file with basedata            : plan import\n")?;
    text.push_str("initial value random generator: 1\n")?;
    push_rule(text)
}

// The lines of the head that count.
fn push_counts(text: &mut String, jobs: u32, horizon: u32, resources: u32) -> Result<(), AllocError>
    ensures { OnOk result (string_bytes text.new ≡ string_bytes text.old
        ++ spec.counts jobs horizon resources) }
{
    text.push_str("projects                      :  1\n")?;
    push_counted(text, "jobs (incl. supersource/sink ):  ", jobs, "\n")?;
    push_counted(
        text,
        "horizon                       :  ",
        horizon,
        "\nRESOURCES\n",
    )?;
    push_counted(
        text,
        "  - renewable                 :  ",
        resources,
        "   R\n",
    )
}

// The head.
#[tactic(auto, unfolding(crate::specs::ProjectText::head_text))]
fn push_head(text: &mut String, jobs: u32, horizon: u32, resources: u32) -> Result<(), AllocError>
    ensures { OnOk result (string_bytes text.new ≡ string_bytes text.old
        ++ spec.head_text jobs horizon resources) }
{
    push_opening(text)?;
    push_counts(text, jobs, horizon, resources)?;
    text.push_str("  - nonrenewable              :  0   N\n")?;
    text.push_str("  - doubly constrained        :  0   D\n")?;
    push_rule(text)
}

// The line of the project's own numbers.
fn push_numbers_line(
    alloc: Global,
    text: &mut String,
    activities: u32,
    horizon: u32,
) -> Result<(), AllocError>
    ensures { OnOk result (string_bytes text.new ≡ string_bytes text.old
        ++ spec.numbers_line activities horizon) }
{
    push_placed(alloc, text, "    1", 6, activities)?;
    push_placed(alloc, text, "      0", 8, horizon)?;
    push_placed(alloc, text, "        0", 8, horizon)?;
    text.push_str("\n")
}

// The section of the project's own numbers.
#[tactic(auto, unfolding(crate::specs::ProjectText::information_text))]
fn push_information(
    alloc: Global,
    text: &mut String,
    activities: u32,
    horizon: u32,
) -> Result<(), AllocError>
    ensures { OnOk result (string_bytes text.new ≡ string_bytes text.old
        ++ spec.information_text activities horizon) }
{
    text.push_str("PROJECT INFORMATION:\n")?;
    text.push_str("pronr.  #jobs rel.date duedate tardcost  MPM-Time\n")?;
    push_numbers_line(alloc, text, activities, horizon)?;
    push_rule(text)
}

// The line of a job in the precedence section.
#[tactic(auto, unfolding(crate::specs::ProjectText::precedence_line))]
fn push_precedence_line(
    alloc: Global,
    text: &mut String,
    j: u32,
    job: &Job,
) -> Result<(), AllocError>
    requires { length job.now.successors.items ≤ 502 }
    ensures { OnOk result (string_bytes text.new ≡ string_bytes text.old
        ++ spec.precedence_line j (job_in job.now)) }
{
    push_number(alloc, text, 4, j)?;
    push_spaced(alloc, text, 8, 1)?;
    push_spaced(alloc, text, 10, job.successors.len() as u32)?;
    push_columns(alloc, text, 11, 3, &job.successors)?;
    text.push_str("\n")
}

// The line of a job in the requests section.
#[tactic(auto, unfolding(crate::specs::ProjectText::request_line))]
fn push_request_line(alloc: Global, text: &mut String, j: u32, job: &Job) -> Result<(), AllocError>
    ensures { OnOk result (string_bytes text.new ≡ string_bytes text.old
        ++ spec.request_line j (job_in job.now)) }
{
    push_number(alloc, text, 3, j)?;
    push_spaced(alloc, text, 6, 1)?;
    push_spaced(alloc, text, 5, job.duration)?;
    push_columns(alloc, text, 7, 4, &job.needs)?;
    text.push_str("\n")
}

// The line of an activity's name, if it has one.
#[tactic(auto, unfolding(crate::specs::ProjectText::name_line))]
fn push_name_line(text: &mut String, j: u32, activity: &Activity) -> Result<(), AllocError>
    ensures { OnOk result (string_bytes text.new ≡ string_bytes text.old
        ++ spec.name_line j (table.activity_of activity.now)) }
{
    let name = activity.name.as_str();
    if name.is_empty() {
        return Ok(());
    }
    write!(text, "name {j} {name}\n")
}

// The line of an activity's id.
#[tactic(auto, unfolding(crate::specs::ProjectText::id_line))]
fn push_id_line(text: &mut String, j: u32, activity: &Activity) -> Result<(), AllocError>
    ensures { OnOk result (string_bytes text.new ≡ string_bytes text.old
        ++ spec.id_line j (table.activity_of activity.now)) }
{
    let id = activity.id.as_str();
    write!(text, "id {j} {id}\n")
}

// The line of a resource's name.
#[tactic(auto, unfolding(crate::specs::ProjectText::resource_line))]
fn push_resource_line(text: &mut String, i: u32, resource: &Resource) -> Result<(), AllocError>
    ensures { OnOk result (string_bytes text.new ≡ string_bytes text.old
        ++ spec.resource_line i (table.resource_of resource.now)) }
{
    let name = resource.name.as_str();
    write!(text, "resource {i} {name}\n")
}

// The lines of the jobs in the precedence section.
fn push_precedence_lines(alloc: Global, text: &mut String, jobs: &[Job]) -> Result<(), AllocError>
    requires size { length jobs.now ≤ 502 }
    requires rows { All (λ job. length job.successors.items ≤ 502) jobs.now }
    ensures { OnOk result (string_bytes text.new ≡ string_bytes text.old
        ++ numbered spec.precedence_line 1 (map job_in jobs.now)) }
{
    for (k, job) in jobs.iter().enumerate() {
        push_precedence_line(alloc, text, k as u32 + 1, job)?;
    }
    Ok(())
}

// The precedence section.
#[tactic(auto, unfolding(crate::specs::ProjectText::precedence_text))]
fn push_precedences(alloc: Global, text: &mut String, jobs: &[Job]) -> Result<(), AllocError>
    requires size { length jobs.now ≤ 502 }
    requires rows { All (λ job. length job.successors.items ≤ 502) jobs.now }
    ensures { OnOk result (string_bytes text.new ≡ string_bytes text.old
        ++ spec.precedence_text (map job_in jobs.now)) }
{
    text.push_str("PRECEDENCE RELATIONS:\n")?;
    text.push_str("jobnr.    #modes  #successors   successors\n")?;
    push_precedence_lines(alloc, text, jobs)?;
    push_rule(text)
}

// The head of the column of a resource.
fn push_resource_head(text: &mut String, i: u32) -> Result<(), AllocError>
    ensures { OnOk result
        (string_bytes text.new ≡ string_bytes text.old ++ spec.resource_head i) }
{
    write!(text, "  R {i}")
}

// The heads of the columns of resources.
fn push_resource_heads(text: &mut String, capacities: &[u32]) -> Result<(), AllocError>
    requires { length capacities.now ≤ 502 }
    ensures { OnOk result (string_bytes text.new ≡ string_bytes text.old
        ++ spec.resource_heads capacities.now) }
{
    for k in 0..capacities.len() {
        push_resource_head(text, k as u32 + 1)?;
    }
    Ok(())
}

// The lines of the jobs in the requests section.
fn push_request_lines(alloc: Global, text: &mut String, jobs: &[Job]) -> Result<(), AllocError>
    requires { length jobs.now ≤ 502 }
    ensures { OnOk result (string_bytes text.new ≡ string_bytes text.old
        ++ numbered spec.request_line 1 (map job_in jobs.now)) }
{
    for (k, job) in jobs.iter().enumerate() {
        push_request_line(alloc, text, k as u32 + 1, job)?;
    }
    Ok(())
}

// The lines above those of the jobs in the requests section.
fn push_request_heads(text: &mut String, capacities: &[u32]) -> Result<(), AllocError>
    requires { length capacities.now ≤ 502 }
    ensures { OnOk result (string_bytes text.new ≡ string_bytes text.old
        ++ spec.request_heads capacities.now) }
{
    text.push_str("REQUESTS/DURATIONS:\n")?;
    text.push_str("jobnr. mode duration")?;
    push_resource_heads(text, capacities)?;
    text.push_str("\n")?;
    text.push_str("------------------------------------------------------------------------\n")
}

// The requests section.
#[tactic(auto, unfolding(crate::specs::ProjectText::requests_text))]
fn push_requests(
    alloc: Global,
    text: &mut String,
    jobs: &[Job],
    capacities: &[u32],
) -> Result<(), AllocError>
    requires size { length jobs.now ≤ 502 }
    requires resources { length capacities.now ≤ 502 }
    ensures { OnOk result (string_bytes text.new ≡ string_bytes text.old
        ++ spec.requests_text (map job_in jobs.now) capacities.now) }
{
    push_request_heads(text, capacities)?;
    push_request_lines(alloc, text, jobs)?;
    push_rule(text)
}

// The availabilities.
#[tactic(auto, unfolding(crate::specs::ProjectText::availabilities_text))]
fn push_availabilities(
    alloc: Global,
    text: &mut String,
    capacities: &[u32],
) -> Result<(), AllocError>
    requires { length capacities.now ≤ 502 }
    ensures { OnOk result (string_bytes text.new ≡ string_bytes text.old
        ++ spec.availabilities_text capacities.now) }
{
    text.push_str("RESOURCEAVAILABILITIES:\n")?;
    push_resource_heads(text, capacities)?;
    text.push_str("\n")?;
    push_columns(alloc, text, 4, 4, capacities)?;
    text.push_str("\n")?;
    push_rule(text)
}

// The lines of the activities' ids.
fn push_all_id_lines(text: &mut String, activities: &[Activity]) -> Result<(), AllocError>
    requires { length activities.now ≤ 502 }
    ensures { OnOk result (string_bytes text.new ≡ string_bytes text.old
        ++ numbered spec.id_line 2 (map table.activity_of activities.now)) }
{
    for (k, activity) in activities.iter().enumerate() {
        push_id_line(text, k as u32 + 2, activity)?;
    }
    Ok(())
}

// The lines of the ids, if a list has ids of its own.
fn push_id_lines(
    text: &mut String,
    own_ids: bool,
    activities: &[Activity],
) -> Result<(), AllocError>
    requires { length activities.now ≤ 502 }
    ensures { OnOk result (string_bytes text.new ≡ string_bytes text.old
        ++ spec.id_lines own_ids (map table.activity_of activities.now)) }
{
    if own_ids {
        push_all_id_lines(text, activities)
    } else {
        Ok(())
    }
}

// The lines of the activities' names.
fn push_name_lines(text: &mut String, activities: &[Activity]) -> Result<(), AllocError>
    requires { length activities.now ≤ 502 }
    ensures { OnOk result (string_bytes text.new ≡ string_bytes text.old
        ++ numbered spec.name_line 2 (map table.activity_of activities.now)) }
{
    for (k, activity) in activities.iter().enumerate() {
        push_name_line(text, k as u32 + 2, activity)?;
    }
    Ok(())
}

// The lines of the resources' names.
fn push_resource_lines(text: &mut String, resources: &[Resource]) -> Result<(), AllocError>
    requires { length resources.now ≤ 502 }
    ensures { OnOk result (string_bytes text.new ≡ string_bytes text.old
        ++ numbered spec.resource_line 1 (map table.resource_of resources.now)) }
{
    for (k, resource) in resources.iter().enumerate() {
        push_resource_line(text, k as u32 + 1, resource)?;
    }
    Ok(())
}

// The section of the ids and names.
#[tactic(auto, unfolding(crate::specs::ProjectText::names_text))]
fn push_names(
    text: &mut String,
    own_ids: bool,
    activities: &[Activity],
    resources: &[Resource],
) -> Result<(), AllocError>
    requires rows { length activities.now ≤ 502 }
    requires columns { length resources.now ≤ 502 }
    ensures { OnOk result (string_bytes text.new ≡ string_bytes text.old
        ++ spec.names_text (table.table_of own_ids activities.now resources.now)) }
{
    text.push_str("PROJECT INFORMATION:\n")?;
    push_id_lines(text, own_ids, activities)?;
    push_name_lines(text, activities)?;
    push_resource_lines(text, resources)?;
    push_rule(text)
}

// The durations in all.
fn horizon(activities: &[Activity]) -> u32
    requires { spec.horizon_of (map table.activity_of activities.now) ≤ longest_sum }
    ensures { result ≡ spec.horizon_of (map table.activity_of activities.now) }
{
    let mut horizon = 0;
    for activity in activities {
        horizon += activity.duration;
    }
    horizon
}

// The sections that are read.
fn push_sections(
    alloc: Global,
    text: &mut String,
    jobs: &[Job],
    capacities: &[u32],
) -> Result<(), AllocError>
    requires size { length jobs.now ≤ 502 }
    requires rows { All (λ job. length job.successors.items ≤ 502) jobs.now }
    requires resources { length capacities.now ≤ 502 }
    ensures { OnOk result (string_bytes text.new ≡ string_bytes text.old
        ++ spec.sections_text (map job_in jobs.now) capacities.now) }
{
    push_precedences(alloc, text, jobs)?;
    push_requests(alloc, text, jobs, capacities)?;
    push_availabilities(alloc, text, capacities)
}

// The head, and the project's own numbers.
fn push_front(
    alloc: Global,
    text: &mut String,
    activities: &[Activity],
    resources: usize,
) -> Result<(), AllocError>
    requires total { spec.horizon_of (map table.activity_of activities.now) ≤ longest_sum }
    requires rows { length activities.now ≤ most_rows }
    requires resources { resources ≤ 502 }
    ensures { OnOk result (string_bytes text.new ≡ string_bytes text.old
        ++ spec.front_text (map table.activity_of activities.now) resources) }
{
    let horizon = horizon(activities);
    let count = activities.len() as u32;
    push_head(text, count + 2, horizon, resources as u32)?;
    push_information(alloc, text, count, horizon)
}

// The text of a table within the limits.
fn written(alloc: Global, table: &Table) -> Result<String, AllocError>
    ensures text { IfOk result (λ text. string_bytes text ≡ spec.project_text table.now) }
    ensures table { IsTable table.now }
{
    let capacities = capacities(alloc, &table.resources)?;
    let jobs = jobs(alloc, &table.activities, capacities.len())?;
    let mut text = String::new(alloc);
    push_front(alloc, &mut text, &table.activities, capacities.len())?;
    push_sections(alloc, &mut text, &jobs, &capacities)?;
    push_names(
        &mut text,
        table.own_ids,
        &table.activities,
        &table.resources,
    )?;
    Ok(text)
}

/// The `.sm` text of a table. Reading it gives the project of the table: its durations, its
/// precedences, its needs and its capacities. The names in it are those of the activities and the
/// resources. The ids in it are those of the activities if the table has a column of ids; otherwise it
/// has no ids. A text that is too long for its reader is refused.
pub fn project_text(alloc: Global, table: &Table) -> Result<String, TextFault>
    ensures text { IfOk result (λ text. string_bytes text ≡ spec.project_text table.now) }
    ensures says { IfOk result (λ text. SaysProject (string_bytes text) (project_of table.now)) }
    ensures names { IfOk result (λ text. SaysNames (string_bytes text) table.now) }
    ensures ids { IfOk result (λ text. SaysIds (string_bytes text) table.now) }
    ensures long { IsErrOf result TextFault.TooLong →
        longest_text < length (spec.project_text table.now) }
{
    let text = written(alloc, table)?;
    if text.as_bytes().len() > LONGEST_TEXT {
        return Err(TextFault::TooLong);
    }
    Ok(text)
}
