//! The comparison of two schedules.

ghost use Rattle.std.specs.Prelude.{◌≡◌, ◌++◌, ◌≤◌, ◌<◌, All, map, length, IfOk, OnOk};
ghost use Rattle.std.specs.Prelude.{string_bytes};
ghost use Rattle.plan_net.specs.Network as networks;
ghost use Rattle.plan_profile.specs.Usage.{IsInTime};
ghost use Rattle.plan_sgs.specs.Instances as projects;
ghost use Rattle.plan_sgs.specs.Problem as problems;
ghost use Rattle.plan_sgs.specs.Verdicts.{IsFirstVerdict};
ghost use Rattle.plan_gantt.specs.Limits.{latest_start};
ghost use Rattle.plan_formats.specs.Cells.{cell_of};
ghost use Rattle.plan_formats.specs.Columns.{column_of};
ghost use Rattle.plan_formats.specs.TableLines.{line_of};
ghost use Rattle.plan_formats.specs.Tables.{cells_of, rows_of, table_of};
ghost use Rattle.plan_formats.specs.TableText.{text_of};
ghost use Rattle.plan_views.specs.Plans.{count_of, plan_of, problem_of};
ghost use Rattle.plan_views.specs.Rows.{rows_from};
ghost use Rattle.plan_views.specs.ComparisonTables as spec;

use crate::headings::right;
use crate::plans::{PlanRef, count, placed_columns, placed_front};
use plan_formats::{Cell, Column, Line, Table};
use plan_report::{makespan_of, push_sentence, push_shop_sentence, shop_makespan_of};
use plan_sgs::{Instance, Verdict, check};
use plan_shop::{self};
use std::alloc::{AllocError, Global};

// Returns the columns.
fn columns(alloc: Global, plan: PlanRef<'_>) -> Result<Vec<Column>, AllocError>
    ensures { IfOk result (λ columns.
        map column_of columns.items ≡ spec.comparison_columns (plan_of plan.entry)) }
{
    let mut columns = placed_columns(alloc, plan)?;
    columns.push(right("A", "start_a", 8))?;
    columns.push(right("B", "start_b", 8))?;
    columns.push(right("shift", "shift", 8))?;
    Ok(columns)
}

/// Returns the cell of the shift from start `a` to start `b`.
pub(crate) fn shift<'a>(a: u64, b: u64) -> Cell<'a>
    requires a { a ≤ latest_start }
    requires b { b ≤ latest_start }
    ensures { cell_of result ≡ spec.shift_of a b }
{
    if a < b {
        Cell::Above((b - a) as u32)
    } else if b < a {
        Cell::Below((a - b) as u32)
    } else {
        Cell::Number(0)
    }
}

// Returns row `k`.
#[tactic(auto, unfolding(crate::specs::ComparisonTables::comparison_row))]
fn row<'a>(
    alloc: Global,
    plan: PlanRef<'_>,
    a: &[u64],
    b: &[u64],
    k: u32,
) -> Result<Vec<Cell<'a>>, AllocError>
    requires row { k < count_of (plan_of plan) }
    requires a { length a.now ≡ count_of (plan_of plan) }
    requires limit_a { All IsInTime a.now }
    requires b { length b.now ≡ count_of (plan_of plan) }
    requires limit_b { All IsInTime b.now }
    ensures { IfOk result (λ cells.
        cells_of cells.items ≡ spec.comparison_row (plan_of plan.entry) a.now b.now k) }
{
    let before = a[k as usize];
    let after = b[k as usize];
    let mut row = placed_front(alloc, plan, k)?;
    row.push(Cell::Number(before))?;
    row.push(Cell::Number(after))?;
    row.push(shift(before, after))?;
    Ok(row)
}

// Returns the rows of all activities or steps.
fn rows<'a>(
    alloc: Global,
    plan: PlanRef<'_>,
    a: &[u64],
    b: &[u64],
) -> Result<Vec<Vec<Cell<'a>>>, AllocError>
    requires whole_a { length a.now ≡ count_of (plan_of plan) }
    requires limit_a { All IsInTime a.now }
    requires whole_b { length b.now ≡ count_of (plan_of plan) }
    requires limit_b { All IsInTime b.now }
    ensures { IfOk result (λ rows. rows_of rows.items ≡ rows_from
        (spec.comparison_row (plan_of plan.entry) a.now b.now) 0
        (count_of (plan_of plan.entry))) }
{
    let mut rows = Vec::new(alloc);
    for k in 0..count(plan) {
        rows.push(row(alloc, plan, a, b, k)?)?;
    }
    Ok(rows)
}

// Appends the sentence of a verdict.
fn push_verdict(text: &mut String, plan: PlanRef<'_>, verdict: Verdict) -> Result<(), AllocError>
    ensures { OnOk result (string_bytes text.new
        ≡ string_bytes text.old ++ spec.sentence_of (plan_of plan.entry) verdict) }
{
    match plan {
        PlanRef::Project(_) => push_sentence(text, verdict),
        PlanRef::Shop(shop) => push_shop_sentence(text, shop, verdict),
    }
}

// Returns the sentence of a verdict.
fn sentence(alloc: Global, plan: PlanRef<'_>, verdict: Verdict) -> Result<String, AllocError>
    ensures { IfOk result (λ text.
        string_bytes text ≡ spec.sentence_of (plan_of plan.entry) verdict) }
{
    let mut text = String::new(alloc);
    push_verdict(&mut text, plan, verdict)?;
    Ok(text)
}

// Returns the makespan of a list of starts.
fn makespan_on(plan: PlanRef<'_>, starts: &[u64]) -> u64
    requires whole { length starts.now ≡ count_of (plan_of plan) }
    requires limit { All IsInTime starts.now }
    ensures { result ≡ problems.makespan (problem_of (plan_of plan.entry)) starts.now }
{
    match plan {
        PlanRef::Project(instance) => makespan_of(instance, starts),
        PlanRef::Shop(shop) => shop_makespan_of(shop, starts),
    }
}

// Returns the line of a schedule.
fn summary(
    alloc: Global,
    plan: PlanRef<'_>,
    name: &'static str,
    starts: &[u64],
    verdict: Verdict,
) -> Result<Line, AllocError>
    requires whole { length starts.now ≡ count_of (plan_of plan) }
    requires limit { All IsInTime starts.now }
    ensures { IfOk result (λ line. line_of line ≡ spec.summary_of (plan_of plan.entry) name.now
        (problems.makespan (problem_of (plan_of plan.entry)) starts.now) verdict) }
{
    let makespan = makespan_on(plan, starts);
    let verdict = sentence(alloc, plan, verdict)?;
    Ok(Line::Summary {
        name,
        makespan,
        verdict,
    })
}

// Returns the lines of both schedules.
fn summaries(
    alloc: Global,
    plan: PlanRef<'_>,
    a: &[u64],
    b: &[u64],
    verdict_a: Verdict,
    verdict_b: Verdict,
) -> Result<Vec<Line>, AllocError>
    requires whole_a { length a.now ≡ count_of (plan_of plan) }
    requires limit_a { All IsInTime a.now }
    requires whole_b { length b.now ≡ count_of (plan_of plan) }
    requires limit_b { All IsInTime b.now }
    ensures { IfOk result (λ lines. map line_of lines.items
        ≡ spec.summaries_of (plan_of plan.entry) a.now b.now verdict_a verdict_b) }
{
    let mut lines = Vec::new(alloc);
    lines.push(summary(alloc, plan, "A", a, verdict_a)?)?;
    lines.push(summary(alloc, plan, "B", b, verdict_b)?)?;
    Ok(lines)
}

// Returns the comparison of two schedules with these verdicts.
fn comparison<'a>(
    alloc: Global,
    plan: PlanRef<'_>,
    a: &[u64],
    b: &[u64],
    verdict_a: Verdict,
    verdict_b: Verdict,
) -> Result<Table<'a>, AllocError>
    requires whole_a { length a.now ≡ count_of (plan_of plan) }
    requires limit_a { All IsInTime a.now }
    requires whole_b { length b.now ≡ count_of (plan_of plan) }
    requires limit_b { All IsInTime b.now }
    ensures { IfOk result (λ table. table_of table
        ≡ spec.comparison_view_of (plan_of plan.entry) a.now b.now verdict_a verdict_b) }
{
    Ok(Table {
        above: Vec::new(alloc),
        columns: columns(alloc, plan)?,
        rows: rows(alloc, plan, a, b)?,
        below: summaries(alloc, plan, a, b, verdict_a, verdict_b)?,
    })
}

// Returns the first verdict on a list of starts of a project.
fn project_verdict(
    alloc: Global,
    instance: &Instance,
    starts: &[u64],
) -> Result<Verdict, AllocError>
    requires whole { length starts.now ≡ networks.count_of instance.now.project.network }
    requires limit { All IsInTime starts.now }
    ensures { IfOk result (IsFirstVerdict (projects.problem_of instance.now) starts.now) }
{
    match check(alloc, instance, starts) {
        Ok(verdict) => Ok(verdict),
        Err(_) => Err(AllocError),
    }
}

// Returns the first verdict on a list of starts.
fn verdict_on(alloc: Global, plan: PlanRef<'_>, starts: &[u64]) -> Result<Verdict, AllocError>
    requires whole { length starts.now ≡ count_of (plan_of plan) }
    requires limit { All IsInTime starts.now }
    ensures { IfOk result (IsFirstVerdict (problem_of (plan_of plan.entry)) starts.now) }
{
    match plan {
        PlanRef::Project(instance) => project_verdict(alloc, instance, starts),
        PlanRef::Shop(shop) => Ok(plan_shop::check(shop, starts)),
    }
}

/// Returns the comparison of two schedules A and B: a row for each activity of a project, or for
/// each step of a job shop in flat order. A row has the activity's number, or the step's job and
/// number in the job (both from 1) and its machine (from 0), its start in A and in B, and the shift
/// from A to B. Below is a line for each schedule with its makespan and the first verdict on it.
/// Index `k` of a list of starts is activity `k + 1` or flat step `k`; times are whole time units.
pub fn comparison_view<'a>(
    alloc: Global,
    plan: PlanRef<'_>,
    a: &[u64],
    b: &[u64],
) -> Result<Table<'a>, AllocError>
    requires whole_a { length a.now ≡ count_of (plan_of plan) }
    requires limit_a { All IsInTime a.now }
    requires whole_b { length b.now ≡ count_of (plan_of plan) }
    requires limit_b { All IsInTime b.now }
    ensures value { IfOk result (λ table.
        spec.IsComparisonView (plan_of plan.entry) a.now b.now (table_of table)) }
    ensures text { IfOk result (λ table.
        spec.Compares (plan_of plan.entry) a.now b.now (text_of (table_of table))) }
{
    let verdict_a = verdict_on(alloc, plan, a)?;
    let verdict_b = verdict_on(alloc, plan, b)?;
    comparison(alloc, plan, a, b, verdict_a, verdict_b)
}
