//! The rows of a list: those of activities, each with its dates, and those of absences.

ghost use Rattle.std.specs.Prelude.{◌≡◌, [], map};
ghost use Rattle.plan_table.specs.Csv.{row_of};
ghost use Rattle.plan_table.specs.Header.{head_of};
ghost use Rattle.plan_weeklist.specs.Dates as dates;
ghost use Rattle.plan_weeklist.specs.Faults.{Gives};
ghost use Rattle.plan_weeklist.specs.Rows as spec;

use crate::columns::{Columns, has_dates, is_absence, is_place};
use crate::dates::{Dates, number_or, read_dates};
use crate::fault::WeekError;
use crate::numbers::{cell_in, date_at, date_in, number_in};
use plan_psplib::trim;
use plan_spreadsheet::{amounts_of, cell_parts, with_names};
use plan_table::{Column, Head, Row, cell_of, is_blank_row, is_capacities, same_kind};
use std::alloc::Global;

/// How much is absent of a resource.
#[derive(Drop)]
pub struct Shortage {
    pub resource: Vec<u8>,
    pub amount: u32,
}

/// An absence: its line, its first instant, the instant behind it, and what is absent.
#[derive(Drop)]
pub struct AbsenceRow {
    pub line: u64,
    pub from: u32,
    pub until: u32,
    pub shortages: Vec<Shortage>,
}

/// The row of an activity: its id, empty in a list without ids, and its dates.
#[derive(Drop)]
pub struct DatedRow {
    pub id: Vec<u8>,
    pub dates: Dates,
}

/// The activities and the absences of a list, in the order of its rows.
#[derive(Drop)]
pub struct WeekRows {
    pub rows: Vec<DatedRow>,
    pub absences: Vec<AbsenceRow>,
}

// Whether column `k` tells how much is absent.
fn tells_absence(columns: &Columns, k: usize, head: &Head) -> bool
    ensures { result ≡ spec.tells_absence columns.now k (head_of head.now) }
{
    same_kind(Column::Resource, head.column) && !has_dates(columns, k)
}

// Adds the absence of a resource that parts of a cell name.
fn push_named(
    alloc: Global,
    line: u64,
    parts: &[Vec<u8>],
    before: &mut Vec<Shortage>,
    name: &[u8],
) -> Result<(), WeekError>
    ensures { Gives (λ _. map spec.shortage_of before.new.items) result
        (spec.named_shortage line (map (λ part. part.items) parts.now)
        (map spec.shortage_of before.old.items) name.now) }
{
    let amounts = amounts_of(alloc, name, parts)?;
    let amount = number_in(alloc, line, trim(&amounts))?;
    let resource = Vec::from_slice(alloc, name)?;
    before.push(Shortage { resource, amount })?;
    Ok(())
}

// Adds the absences of resources that parts of a cell name.
#[tactic(auto, unfolding(crate::specs::Rows::named_from))]
fn push_names(
    alloc: Global,
    line: u64,
    parts: &[Vec<u8>],
    before: &mut Vec<Shortage>,
    names: &[Vec<u8>],
) -> Result<(), WeekError>
    ensures { Gives (λ _. map spec.shortage_of before.new.items) result
        (spec.named_from line (map (λ part. part.items) parts.now)
        (map spec.shortage_of before.old.items) (map (λ name. name.items) names.now)) }
{
    for name in names {
        push_named(alloc, line, parts, before, name)?;
    }
    Ok(())
}

// Adds the absences of all resources that a cell names.
fn read_names(
    alloc: Global,
    line: u64,
    before: &mut Vec<Shortage>,
    cell: &[u8],
) -> Result<(), WeekError>
    ensures { Gives (λ _. map spec.shortage_of before.new.items) result
        (spec.named_read line (map spec.shortage_of before.old.items) cell.now) }
{
    let parts = cell_parts(alloc, cell)?;
    let names = with_names(alloc, Vec::new(alloc), &parts)?;
    push_names(alloc, line, &parts, before, &names)
}

// Adds the absence of the resource of a column, if a cell has an amount.
fn read_amount(
    alloc: Global,
    line: u64,
    before: &mut Vec<Shortage>,
    resource: &[u8],
    cell: &[u8],
) -> Result<(), WeekError>
    ensures { Gives (λ _. map spec.shortage_of before.new.items) result
        (spec.amount_read line (map spec.shortage_of before.old.items) resource.now cell.now) }
{
    if let Some(amount) = date_in(alloc, line, cell)? {
        let resource = Vec::from_slice(alloc, resource)?;
        before.push(Shortage { resource, amount })?;
    }
    Ok(())
}

// Adds the absences that a row has in column `k`.
#[tactic(auto, unfolding(crate::specs::Rows::shortage_read))]
fn read_shortage(
    alloc: Global,
    columns: &Columns,
    row: &Row,
    before: &mut Vec<Shortage>,
    k: usize,
    head: &Head,
) -> Result<(), WeekError>
    ensures { Gives (λ _. map spec.shortage_of before.new.items) result
        (spec.shortage_read columns.now (row_of row.now)
        (map spec.shortage_of before.old.items) k (head_of head.now)) }
{
    if !tells_absence(columns, k, head) {
        return Ok(());
    }
    if is_place(columns.names, k) {
        return read_names(alloc, row.line, before, cell_of(row, k));
    }
    read_amount(
        alloc,
        row.line,
        before,
        head.name.as_bytes(),
        cell_of(row, k),
    )
}

// Returns the absences of a row in all columns.
#[tactic(auto, unfolding(crate::specs::Rows::shortages_from))]
fn read_shortages(
    alloc: Global,
    columns: &Columns,
    heads: &[Head],
    row: &Row,
) -> Result<Vec<Shortage>, WeekError>
    ensures { Gives (λ v. map spec.shortage_of v.items) result
        (spec.shortages_from columns.now (row_of row.now) [] 0 (map head_of heads.now)) }
{
    let mut shortages = Vec::new(alloc);
    for (k, head) in heads.iter().enumerate() {
        read_shortage(alloc, columns, row, &mut shortages, k, head)?;
    }
    Ok(shortages)
}

// An absence.
#[tactic(auto, unfolding(crate::specs::Rows::absence_read))]
fn read_absence(
    alloc: Global,
    columns: &Columns,
    heads: &[Head],
    row: &Row,
) -> Result<AbsenceRow, WeekError>
    ensures { Gives spec.absence_of result
        (spec.absence_read columns.now (map head_of heads.now) (row_of row.now)) }
{
    let from = date_at(alloc, columns.earliest, row)?;
    let lasts = number_in(alloc, row.line, cell_in(columns.durations, row))?;
    let shortages = read_shortages(alloc, columns, heads, row)?;
    let from = number_or(0, from);
    Ok(AbsenceRow {
        line: row.line,
        from,
        until: from + lasts,
        shortages,
    })
}

// Whether a row has no dates.
fn is_passed(columns: &Columns, row: &Row) -> bool
    ensures { result ≡ spec.is_passed columns.now (row_of row.now) }
{
    is_blank_row(&row.cells) || is_capacities(columns.ids, row)
}

// The row of an activity, with its dates.
fn dated_row(
    alloc: Global,
    today: Option<u32>,
    columns: &Columns,
    row: &Row,
) -> Result<DatedRow, WeekError>
    ensures { Gives spec.dated_of result (spec.dated_read today columns.now (row_of row.now)) }
{
    let dates = read_dates(alloc, today, columns, row)?;
    let id = Vec::from_slice(alloc, cell_in(columns.ids, row))?;
    Ok(DatedRow { id, dates })
}

// Adds the contents of a row.
#[tactic(auto, unfolding(crate::specs::Rows::row_read))]
fn read_row(
    alloc: Global,
    today: Option<u32>,
    columns: &Columns,
    heads: &[Head],
    read: &mut WeekRows,
    row: &Row,
) -> Result<(), WeekError>
    ensures { Gives (λ _. spec.week_rows_of read.new) result
        (spec.row_read today columns.now (map head_of heads.now)
        (spec.week_rows_of read.old) (row_of row.now)) }
{
    if is_passed(columns, row) {
        return Ok(());
    }
    if is_absence(columns, row) {
        let absence = read_absence(alloc, columns, heads, row)?;
        read.absences.push(absence)?;
        return Ok(());
    }
    let dated = dated_row(alloc, today, columns, row)?;
    read.rows.push(dated)?;
    Ok(())
}

/// Reads the activities and the absences of the rows behind the header, or the first check that
/// their dates fail.
#[tactic(auto, unfolding(crate::specs::Rows::rows_from))]
pub fn read_rows(
    alloc: Global,
    today: Option<u32>,
    columns: &Columns,
    heads: &[Head],
    rows: &[Row],
) -> Result<WeekRows, WeekError>
    ensures { Gives spec.week_rows_of result (spec.rows_from today columns.now
        (map head_of heads.now) spec.no_rows (map row_of rows.now)) }
{
    let mut read = WeekRows {
        rows: Vec::new(alloc),
        absences: Vec::new(alloc),
    };
    for row in rows {
        read_row(alloc, today, columns, heads, &mut read, row)?;
    }
    Ok(read)
}
