//! The dates of an activity in a list.

ghost use Rattle.std.specs.Prelude.{◌≡◌, ◌≤◌, IfOk, IfSome};
ghost use Rattle.plan_table.specs.Csv.{row_of};
ghost use Rattle.plan_weeklist.specs.Dates as spec;
ghost use Rattle.plan_weeklist.specs.Faults.{Gives};

use crate::columns::Columns;
use crate::fault::{WeekCode, WeekError};
use crate::numbers::{cell_in, date_at, date_in, word_fault};
use plan_table::{Row, same_name};
use std::alloc::Global;

/// Whether an activity has begun.
#[derive(Clone, Copy, Drop)]
pub enum Beginning {
    /// It hasn't.
    Missing,
    /// It began at an instant.
    At(u32),
    /// It was interrupted: what remains is planned anew.
    Interrupted,
}

/// The dates of an activity.
#[derive(Clone, Copy, Drop)]
pub struct Dates {
    pub earliest: Option<u32>,
    pub fixed: Option<u32>,
    pub begun: Beginning,
    pub remaining: Option<u32>,
    pub done: Option<u32>,
    pub due: Option<u32>,
}

// Today is known, if a cell tells what has happened.
fn check_today(alloc: Global, today: Option<u32>, line: u64, cell: &[u8]) -> Result<(), WeekError>
    ensures { Gives (λ u. u) result (spec.known_today today line cell.now) }
{
    if today.is_some() || cell.is_empty() {
        return Ok(());
    }
    Err(word_fault(alloc, WeekCode::NoToday, line, cell))
}

// Whether an activity has begun, by the instant.
fn begun_from(date: Option<u32>) -> Beginning
    ensures { result ≡ spec.begun_from date }
{
    match date {
        Some(began) => Beginning::At(began),
        None => Beginning::Missing,
    }
}

// Whether an activity has begun, by a cell.
#[tactic(auto, unfolding(crate::specs::Dates::begun_in))]
fn begun_in(
    alloc: Global,
    today: Option<u32>,
    line: u64,
    cell: &[u8],
) -> Result<Beginning, WeekError>
    ensures { Gives (λ b. b) result (spec.begun_in today line cell.now) }
{
    check_today(alloc, today, line, cell)?;
    if same_name(cell, b"interrupted") {
        return Ok(Beginning::Interrupted);
    }
    let date = date_in(alloc, line, cell)?;
    Ok(begun_from(date))
}

// When an activity was done, by a cell.
#[tactic(auto, unfolding(crate::specs::Dates::done_in))]
fn done_in(
    alloc: Global,
    today: Option<u32>,
    line: u64,
    cell: &[u8],
) -> Result<Option<u32>, WeekError>
    ensures { Gives (λ b. b) result (spec.done_in today line cell.now) }
{
    check_today(alloc, today, line, cell)?;
    date_in(alloc, line, cell)
}

// Whether an activity is still to be started.
fn is_ahead(dates: &Dates) -> bool
    ensures { result ≡ spec.is_ahead dates.now.begun dates.now.done }
{
    match dates.begun {
        Beginning::Missing => dates.done.is_none(),
        Beginning::Interrupted => dates.done.is_none(),
        Beginning::At(_) => false,
    }
}

// Whether an activity has begun, or was interrupted.
fn has_begun(begun: Beginning) -> bool
    ensures { result ≡ spec.has_begun begun }
{
    match begun {
        Beginning::Missing => false,
        Beginning::Interrupted => true,
        Beginning::At(_) => true,
    }
}

/// Returns a number, or another one if there is none.
pub fn number_or(other: u32, number: Option<u32>) -> u32
    ensures { result ≡ spec.number_or other number }
{
    match number {
        Some(number) => number,
        None => other,
    }
}

// Whether an appointment isn't before an instant.
fn is_fixed_from(instant: u32, fixed: Option<u32>) -> bool
    ensures { result ≡ spec.is_fixed_from instant fixed }
{
    match fixed {
        Some(fixed) => instant <= fixed,
        None => true,
    }
}

// Whether the appointment of an activity is possible.
fn keeps_fixed(today: Option<u32>, dates: &Dates) -> bool
    ensures { result ≡ spec.keeps_fixed today dates.now }
{
    if !is_ahead(dates) {
        return true;
    }
    let earliest = number_or(0, today).max(number_or(0, dates.earliest));
    is_fixed_from(earliest, dates.fixed)
}

// Whether only what has begun has a rest.
fn keeps_rest(dates: &Dates) -> bool
    ensures { result ≡ spec.keeps_rest dates.now }
{
    dates.remaining.is_none() || has_begun(dates.begun)
}

// Checks that the dates of a row agree.
#[tactic(auto, unfolding(crate::specs::Dates::dates_checked))]
fn check_dates(
    alloc: Global,
    today: Option<u32>,
    columns: &Columns,
    row: &Row,
    dates: Dates,
) -> Result<Dates, WeekError>
    ensures { Gives (λ d. d) result
        (spec.dates_checked today columns.now (row_of row.now) dates) }
{
    if !keeps_fixed(today, &dates) {
        let cell = cell_in(columns.fixed, row);
        return Err(word_fault(alloc, WeekCode::Contradiction, row.line, cell));
    }
    if !keeps_rest(&dates) {
        let cell = cell_in(columns.remaining, row);
        return Err(word_fault(alloc, WeekCode::Contradiction, row.line, cell));
    }
    Ok(dates)
}

/// Reads the dates of a row, or the first check that they fail.
#[tactic(auto, unfolding(crate::specs::Dates::dates_read))]
pub fn read_dates(
    alloc: Global,
    today: Option<u32>,
    columns: &Columns,
    row: &Row,
) -> Result<Dates, WeekError>
    ensures { Gives (λ d. d) result (spec.dates_read today columns.now (row_of row.now)) }
{
    let earliest = date_at(alloc, columns.earliest, row)?;
    let fixed = date_at(alloc, columns.fixed, row)?;
    let begun = begun_in(alloc, today, row.line, cell_in(columns.begun, row))?;
    let remaining = date_at(alloc, columns.remaining, row)?;
    let done = done_in(alloc, today, row.line, cell_in(columns.done, row))?;
    let due = date_at(alloc, columns.due, row)?;
    let dates = Dates {
        earliest,
        fixed,
        begun,
        remaining,
        done,
        due,
    };
    check_dates(alloc, today, columns, row, dates)
}
