//! The numbers in the cells of dates.

ghost use Rattle.std.specs.Prelude.{◌≡◌, ◌≤◌, ℕ, List, Option, IfOk, IfSome};
ghost use Rattle.plan_kernel.specs.declared.input.Absence.{Absence};
ghost use Rattle.plan_table.specs.Csv.{row_of};
ghost use Rattle.plan_weeklist.specs.Dates as spec;
ghost use Rattle.plan_weeklist.specs.Faults.{Fails, Gives, fault};
ghost use Rattle.plan_weeklist.specs.Rows as rows;
ghost use Rattle.plan_weeklist.specs.declared.dates.Beginning.{Beginning};
ghost use Rattle.plan_weeklist.specs.declared.dates.Dates.{Dates};

use crate::fault::{WeekCode, WeekError, WeekFault};
use plan_psplib::number;
use plan_table::{Row, cell_of};
use std::alloc::Global;

/// The latest instant in a list.
const LATEST_INSTANT: u64 = 10_000_000;

/// A fault that names a word.
pub fn word_fault(alloc: Global, code: WeekCode, line: u64, word: &[u8]) -> WeekError
    ensures number { Fails result (fault {A = ℕ} code line word.now) }
    ensures date { Fails result (fault {A = Option ℕ} code line word.now) }
    ensures unit { Fails result (fault {A = Unit {0}} code line word.now) }
    ensures beginning { Fails result (fault {A = Beginning} code line word.now) }
    ensures dates { Fails result (fault {A = Dates} code line word.now) }
    ensures shortages { Fails result (fault {A = List rows.Shortage} code line word.now) }
    ensures absence { Fails result (fault {A = rows.AbsenceRow} code line word.now) }
    ensures dated { Fails result (fault {A = rows.DatedRow} code line word.now) }
    ensures kernel { Fails result (fault {A = Absence} code line word.now) }
    ensures kernels { Fails result (fault {A = List Absence} code line word.now) }
    ensures rows { Fails result (fault {A = rows.WeekRows} code line word.now) }
{
    match Vec::from_slice(alloc, word) {
        Ok(word) => WeekError::Fault(WeekFault { code, line, word }),
        Err(_) => WeekError::Memory,
    }
}

/// The number in a cell: whole, and at most 10,000,000.
#[tactic(auto, unfolding(crate::specs::Dates::number_in))]
pub fn number_in(alloc: Global, line: u64, cell: &[u8]) -> Result<u32, WeekError>
    ensures exact { Gives (λ n. n) result (spec.number_in line cell.now) }
    ensures fits { IfOk result (λ n. n ≤ 10000000) }
{
    match number(cell) {
        Some(n) if n <= LATEST_INSTANT => Ok(n as u32),
        _ => Err(word_fault(alloc, WeekCode::BadNumber, line, cell)),
    }
}

/// The number in a cell, if it isn't empty.
pub fn date_in(alloc: Global, line: u64, cell: &[u8]) -> Result<Option<u32>, WeekError>
    ensures exact { Gives (λ n. n) result (spec.date_in line cell.now) }
    ensures fits { IfOk result (λ date. IfSome date (λ n. n ≤ 10000000)) }
{
    if cell.is_empty() {
        return Ok(None);
    }
    let n = number_in(alloc, line, cell)?;
    Ok(Some(n))
}

/// The cell of a row in a column, an empty one if there is no such column.
pub fn cell_in(place: Option<usize>, row: &Row) -> &[u8]
    ensures { result.now ≡ spec.cell_in place (row_of row.now) }
{
    match place {
        Some(k) => cell_of(row, k),
        None => b"",
    }
}

/// The number of a row in a column, if it has one.
pub fn date_at(alloc: Global, place: Option<usize>, row: &Row) -> Result<Option<u32>, WeekError>
    ensures exact { Gives (λ n. n) result (spec.date_at place (row_of row.now)) }
    ensures fits { IfOk result (λ date. IfSome date (λ n. n ≤ 10000000)) }
{
    date_in(alloc, row.line, cell_in(place, row))
}
