//! The cells of a list with dates.

ghost use Rattle.std.specs.Prelude.{◌≡◌, IfErr, IfOk, decimal, slice_index_or};
ghost use Rattle.std.specs.Bool.{Decides};
ghost use Rattle.plan_psplib.specs.Numbers as numbers;
ghost use Rattle.plan_weekdates.specs.DatedCells as spec;

use crate::calendar::InstantCalendar;
use crate::columns::DateColumn;
use crate::fault::{CellCode, CellFault, DateError};
use jiff::civil::Date;
use plan_calendar::date_in;
use plan_psplib::trim;
use std::alloc::{AllocError, Global};

// Returns the byte at a place, 0 if there is none.
fn byte_at(text: &[u8], place: usize) -> u8
    ensures { result ≡ slice_index_or text.now place 0 }
{
    match text.get(place) {
        Some(byte) => *byte,
        None => 0,
    }
}

// Tests whether a byte is a digit.
fn is_digit(byte: u8) -> bool
    ensures { result ≡ numbers.is_digit byte }
{
    byte >= b'0' && byte <= b'9'
}

// Tests whether a text begins with four digits and a hyphen.
fn begins_like_date(text: &[u8]) -> bool
    ensures { result ≡ spec.begins_like_date text.now }
{
    is_digit(byte_at(text, 0))
        && is_digit(byte_at(text, 1))
        && is_digit(byte_at(text, 2))
        && is_digit(byte_at(text, 3))
        && byte_at(text, 4) == b'-'
}

// Returns the instant of a date in a column.
fn instant_in(calendar: &InstantCalendar, column: DateColumn, date: Date) -> u32
    ensures { result ≡ spec.instant_in calendar.now column date }
{
    match column {
        DateColumn::Earliest | DateColumn::Fixed | DateColumn::Begun => {
            calendar.instant_before(date)
        }
        DateColumn::Done | DateColumn::Due => calendar.instant_behind(date),
    }
}

// Tests whether a column tells what has happened.
fn tells_past(column: DateColumn) -> bool
    ensures { result ≡ spec.tells_past column }
{
    match column {
        DateColumn::Begun | DateColumn::Done => true,
        DateColumn::Earliest | DateColumn::Fixed | DateColumn::Due => false,
    }
}

// Tests whether a date is before the first one, in a column that tells what has happened.
fn is_refused(calendar: &InstantCalendar, column: DateColumn, date: Date) -> bool
    ensures { Decides result (spec.IsRefusedDate calendar.now column date) }
{
    tells_past(column) && calendar.is_too_early(date)
}

// Returns a number in decimal digits.
fn digits_of(alloc: Global, number: u32) -> Result<Vec<u8>, AllocError>
    ensures { IfOk result (λ digits. digits.items ≡ decimal number) }
{
    Ok(number.to_string(alloc)?.into_bytes())
}

// Returns the error of a cell in a line.
fn cell_error(
    alloc: Global,
    code: CellCode,
    line: u64,
    column: DateColumn,
    word: &[u8],
) -> DateError
    ensures { spec.Fails (spec.IsFaultOf code line column word.now) result }
{
    match Vec::from_slice(alloc, word) {
        Ok(word) => DateError::Cell(CellFault {
            code,
            line,
            column,
            word,
        }),
        Err(_) => DateError::Memory,
    }
}

// Returns the date that a text is, if it is allowed in a column.
fn allowed_date(
    calendar: &InstantCalendar,
    column: DateColumn,
    text: &[u8],
) -> Result<Date, CellCode>
    ensures date { IfOk result (spec.IsAllowed calendar.now column text.now) }
    ensures refused { IfErr result (spec.RefusesText calendar.now column text.now) }
{
    let Some(date) = date_in(text) else {
        return Err(CellCode::NoDate);
    };
    if is_refused(calendar, column, date) {
        return Err(CellCode::TooEarly);
    }
    Ok(date)
}

// Returns what a cell in a column of dates becomes.
#[tactic(auto, using(crate::proofs::RowLemmas::refused_in))]
fn dated_in(
    alloc: Global,
    calendar: &InstantCalendar,
    line: u64,
    column: DateColumn,
    cell: &[u8],
) -> Result<Vec<u8>, DateError>
    ensures made { IfOk result (λ made. spec.IsDatedIn calendar.now column cell.now made.items) }
    ensures refused { IfErr result (spec.Fails (spec.RefusesIn calendar.now line column cell.now)) }
{
    let text = trim(cell);
    if !begins_like_date(text) {
        return Ok(Vec::from_slice(alloc, cell)?);
    }
    match allowed_date(calendar, column, text) {
        Ok(date) => Ok(digits_of(alloc, instant_in(calendar, column, date))?),
        Err(code) => Err(cell_error(alloc, code, line, column, text)),
    }
}

/// Returns what a cell becomes: in a column of dates a date becomes its instant.
pub fn dated_cell(
    alloc: Global,
    calendar: &InstantCalendar,
    line: u64,
    column: Option<DateColumn>,
    cell: &[u8],
) -> Result<Vec<u8>, DateError>
    ensures made { IfOk result (λ made. spec.IsDatedCell calendar.now column cell.now made.items) }
    ensures refused { IfErr result
        (spec.Fails (spec.RefusesCell calendar.now line column cell.now)) }
{
    match column {
        Some(column) => dated_in(alloc, calendar, line, column, cell),
        None => Ok(Vec::from_slice(alloc, cell)?),
    }
}
