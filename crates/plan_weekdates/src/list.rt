//! A list with dates, and the list with instants that is read in its place.

ghost use Rattle.std.specs.Prelude.{◌≡◌, ◌∷◌, None, Ok, map, IfErr, IfOk};
ghost use Rattle.plan_encoding.specs.Encodings.{utf8_of};
ghost use Rattle.plan_table.specs.Csv.{row_of};
ghost use Rattle.plan_table.specs.Header.{head_of};
ghost use Rattle.plan_table.specs.Listing.{rows_read};
ghost use Rattle.plan_table.specs.Overrides.{override_of};
ghost use Rattle.plan_weekdates.specs.DatedLists as spec;
ghost use Rattle.plan_weekdates.specs.DatedRows.{RefusesRows};

use crate::calendar::InstantCalendar;
use crate::columns::{DateColumn, columns_of};
use crate::fault::DateError;
use crate::rows::dated_rows;
use crate::text::write_rows;
use plan_encoding::utf8_text;
use plan_spreadsheet::filled;
use plan_table::{
    Body, Head, ListKind, Override, ReadError, Row, ids_place, list_kind, read_heads, read_rows_of,
};
use std::alloc::{AllocError, Global};

/// A list with instants in place of dates.
#[derive(Drop)]
pub struct DatedList {
    /// The text of the list in UTF-8; `None` if the bytes of the file stay.
    pub text: Option<Vec<u8>>,
}

impl DatedList {
    /// Returns the text that is read: the list with instants, or `bytes`, which are those of the
    /// file.
    pub fn utf8<'a>(&'a self, bytes: &'a [u8]) -> &'a [u8]
        ensures { result.now ≡ spec.text_of self.now bytes.now }
    {
        match &self.text {
            Some(text) => text,
            None => bytes,
        }
    }
}

// Copies cells.
fn copy_cells(alloc: Global, cells: &[Vec<u8>]) -> Result<Vec<Vec<u8>>, AllocError>
    ensures { IfOk result (λ v. map (λ cell. cell.items) v.items
        ≡ map (λ cell. cell.items) cells.now) }
{
    let mut copies = Vec::new(alloc);
    for cell in cells {
        let copy = Vec::from_slice(alloc, cell)?;
        copies.push(copy)?;
    }
    Ok(copies)
}

// Returns rows behind a copy of a header.
fn with_header(alloc: Global, first: &Row, rows: Vec<Row>) -> Result<Vec<Row>, AllocError>
    ensures { IfOk result (λ all.
        map row_of all.items ≡ row_of first.now ∷ map row_of rows.items) }
{
    let mut all = rows;
    let header = Row {
        line: first.line,
        cells: copy_cells(alloc, &first.cells)?,
    };
    all.insert(0, header)?;
    Ok(all)
}

// Returns the text of rows under a header, in these columns.
#[tactic(auto, using(crate::proofs::ListLemmas::cell_error, crate::proofs::ListLemmas::unwritten))]
fn text_with(
    alloc: Global,
    calendar: &InstantCalendar,
    columns: &[Option<DateColumn>],
    first: &Row,
    rows: &[Row],
) -> Result<Option<Vec<u8>>, DateError>
    ensures text { IfOk result (spec.IsDatedText calendar.now columns.now (row_of first.now)
        (map row_of rows.now)) }
    ensures refused { IfErr result
        (spec.FailsOr (RefusesRows calendar.now columns.now (map row_of rows.now))) }
{
    let made = dated_rows(alloc, calendar, columns, rows)?;
    let all = with_header(alloc, first, made)?;
    let text = write_rows(alloc, &all)?;
    Ok(Some(text))
}

// Returns the text of rows under a header that has been read.
fn text_under(
    alloc: Global,
    calendar: &InstantCalendar,
    overrides: &[Override<'_>],
    first: &Row,
    rows: &[Row],
    heads: &[Head],
) -> Result<Option<Vec<u8>>, DateError>
    ensures text { IfOk result (spec.IsDatedUnder calendar.now (map override_of overrides.now)
        (row_of first.now) (map row_of rows.now) (Ok (map head_of heads.now))) }
    ensures refused { IfErr result (spec.FailsOr (spec.RefusesUnder calendar.now
        (map override_of overrides.now) (map row_of rows.now) (Ok (map head_of heads.now)))) }
{
    let body = Body {
        overrides,
        rows,
        place: ids_place(overrides, heads),
    };
    let columns = columns_of(alloc, &body, heads)?;
    text_with(alloc, calendar, &columns, first, rows)
}

// Returns the text of rows under a header.
fn text_behind(
    alloc: Global,
    calendar: &InstantCalendar,
    overrides: &[Override<'_>],
    first: &Row,
    rows: &[Row],
) -> Result<Option<Vec<u8>>, DateError>
    ensures text { IfOk result (spec.IsDatedBehind calendar.now (map override_of overrides.now)
        (row_of first.now ∷ map row_of rows.now)) }
    ensures refused { IfErr result (spec.FailsOr (spec.RefusesBehind calendar.now
        (map override_of overrides.now) (row_of first.now ∷ map row_of rows.now))) }
{
    match read_heads(alloc, first.line, &first.cells) {
        Ok(heads) => {
            let text = text_under(alloc, calendar, overrides, first, rows, &heads)?;
            Ok(text)
        }
        Err(ReadError::Memory) => Err(DateError::Memory),
        Err(ReadError::Fault(_)) => Ok(None),
    }
}

// Returns the text of rows with content.
fn text_in(
    alloc: Global,
    calendar: &InstantCalendar,
    overrides: &[Override<'_>],
    rows: &[Row],
) -> Result<Option<Vec<u8>>, DateError>
    ensures text { IfOk result (spec.IsDatedBehind calendar.now (map override_of overrides.now)
        (map row_of rows.now)) }
    ensures refused { IfErr result (spec.FailsOr (spec.RefusesBehind calendar.now
        (map override_of overrides.now) (map row_of rows.now))) }
{
    match rows {
        [first, rest @ ..] => {
            let text = text_behind(alloc, calendar, overrides, first, rest)?;
            Ok(text)
        }
        [] => Ok(None),
    }
}

// Returns the text of a list of activities.
fn activities(
    alloc: Global,
    calendar: &InstantCalendar,
    overrides: &[Override<'_>],
    text: &[u8],
) -> Result<Option<Vec<u8>>, DateError>
    ensures text { IfOk result (spec.IsDatedBy calendar.now (map override_of overrides.now)
        (rows_read text.now)) }
    ensures refused { IfErr result
        (spec.Refuses calendar.now (map override_of overrides.now) text.now) }
{
    match read_rows_of(alloc, text) {
        Ok(rows) => {
            let rows = filled(alloc, &rows)?;
            let text = text_in(alloc, calendar, overrides, &rows)?;
            Ok(text)
        }
        Err(ReadError::Memory) => Err(DateError::Memory),
        Err(ReadError::Fault(_)) => Ok(None),
    }
}

// Returns the text of a list in UTF-8.
fn text_of(
    alloc: Global,
    calendar: &InstantCalendar,
    overrides: &[Override<'_>],
    text: &[u8],
) -> Result<Option<Vec<u8>>, DateError>
    ensures text { IfOk result (spec.IsDated calendar.now (map override_of overrides.now)
        text.now) }
    ensures refused { IfErr result
        (spec.Refuses calendar.now (map override_of overrides.now) text.now) }
{
    match list_kind(alloc, text)? {
        Some(ListKind::Activities) => {
            let text = activities(alloc, calendar, overrides, text)?;
            Ok(text)
        }
        Some(ListKind::Orders) => Ok(None),
        None => Ok(None),
    }
}

/// Returns a list with instants in place of the dates in its columns `earliest`, `fixed`, `begun`,
/// `done` and `due`, with given capacities. All other cells stay, and each row keeps its line.
///
/// A date in `done` or `due` is the end of that day, in another column its begin. A file that is no
/// list of activities stays as it is. Errors of the list itself are left to plan_spreadsheet and
/// plan_table.
pub fn dated_list(
    alloc: Global,
    calendar: &InstantCalendar,
    overrides: &[Override<'_>],
    bytes: &[u8],
) -> Result<DatedList, DateError>
    ensures list { IfOk result (spec.IsDatedList calendar.now (map override_of overrides.now)
        bytes.now) }
    ensures refused { IfErr result
        (spec.RefusesList calendar.now (map override_of overrides.now) bytes.now) }
{
    let decoded = utf8_text(alloc, bytes)?;
    let text = text_of(alloc, calendar, overrides, decoded.utf8(bytes))?;
    Ok(DatedList { text })
}
