//! A list with dates: its plain list, and its rows.

ghost use Rattle.std.specs.Prelude.{◌≡◌, ◌∷◌, None, Ok, map, IfErr, IfOk};
ghost use Rattle.plan_encoding.specs.Encodings.{utf8_of};
ghost use Rattle.plan_table.specs.Csv.{row_of};
ghost use Rattle.plan_table.specs.Header.{head_of};
ghost use Rattle.plan_table.specs.Listing.{rows_read};
ghost use Rattle.plan_table.specs.Overrides.{override_of};
ghost use Rattle.plan_weeklist.specs.Lists as spec;
ghost use Rattle.plan_weeklist.specs.Rows.{no_rows};

use crate::columns::{Columns, columns_of};
use crate::fault::WeekError;
use crate::plain::{has_no_dates, plain_rows};
use crate::rows::{WeekRows, read_rows};
use crate::text::write_rows;
use plan_encoding::utf8_text;
use plan_table::{
    Body, Head, ListKind, Override, ReadError, Row, filled_from, ids_place, list_kind, read_heads,
    read_rows_of, settle,
};
use std::alloc::{AllocError, Global};

/// A list with dates.
#[derive(Drop)]
pub struct WeekList {
    /// The plain list in UTF-8; `None` if it is the list itself.
    pub plain: Option<Vec<u8>>,
    /// The contents of the rows: dates and absences.
    pub rows: WeekRows,
}

impl WeekList {
    /// Returns the text that plan_spreadsheet and plan_table read: the plain list, or `bytes`, the
    /// bytes of the file.
    pub fn text<'a>(&'a self, bytes: &'a [u8]) -> &'a [u8]
        ensures { result.now ≡ spec.text_of self.now bytes.now }
    {
        match &self.plain {
            Some(text) => text,
            None => bytes,
        }
    }
}

// A list of which nothing is read.
fn unread(alloc: Global) -> WeekList
    ensures { spec.IsListOf (Ok no_rows) None result }
{
    WeekList {
        plain: None,
        rows: WeekRows {
            rows: Vec::new(alloc),
            absences: Vec::new(alloc),
        },
    }
}

// The text of the plain list, if a list has dates.
fn plain_text(alloc: Global, columns: &Columns, all: &[Row]) -> Result<Option<Vec<u8>>, WeekError>
    ensures text { IfOk result (spec.IsPlainText (spec.plain_by columns.now (map row_of all.now))) }
    ensures errors { IfErr result spec.IsWant }
{
    if has_no_dates(columns, all) {
        return Ok(None);
    }
    let plain = plain_rows(alloc, columns, all)?;
    let text = write_rows(alloc, &plain)?;
    Ok(Some(text))
}

// A list with these columns, before they are settled.
fn list_under(
    alloc: Global,
    overrides: &[Override<'_>],
    today: Option<u32>,
    all: &[Row],
    rows: &[Row],
    heads: &[Head],
) -> Result<WeekList, WeekError>
    ensures list { IfOk result (spec.IsListOf
        (spec.rows_under (map override_of overrides.now) today (map row_of rows.now)
        (Ok (map head_of heads.now)))
        (spec.plain_under (map override_of overrides.now) (map row_of all.now)
        (map row_of rows.now) (Ok (map head_of heads.now)))) }
    ensures refused { IfErr result (spec.IsNoListOf
        (spec.rows_under (map override_of overrides.now) today (map row_of rows.now)
        (Ok (map head_of heads.now)))) }
{
    let settled = settle(alloc, overrides, rows, heads)?;
    let place = ids_place(overrides, heads);
    let body = Body {
        overrides,
        rows,
        place,
    };
    let columns = columns_of(&body, &settled);
    let read = read_rows(alloc, today, &columns, &settled, rows)?;
    let plain = plain_text(alloc, &columns, all)?;
    Ok(WeekList { plain, rows: read })
}

// A list by its header and the rows behind it.
fn list_behind(
    alloc: Global,
    overrides: &[Override<'_>],
    today: Option<u32>,
    all: &[Row],
    first: &Row,
    rows: &[Row],
) -> Result<WeekList, WeekError>
    ensures list { IfOk result (spec.IsListOf
        (spec.rows_behind (map override_of overrides.now) today
        (row_of first.now ∷ map row_of rows.now))
        (spec.plain_behind (map override_of overrides.now) (map row_of all.now)
        (row_of first.now ∷ map row_of rows.now))) }
    ensures refused { IfErr result (spec.IsNoListOf
        (spec.rows_behind (map override_of overrides.now) today
        (row_of first.now ∷ map row_of rows.now))) }
{
    match read_heads(alloc, first.line, &first.cells) {
        Ok(heads) => {
            let list = list_under(alloc, overrides, today, all, rows, &heads)?;
            Ok(list)
        }
        Err(ReadError::Memory) => Err(WeekError::Memory),
        Err(ReadError::Fault(_)) => Ok(unread(alloc)),
    }
}

// A list by its rows.
fn list_in(
    alloc: Global,
    overrides: &[Override<'_>],
    today: Option<u32>,
    all: &[Row],
) -> Result<WeekList, WeekError>
    ensures list { IfOk result
        (spec.IsActivities (map override_of overrides.now) today (Ok (map row_of all.now))) }
    ensures refused { IfErr result (spec.IsNoListOf
        (spec.rows_in (map override_of overrides.now) today (Ok (map row_of all.now)))) }
{
    match filled_from(all) {
        [first, rows @ ..] => {
            let list = list_behind(alloc, overrides, today, all, first, rows)?;
            Ok(list)
        }
        [] => Ok(unread(alloc)),
    }
}

// A list of activities.
fn activities(
    alloc: Global,
    overrides: &[Override<'_>],
    today: Option<u32>,
    text: &[u8],
) -> Result<WeekList, WeekError>
    ensures list { IfOk result
        (spec.IsActivities (map override_of overrides.now) today (rows_read text.now)) }
    ensures refused { IfErr result
        (spec.IsNoWeekList (map override_of overrides.now) today text.now) }
{
    match read_rows_of(alloc, text) {
        Ok(rows) => {
            let list = list_in(alloc, overrides, today, &rows)?;
            Ok(list)
        }
        Err(ReadError::Memory) => Err(WeekError::Memory),
        Err(ReadError::Fault(_)) => Ok(unread(alloc)),
    }
}

// A list in UTF-8.
fn list_of(
    alloc: Global,
    overrides: &[Override<'_>],
    today: Option<u32>,
    text: &[u8],
) -> Result<WeekList, WeekError>
    ensures list { IfOk result
        (spec.IsWeekList (map override_of overrides.now) today text.now) }
    ensures refused { IfErr result
        (spec.IsNoWeekList (map override_of overrides.now) today text.now) }
{
    match list_kind(alloc, text)? {
        Some(ListKind::Activities) => {
            let list = activities(alloc, overrides, today, text)?;
            Ok(list)
        }
        Some(ListKind::Orders) => Ok(unread(alloc)),
        None => Ok(unread(alloc)),
    }
}

/// Reads the dates of a list, with given capacities. `today` is the instant from which on is
/// planned, if it is known.
///
/// A file that is no list of activities, and a list without dates, stays as it is: `plain` is
/// `None`. Errors of the list itself are left to plan_spreadsheet and plan_table, which read the
/// plain list: each row keeps its line.
pub fn read_week_list(
    alloc: Global,
    overrides: &[Override<'_>],
    today: Option<u32>,
    bytes: &[u8],
) -> Result<WeekList, WeekError>
    ensures list { IfOk result
        (spec.IsWeekList (map override_of overrides.now) today (utf8_of bytes.now)) }
    ensures refused { IfErr result
        (spec.IsNoWeekList (map override_of overrides.now) today (utf8_of bytes.now)) }
{
    let decoded = utf8_text(alloc, bytes)?;
    list_of(alloc, overrides, today, decoded.utf8(bytes))
}
