//! The rows of queries as the types that a book returns.

ghost use Rattle.std.specs.Prelude.{slice_get, IfOk};
ghost use Rattle.std.specs.List.{AllZip};
ghost use Rattle.sqlite_value.specs.Order.{Row as Shown};
ghost use Rattle.plan_rows.specs.Books.{Matches};
ghost use Rattle.plan_store.specs.QueryRows.{ShowsOffice, ShowsDesk, ShowsCapacity};
ghost use Rattle.plan_store.specs.QueryRows.{ShowsCode, ShowsBind, ShowsLag};

use crate::cells::{bytes_at, digest_at, kind_at, number_at, plan_kind_at, small_at, text_at};
use plan_rows::{BindEntry, BookFault, CodeRow, DeskRow, Kind, LagEntry, PlanKind};
use sqlite::Row;
use std::alloc::Global;

/// A type that is read from a row of a query.
pub trait FromRow: Drop {
    /// The row shows the value.
    ghost shows: { Shown → Self → Type 0 };

    /// Reads a row.
    fn from_row(row: &Row) -> Result<Self, BookFault>
        ensures { IfOk result (shows row.now) };
}

/// Reads all rows of a query.
pub fn read_all<T: FromRow>(alloc: Global, rows: &[Row]) -> Result<Vec<T>, BookFault>
    ensures { IfOk result (λ all. AllZip T.shows rows.now all.items) }
{
    let mut all = Vec::new(alloc);
    for row in rows {
        all.push(T::from_row(row)?)?;
    }
    Ok(all)
}

/// Reads the first row of a query, if there is one.
pub fn read_first<T: FromRow>(rows: &[Row]) -> Result<Option<T>, BookFault>
    ensures { IfOk result (Matches T.shows (slice_get rows.now 0)) }
{
    match rows.first() {
        Some(row) => Ok(Some(T::from_row(row)?)),
        None => Ok(None),
    }
}

/// Reads the digest of the office's key.
pub fn read_digest(rows: &[Row]) -> Result<[u8; 32], BookFault>
    ensures { IfOk result (ShowsOffice rows.now) }
{
    match rows.first() {
        Some(row) => digest_at(row, 0),
        None => Err(BookFault::Store),
    }
}

impl FromRow for DeskRow {
    ghost shows = { ShowsDesk };

    fn from_row(row: &Row) -> Result<DeskRow, BookFault> {
        Ok(DeskRow {
            digest: digest_at(row, 0)?,
            next: number_at(row, 1)?,
        })
    }
}

impl FromRow for (Kind, u64) {
    ghost shows = { ShowsCapacity };

    fn from_row(row: &Row) -> Result<(Kind, u64), BookFault> {
        Ok((kind_at(row, 0)?, number_at(row, 1)?))
    }
}

impl FromRow for CodeRow {
    ghost shows = { ShowsCode };

    fn from_row(row: &Row) -> Result<CodeRow, BookFault> {
        Ok(CodeRow {
            code: text_at(row, 0)?,
            kind: kind_at(row, 1)?,
            capacity: number_at(row, 2)?,
        })
    }
}

impl FromRow for BindEntry {
    ghost shows = { ShowsBind };

    fn from_row(row: &Row) -> Result<BindEntry, BookFault> {
        Ok(BindEntry {
            place: number_at(row, 0)?,
            code: text_at(row, 1)?,
        })
    }
}

impl FromRow for LagEntry {
    ghost shows = { ShowsLag };

    fn from_row(row: &Row) -> Result<LagEntry, BookFault> {
        Ok(LagEntry {
            from: small_at(row, 0)?,
            to: small_at(row, 1)?,
            lag: number_at(row, 2)?,
        })
    }
}

/// A plan without its binds and lags.
#[derive(Debug, Drop)]
pub struct PlanPart {
    pub kind: PlanKind,
    pub name: String,
    pub body: Vec<u8>,
    pub start: String,
    pub days: String,
}

impl FromRow for PlanPart {
    ghost use Rattle.plan_store.specs.QueryRows.{ShowsPlan};

    ghost shows = { ShowsPlan };

    fn from_row(row: &Row) -> Result<PlanPart, BookFault> {
        Ok(PlanPart {
            kind: plan_kind_at(row, 0)?,
            name: text_at(row, 1)?,
            body: bytes_at(row, 2)?,
            start: text_at(row, 3)?,
            days: text_at(row, 4)?,
        })
    }
}
