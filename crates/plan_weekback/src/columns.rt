//! The columns of a plan in the rows of a list. They follow its columns, or replace some of them.

ghost use Rattle.std.specs.Prelude.{◌≡◌, ◌++◌, map, IfOk, OnOk};
ghost use Rattle.plan_table.specs.Csv.{row_of};
ghost use Rattle.plan_weekback.specs.Columns as spec;
ghost use Rattle.plan_weekback.specs.Entries.{entry_of};

use crate::entries::{Entry, Field, text_for, word_of};
use plan_list_back::{header_with, place_in, put};
use plan_table::Row;
use std::alloc::{AllocError, Global};

// Returns the place of a column in the rows under a header.
fn place_of(field: Field, first: &Row) -> usize
    ensures { result ≡ spec.place_of field (row_of first.now) }
{
    match place_in(word_of(field), &first.cells) {
        Some(k) => k,
        None => first.cells.len(),
    }
}

// Returns a row with its text in column `k`.
fn row_with(
    alloc: Global,
    field: Field,
    entries: &[Entry],
    k: usize,
    row: &Row,
) -> Result<Row, AllocError>
    ensures { IfOk result (λ r. row_of r
        ≡ spec.row_with field (map entry_of entries.now) k (row_of row.now)) }
{
    let cells = put(alloc, k, text_for(field, entries, row), &row.cells)?;
    Ok(Row {
        line: row.line,
        cells,
    })
}

// Appends rows with their texts in column `k`.
fn push_rows(
    alloc: Global,
    field: Field,
    entries: &[Entry],
    k: usize,
    all: &mut Vec<Row>,
    rows: &[Row],
) -> Result<(), AllocError>
    ensures { OnOk result (map row_of all.new.items ≡ map row_of all.old.items
        ++ map (spec.row_with field (map entry_of entries.now) k) (map row_of rows.now)) }
{
    for row in rows {
        let new = row_with(alloc, field, entries, k, row)?;
        all.push(new)?;
    }
    Ok(())
}

// Returns rows with a column. The first row is the header.
fn with_column(
    alloc: Global,
    field: Field,
    entries: &[Entry],
    rows: &[Row],
) -> Result<Vec<Row>, AllocError>
    ensures { IfOk result (λ v. map row_of v.items
        ≡ spec.with_column field (map entry_of entries.now) (map row_of rows.now)) }
{
    let mut all = Vec::new(alloc);
    if let [first, rest @ ..] = rows {
        let header = header_with(alloc, word_of(field), first)?;
        all.push(header)?;
        push_rows(
            alloc,
            field,
            entries,
            place_of(field, first),
            &mut all,
            rest,
        )?;
    }
    Ok(all)
}

// Returns rows, with the column of the tardiness if `late`.
fn with_late(
    alloc: Global,
    late: bool,
    entries: &[Entry],
    rows: Vec<Row>,
) -> Result<Vec<Row>, AllocError>
    ensures { IfOk result (λ v. map row_of v.items
        ≡ spec.with_late late (map entry_of entries.now) (map row_of rows.items)) }
{
    if late {
        with_column(alloc, Field::Late, entries, &rows)
    } else {
        Ok(rows)
    }
}

/// Returns rows with the columns of a plan: the start, the finish, and if `late` the tardiness. The
/// first row is the header.
pub fn with_plan(
    alloc: Global,
    late: bool,
    entries: &[Entry],
    rows: &[Row],
) -> Result<Vec<Row>, AllocError>
    ensures { IfOk result (λ v. map row_of v.items
        ≡ spec.with_plan late (map entry_of entries.now) (map row_of rows.now)) }
{
    let started = with_column(alloc, Field::Start, entries, rows)?;
    let finished = with_column(alloc, Field::Finish, entries, &started)?;
    with_late(alloc, late, entries, finished)
}
