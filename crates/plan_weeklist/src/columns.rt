//! The columns of dates in a list, and that of names of resources.

ghost use Rattle.std.specs.Prelude.{◌≡◌, ◌++◌, [], map, IfOk, OnOk};
ghost use Rattle.std.specs.Option.{option_to_list};
ghost use Rattle.plan_table.specs.Csv.{row_of};
ghost use Rattle.plan_table.specs.Entries.{place_from};
ghost use Rattle.plan_table.specs.Header.{head_of};
ghost use Rattle.plan_table.specs.Settlement.{body_of};
ghost use Rattle.plan_table.specs.declared.header.Column.TheVariants as columns;
ghost use Rattle.plan_weeklist.specs.Columns as spec;

use plan_spreadsheet::names_place;
use plan_table::{Body, Column, Head, Row, cell_of, has_capacity, same, same_kind, same_name};
use std::alloc::{AllocError, Global};

/// The columns of the ids and of the durations, those of dates, that of the tardiness in an earlier
/// plan, and that of names of resources.
#[derive(Clone, Copy, Drop)]
pub struct Columns {
    pub ids: Option<usize>,
    pub durations: Option<usize>,
    pub earliest: Option<usize>,
    pub fixed: Option<usize>,
    pub begun: Option<usize>,
    pub remaining: Option<usize>,
    pub done: Option<usize>,
    pub due: Option<usize>,
    pub late: Option<usize>,
    pub names: Option<usize>,
}

// Whether column `k` has dates of a kind.
fn is_dated(body: &Body<'_>, word: &[u8], k: usize, head: &Head) -> bool
    ensures { result ≡ spec.is_dated (body_of body.now) word.now k (head_of head.now) }
{
    same(&head.key, word) && !has_capacity(body, k, head)
}

// The first column with dates of a kind.
fn dated_place(body: &Body<'_>, word: &[u8], heads: &[Head]) -> Option<usize>
    ensures { result ≡ spec.dated_from (body_of body.now) word.now 0 (map head_of heads.now) }
{
    for (k, head) in heads.iter().enumerate() {
        if is_dated(body, word, k, head) {
            return Some(k);
        }
    }
    None
}

// The first column of durations.
fn durations_place(heads: &[Head]) -> Option<usize>
    ensures { result ≡ place_from columns.Duration 0 (map head_of heads.now) }
{
    for (k, head) in heads.iter().enumerate() {
        if same_kind(Column::Duration, head.column) {
            return Some(k);
        }
    }
    None
}

/// Returns the columns of dates and of names of a list with these columns.
pub fn columns_of(body: &Body<'_>, heads: &[Head]) -> Columns
    ensures { result ≡ spec.columns_of (body_of body.now) (map head_of heads.now) }
{
    Columns {
        ids: body.place,
        durations: durations_place(heads),
        earliest: dated_place(body, b"earliest", heads),
        fixed: dated_place(body, b"fixed", heads),
        begun: dated_place(body, b"begun", heads),
        remaining: dated_place(body, b"remaining", heads),
        done: dated_place(body, b"done", heads),
        due: dated_place(body, b"due", heads),
        late: dated_place(body, b"late", heads),
        names: names_place(body, heads),
    }
}

/// Whether a column is column `k`.
pub fn is_place(place: Option<usize>, k: usize) -> bool
    ensures { result ≡ spec.is_place place k }
{
    match place {
        Some(place) => place == k,
        None => false,
    }
}

/// Whether column `k` has dates, or the tardiness in an earlier plan, which isn't read.
pub fn has_dates(columns: &Columns, k: usize) -> bool
    ensures { result ≡ spec.has_dates columns.now k }
{
    is_place(columns.earliest, k)
        || is_place(columns.fixed, k)
        || is_place(columns.begun, k)
        || is_place(columns.remaining, k)
        || is_place(columns.done, k)
        || is_place(columns.due, k)
        || is_place(columns.late, k)
}

/// Whether no column has dates or such a tardiness.
pub fn is_undated(columns: &Columns) -> bool
    ensures { result ≡ spec.is_undated columns.now }
{
    columns.earliest.is_none()
        && columns.fixed.is_none()
        && columns.begun.is_none()
        && columns.remaining.is_none()
        && columns.done.is_none()
        && columns.due.is_none()
        && columns.late.is_none()
}

/// Whether a row is an absence.
pub fn is_absence(columns: &Columns, row: &Row) -> bool
    ensures { result ≡ spec.is_absence columns.now.ids (row_of row.now) }
{
    match columns.ids {
        Some(place) => same_name(cell_of(row, place), b"absence"),
        None => false,
    }
}
